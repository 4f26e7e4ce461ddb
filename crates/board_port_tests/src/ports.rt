//! The calls that loans give one after another, on an entry of four words whose cell begins with word 0: its copies begin with words 2 and 6.
ghost use Rattle.std.specs.Prelude.{◌≡◌, ◌+◌, ◌^◌, ◌<◌};
ghost use Rattle.board_layout.specs.Layout.{cell_end};

use crate::same::same;
use board_cell::{Access, run_update};
use board_ports::{CellShape, LoanCore, WriteCore};
use std::test::*;

const WRITE: WriteCore = WriteCore {
    shape: SHAPE,
    entry_id: 16,
    generation: 1,
};

const SHAPE: CellShape = CellShape {
    first: 0,
    head: 2,
    words: 4,
};

fn put(loan: &mut LoanCore, index: u64, word: u64) -> Option<Access>
    requires { cell_end loan.old.handle.shape < 2 ^ 64 }
    ensures { loan.new.handle ≡ loan.old.handle }
{
    let call = loan.put(index, word)?;
    loan.wrote(index, word);
    Some(call.next())
}

fn publish(loan: &LoanCore) -> Option<Access>
    requires { loan.now.handle.generation + 1 < 2 ^ 64 }
{
    if loan.is_filled() {
        Some(loan.publish().next())
    } else {
        None
    }
}

#[test]
fn a_loan_is_published_once_each_word_was_put(rt: HostRuntime) -> Result<(), Fail> {
    let mut loan = WRITE.loan(vec![in rt.alloc(); None; 4]?);
    let cases = [
        (0, 5, Some(6), false),
        (1, 6, Some(7), false),
        (4, 0, None, false),
        (2, 7, Some(8), false),
        (0, 4, Some(6), false),
        (3, 8, Some(9), true),
    ];
    'cases: for (index, value, word, filled) in cases {
        let access = word.map(|word| Access::Write { word, value });
        assert_eq!(rt; put(&mut loan, index, value), access, "at {index}");
        let counter = if filled {
            Some(Access::Write { word: 0, value: 2 })
        } else {
            None
        };
        assert_eq!(rt; publish(&loan), counter, "at {index}");
    }
    assert_eq!(rt; loan.into_write(true).generation, 2);
    Ok(())
}

#[test]
fn a_loan_is_filled_whatever_was_put(rt: HostRuntime) -> Result<(), Fail> {
    let alloc = rt.alloc();
    let mut loan = WRITE.loan(vec![in alloc; None; 4]?);
    put(&mut loan, 3, 7);
    let mut accesses = Vec::new(alloc);
    run_update(&mut loan.fill(vec![in alloc; 5, 6, 7, 8]?), &mut accesses)?;
    let expected = [(6, 5), (7, 6), (8, 7), (9, 8), (0, 2)];
    same(&rt, &accesses.len(), &expected.len());
    for (access, (word, value)) in accesses.iter().zip(expected) {
        same(&rt, access, &Access::Write { word, value });
    }
    same(&rt, loan.handle(), &WRITE);
    Ok(())
}
