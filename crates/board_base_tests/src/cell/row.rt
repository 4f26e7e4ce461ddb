//! One thread.
ghost use Rattle.std.specs.Prelude.{◌≡◌, ◌+◌, ◌^◌, ◌<◌, length, IfOk};

use crate::same::same;
use board_cell::{GetAgain, ReaderPass, ThreadedCell, WriterPass};
use std::alloc::{AllocError, Global};
use std::test::*;

fn tried(cell: &ThreadedCell, reader: &mut ReaderPass, out: &mut Vec<u64>) -> Option<(u64, u64)>
    requires cell { reader.old.cell ≡ cell.now.cell }
    requires width { (length out.old.items ≡ cell.now.width) × (cell.now.width ≡ 1) }
    ensures { (reader.new.cell ≡ cell.now.cell) × (length out.new.items ≡ cell.now.width) }
{
    match cell.try_get(reader, 1, out) {
        Ok(generation) => Some((generation, out[0])),
        Err(
            GetAgain {
                before: _,
                after: _,
            },
        ) => None,
    }
}

fn update(
    alloc: Global,
    cell: &ThreadedCell,
    writer: &mut WriterPass,
    word: u64,
) -> Result<(), AllocError>
    requires cell { writer.old.cell ≡ cell.now.cell }
    requires width { cell.now.width ≡ 1 }
    requires room { length writer.old.published + 1 < 2 ^ 64 }
    ensures { (writer.new.cell ≡ cell.now.cell) × (length writer.new.published < length writer.old.published + 2) }
{
    let words = vec![in alloc; word]?;
    cell.update(writer, &words);
    Ok(())
}

#[test]
fn a_reader_follows_the_updates(rt: HostRuntime) -> Result<(), Fail> {
    let alloc = rt.alloc();
    let seven = vec![in alloc; 7]?;
    let mut out = vec![in alloc; 0]?;
    let (cell, mut writer, mut reader) = ThreadedCell::new(alloc, &seven)?;
    same(&rt, &tried(&cell, &mut reader, &mut out), &Some((1, 7)));
    update(alloc, &cell, &mut writer, 9)?;
    assert!(rt; !cell.fresh(&mut reader, 1));
    same(
        &rt,
        &(cell.get(&rt, &mut reader, &mut out), out[0]),
        &(2, 9),
    );
    update(alloc, &cell, &mut writer, 11)?;
    same(&rt, &tried(&cell, &mut reader, &mut out), &Some((3, 11)));
    same(&rt, &(cell.words(), writer.generation()), &(1, 3));
    let readers = &mut vec![in alloc; reader]?;
    same(&rt, &cell.gather(&mut writer, readers).generation, &3);
    Ok(())
}

#[test]
fn a_receipt_and_another_pass_let_a_reader_know(rt: HostRuntime) -> Result<(), Fail> {
    let alloc = rt.alloc();
    let seven = vec![in alloc; 7]?;
    let mut out = vec![in alloc; 0]?;
    let (cell, mut writer, mut reader) = ThreadedCell::new(alloc, &seven)?;
    update(alloc, &cell, &mut writer, 9)?;
    let receipt = cell.receipt(&mut writer);
    same(&rt, &receipt.generation(), &2);
    cell.learn(&mut reader, receipt);
    let mut other = cell.split(&mut reader);
    same(&rt, &tried(&cell, &mut other, &mut out), &Some((2, 9)));
    cell.join(&mut reader, other);
    assert!(rt; cell.fresh(&mut reader, 2));
    cell.meet(&mut writer, &mut reader);
    Ok(())
}
