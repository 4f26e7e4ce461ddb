//! A cell between threads, without a lock.
ghost use Rattle.std.specs.Prelude.{◌≡◌, ◌+◌, ◌*◌, ◌^◌, ◌<◌, length, IfOk};
ghost use Rattle.board_cell.specs.Passes.{threaded_shape, new_writer, new_reader};
ghost use Rattle.board_cell.specs.Rule.{new_cell_words};

use crate::cell_error::CellError;
use crate::threaded::reader::ReaderPass;
use crate::threaded::rule::{CellRule, Parts};
use crate::threaded::view::View;
use crate::threaded::writer::WriterPass;
use atomic_table::Table;
use board_layout::CellShape;
use std::alloc::{AllocError, Global};
use std::marker::Model;

/// A cell between threads.
#[derive(Drop)]
pub struct ThreadedCell {
    pub(crate) table: Table<(), View, Vec<u64>, CellRule, Global>,
    words: u64,
}

impl Model for ThreadedCell {
    ghost use Rattle.std.specs.Prelude.{◌≡◌, ◌+◌, ◌*◌, ◌^◌, ◌<◌, length};
    ghost use Rattle.board_cell.specs.Passes.{CellSeen};

    ghost Value = { CellSeen };

    ghost view = { λ s. record { cell = s.table.shared.table_id; width = s.words } };

    ghost invariant = { λ s. (s.table.shared.table_id.words ≡ 2 + 2 * s.words) × (length s.table.shared.key.items ≡ s.words)
        × (2 + 2 * s.words < 2 ^ 64) };
}

// The counter, the reserved word, the value, and zeros for the second copy.
fn opening(alloc: Global, words: &Vec<u64>) -> Result<Vec<u64>, AllocError>
    ensures { IfOk result (λ v. v.items ≡ new_cell_words words.now.items) }
{
    let mut all = Vec::new(alloc);
    all.push(1)?;
    all.push(0)?;
    all.extend_from_slice(words.as_slice())?;
    for _ in 0..words.len() {
        all.push(0)?;
    }
    Ok(all)
}

impl ThreadedCell {
    /// A cell of this value, with its writer's pass and a first reader's.
    ///
    /// # Errors
    /// `OutOfMemory` where memory is refused.
    pub fn new(
        alloc: Global,
        words: &Vec<u64>,
    ) -> Result<(ThreadedCell, WriterPass, ReaderPass), CellError>
        ensures cell { IfOk result (λ r. r.0.width ≡ length words.now.items) }
        ensures writer { IfOk result (λ r. r.1 ≡ new_writer r.0.cell words.now.items) }
        ensures reader { IfOk result (λ r. r.2 ≡ new_reader r.0.cell 1) }
    {
        let all = opening(alloc, words)?;
        let (table, mut seat) = Table::of_words(alloc, all.as_slice(), words)?;
        let first = table.shared.split_seat::<Parts>(&mut seat);
        let cell = ThreadedCell {
            table,
            words: words.len() as u64,
        };
        let writer = WriterPass {
            seat,
            generation: 1,
        };
        Ok((cell, writer, ReaderPass { seat: first }))
    }

    /// The number of words of a value.
    #[inline]
    pub fn words(&self) -> u64
        ensures { result ≡ self.now.width }
    {
        self.words
    }

    #[inline(always)]
    pub(crate) fn shape(&self) -> CellShape
        ensures shape { result ≡ threaded_shape self.now.width }
        ensures size { (self.now.cell.words ≡ 2 + 2 * self.now.width) × (2 + 2 * self.now.width < 2 ^ 64) }
    {
        CellShape {
            first: 0,
            head: 2,
            words: self.words,
        }
    }
}
