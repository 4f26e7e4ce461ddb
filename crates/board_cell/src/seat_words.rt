//! Words behind a seat of an atomic table.
ghost use Rattle.std.specs.Prelude.{◌≡◌, IfOk};

use crate::cell_error::CellError;
use crate::words::Words;
use atomic_table::{Play, Seat, Table, TableRule};
use std::alloc::Global;
use std::collections::LinkedList;
use std::marker::Model;

// The view of the one seat is the table's words.
struct Mirrored;

impl TableRule<(), LinkedList<u64>, Vec<u64>> for Mirrored {
    ghost use Rattle.board_cell.specs.Mirror.{Mirrors};

    ghost holds = { λ _. Mirrors };

    ghost first = { λ k. k.items };
}

struct Loads;

impl Play<(), LinkedList<u64>> for Loads {
    ghost use Rattle.board_cell.specs.Mirror.{loaded};

    ghost then = { loaded };
}

struct Stores;

impl Play<(), LinkedList<u64>> for Stores {
    ghost use Rattle.board_cell.specs.Mirror.{stored};

    ghost then = { stored };
}

/// Words in a table of atomic words, with one seat.
#[derive(Drop)]
pub struct SeatWords {
    table: Table<(), LinkedList<u64>, Vec<u64>, Mirrored, Global>,
    seat: Seat<(), LinkedList<u64>>,
}

impl Model for SeatWords {
    ghost use Rattle.std.specs.Prelude.{◌≡◌, List, ℕ, length};

    ghost Value = { List ℕ };

    ghost view = { λ s. s.seat.me.0 };

    ghost invariant = { λ s. (s.seat.table_id ≡ s.table.shared.table_id) × (length s.seat.me.0 ≡ s.table.shared.table_id.words) };
}

impl SeatWords {
    /// A copy of these words.
    ///
    /// # Errors
    /// `OutOfMemory` where memory is refused.
    pub fn new(alloc: Global, words: &Vec<u64>) -> Result<SeatWords, CellError>
        ensures { IfOk result (λ s. s ≡ words.now.items) }
    {
        let (table, seat) = Table::of_words(alloc, words.as_slice(), words)?;
        Ok(SeatWords { table, seat })
    }
}

impl Words for SeatWords {
    ghost list = { λ s. s };

    fn len(&self) -> u64 {
        self.table.word_count() as u64
    }

    fn load(&mut self, index: u64) -> u64 {
        let table = &self.table;
        table.shared.load::<Loads>(&mut self.seat, index as usize)
    }

    fn store(&mut self, index: u64, value: u64) {
        let table = &self.table;
        table
            .shared
            .store::<Stores>(&mut self.seat, index as usize, value);
    }
}
