//! Receipts of publications, by which readers learn of them.
ghost use Rattle.std.specs.Prelude.{◌≡◌};
ghost use Rattle.board_cell.specs.Passes.{new_reader, reaching};

use crate::threaded::cell::ThreadedCell;
use crate::threaded::reader::ReaderPass;
use crate::threaded::rule::Parts;
use crate::threaded::view::View;
use atomic_table::Seat;
use std::marker::Model;

/// Names a publication, so that a reader can learn of it.
#[derive(Drop)]
pub struct Receipt {
    pub(crate) seat: Seat<(), View>,
    pub(crate) generation: u64,
}

impl Model for Receipt {
    ghost use Rattle.std.specs.Prelude.{◌≡◌, []};
    ghost use Rattle.board_cell.specs.Passes.{ReceiptSeen};
    ghost use Rattle.board_cell.specs.Views.{IsReceiptOf};

    ghost Value = { ReceiptSeen };

    ghost view = { λ s. record { cell = s.seat.table_id; generation = s.generation } };

    ghost invariant = { λ s. IsReceiptOf s.generation s.seat.me.0 × (s.seat.me.1 ≡ []) };
}

impl Receipt {
    /// The generation of the publication.
    #[inline]
    pub fn generation(&self) -> u64
        ensures { result ≡ self.now.generation }
    {
        self.generation
    }

    /// Becomes the pass of a new reader, who knows of the publication: its gets give that value or a later one. So a reader that is told of a publication needs no pass of its own.
    pub fn into_pass(self) -> ReaderPass
        ensures { result ≡ new_reader self.cell self.generation }
    {
        let Receipt {
            seat,
            generation: _,
        } = self;
        ReaderPass { seat }
    }
}

impl ThreadedCell {
    /// Tells a reader of the publication: its next gets give that value or a later one. Pass and receipt are of this cell.
    pub fn learn(&self, pass: &mut ReaderPass, receipt: Receipt)
        requires cell { (pass.old.cell ≡ self.now.cell) × (receipt.cell ≡ self.now.cell) }
        ensures { pass.new ≡ reaching pass.old receipt.generation }
    {
        let table = &self.table;
        let Receipt {
            seat,
            generation: _,
        } = receipt;
        table.shared.join_seat::<Parts>(&mut pass.seat, seat);
    }
}
