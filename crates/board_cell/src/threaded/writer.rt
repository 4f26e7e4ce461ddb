//! The pass of the writer, and its updates.
ghost use Rattle.std.specs.Prelude.{◌≡◌, ◌+◌, ◌^◌, ◌<◌, length};
ghost use Rattle.board_cell.specs.Passes.{publishing, receipt_of};

use crate::threaded::cell::ThreadedCell;
use crate::threaded::receipt::Receipt;
use crate::threaded::rule::Parts;
use crate::threaded::view::View;
use crate::update_call::UpdateCall;
use atomic_table::Seat;
use std::marker::Model;

/// What the one writer of a cell knows: the values that it published.
#[derive(Drop)]
pub struct WriterPass {
    pub(crate) seat: Seat<(), View>,
    pub(crate) generation: u64,
}

impl Model for WriterPass {
    ghost use Rattle.std.specs.Prelude.{◌≡◌, [], length};
    ghost use Rattle.board_cell.specs.Passes.{WriterSeen};
    ghost use Rattle.board_cell.specs.Views.{writer_of};
    ghost use Rattle.board_cell.specs.declared.threaded.view.View.TheVariants.{Writer};

    ghost Value = { WriterSeen };

    ghost view = { λ s. record { cell = s.seat.table_id; published = (writer_of s.seat.me.0).published } };

    ghost invariant = { λ s. (s.seat.me.0 ≡ Writer (writer_of s.seat.me.0)) × ((writer_of s.seat.me.0).pending ≡ [])
        × (s.generation ≡ length (writer_of s.seat.me.0).published) };
}

impl WriterPass {
    /// The number of published values, the opening one among them.
    #[inline]
    pub fn generation(&self) -> u64
        ensures { result ≡ length self.now.published }
    {
        self.generation
    }
}

impl ThreadedCell {
    /// Publishes these words: each is stored in the spare copy, and then the counter is raised. The pass is of this cell and has published fewer than 2^64 - 1 values, and there are as many words as a value has.
    #[inline]
    pub fn update(&self, pass: &mut WriterPass, words: &Vec<u64>)
        requires cell { pass.old.cell ≡ self.now.cell }
        requires width { length words.now.items ≡ self.now.width }
        requires room { length pass.old.published + 1 < 2 ^ 64 }
        ensures { pass.new ≡ publishing pass.old words.now.items }
    {
        let mut call = UpdateCall::lent(self.shape(), pass.generation, words);
        self.run_update(&mut pass.seat, &mut call);
        pass.generation += 1;
    }

    /// Names the last publication, for a reader that is to know of it. The pass is of this cell.
    pub fn receipt(&self, pass: &mut WriterPass) -> Receipt
        requires { pass.old.cell ≡ self.now.cell }
        ensures kept { pass.new ≡ pass.old }
        ensures given { result ≡ receipt_of pass.old }
    {
        let table = &self.table;
        let generation = pass.generation;
        Receipt {
            seat: table.shared.split_seat::<Parts>(&mut pass.seat),
            generation,
        }
    }
}
