//! What a write handle knows, and the calls that it makes.
ghost use Rattle.std.specs.Prelude.{◌≡◌, ◌+◌, ◌^◌, ◌<◌, length};
ghost use Rattle.board_layout.specs.Layout.{cell_end};
ghost use Rattle.board_model.specs.Replies.{none_put};
ghost use Rattle.board_ports.specs.EntryCalls.{update_of};
ghost use Rattle.board_ports.specs.Loans.{raised};

use crate::loan_core::LoanCore;
use board_cell::{CellShape, UpdateCall};

/// What the one write handle of an entry knows. It isn't copied, so that `loan` ends it.
#[derive(Drop, Debug, PartialEq, Eq)]
pub struct WriteCore {
    /// Where the words of the entry's cell lie.
    pub shape: CellShape,
    /// The place of the entry's cell in its board, in bytes.
    pub entry_id: u64,
    /// How many values were published, the opening one among them.
    pub generation: u64,
}

impl WriteCore {
    /// A publication of these words, as the next value. `published` is called once it is done.
    #[inline]
    pub fn update(&self, words: Vec<u64>) -> UpdateCall
        requires width { length words.items ≡ self.now.shape.words }
        requires shape { cell_end self.now.shape < 2 ^ 64 }
        requires room { self.now.generation + 1 < 2 ^ 64 }
        ensures { result ≡ update_of self.now.shape self.now.generation words.items }
    {
        UpdateCall::new(self.shape, self.generation, words)
    }

    /// A value was published.
    #[inline]
    pub fn published(&mut self)
        requires room { self.old.generation + 1 < 2 ^ 64 }
        ensures { self.new ≡ raised self.old }
    {
        self.generation += 1;
    }

    /// Goes out as a loan, of which no word is put. The buffer has a place for each word of a value, all empty.
    #[inline]
    pub fn loan(self, buffer: Vec<Option<u64>>) -> LoanCore
        requires empty { buffer.items ≡ none_put self.shape.words }
        ensures handle { result.handle ≡ self }
        ensures empty { result.words ≡ none_put self.shape.words }
    {
        LoanCore::new(self, buffer)
    }
}
