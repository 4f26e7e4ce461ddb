//! What a read handle knows, and the calls that it makes.
ghost use Rattle.std.specs.Prelude.{◌≡◌, ◌^◌, ◌<◌, length};
ghost use Rattle.board_layout.specs.Layout.{cell_end};
ghost use Rattle.board_ports.specs.EntryCalls.{get_of, fresh_of};

use board_cell::{CellShape, FreshCall, GetCall};

/// What a read handle knows of its entry.
#[derive(Clone, Copy, Debug, PartialEq, Eq)]
pub struct ReadCore {
    /// Where the words of the entry's cell lie.
    pub shape: CellShape,
    /// The place of the entry's cell in its board, in bytes.
    pub entry_id: u64,
}

impl ReadCore {
    /// A read of the entry. The buffer has as many words as a value.
    #[inline]
    pub fn get(&self, buffer: Vec<u64>) -> GetCall
        requires width { length buffer.items ≡ self.now.shape.words }
        requires shape { cell_end self.now.shape < 2 ^ 64 }
        ensures { result ≡ get_of self.now.shape }
    {
        GetCall::new(self.shape, buffer)
    }

    /// Asks whether the entry is still at this generation.
    #[inline]
    pub fn fresh(&self, generation: u64) -> FreshCall
        ensures { result ≡ fresh_of self.now.shape generation }
    {
        FreshCall::new(self.shape, generation)
    }
}
