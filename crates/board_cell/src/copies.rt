//! Where the current and the spare copy of a cell lie.
ghost use Rattle.std.specs.Prelude.{◌≡◌, ◌+◌, ◌^◌, ◌<◌, ◌≤◌};
ghost use Rattle.board_cell_model.specs.OwedAccesses.{spare_at, current_at};
ghost use Rattle.board_layout.specs.Layout.{cell_end};

use board_layout::CellShape;

// The word with this index of the first copy, or of the second one.
#[inline(always)]
pub(crate) fn spare_word(shape: CellShape, generation: u64, index: u64) -> u64
    requires { (cell_end shape < 2 ^ 64) × (index < shape.words) }
    ensures { result ≡ spare_at shape generation + index }
{
    if generation % 2 == 0 {
        shape.first + shape.head + index
    } else {
        shape.first + shape.head + shape.words + index
    }
}

// Where the copy that is current at this counter begins.
#[inline(always)]
pub(crate) fn current_copy(shape: CellShape, counter: u64) -> u64
    requires { cell_end shape < 2 ^ 64 }
    ensures is { result ≡ current_at shape counter }
    ensures fits { result + shape.words ≤ cell_end shape }
{
    if counter % 2 == 0 {
        shape.first + shape.head + shape.words
    } else {
        shape.first + shape.head
    }
}
