//! The words with which cells open.
ghost use Rattle.std.specs.Prelude.{◌≡◌, ◌++◌, OnOk, replicate};
ghost use Rattle.board_layout.specs.Layout.{opening_cell};

use crate::shape::CellPlace;
use std::alloc::AllocError;

/// So many zeros behind the words.
///
/// # Errors
/// `AllocError` where memory is refused.
pub fn push_zeros(words: &mut Vec<u64>, count: u64) -> Result<(), AllocError>
    ensures { OnOk result (words.new.items ≡ words.old.items ++ replicate count 0) }
{
    for _ in 0..count {
        words.push(0)?;
    }
    Ok(())
}

/// The words of a cell that opens with the value, behind the words.
///
/// # Errors
/// `AllocError` where memory is refused.
pub fn push_cell(words: &mut Vec<u64>, cell: &CellPlace, value: &[u64]) -> Result<(), AllocError>
    ensures { OnOk result
        (words.new.items ≡ words.old.items ++ opening_cell cell.now value.now) }
{
    words.push(1)?;
    push_zeros(words, cell.head.saturating_sub(1))?;
    words.extend_from_slice(value)?;
    push_zeros(words, cell.words)
}
