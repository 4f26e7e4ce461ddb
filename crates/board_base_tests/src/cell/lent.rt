//! What a caller knows of a cell and of a reader's pass that it is lent, whatever these went through.
ghost use Rattle.std.specs.Prelude.{◌≡◌, ◌≤◌, length};
ghost use Rattle.std.specs.List.{All};

use board_cell::{ReaderPass, ThreadedCell};
use std::sync::Wait;

// A get by a pass that noted values before, whoever made these gets. What a pass notes doesn't fall, so it is none older.
fn no_older<R: Wait>(rt: &R, cell: &ThreadedCell, pass: &mut ReaderPass, out: &mut Vec<u64>) -> u64
    requires cell { pass.old.cell ≡ cell.now.cell }
    requires width { length out.old.items ≡ cell.now.width }
    ensures { All (λ note. note.generation ≤ result) pass.old.notes }
{
    cell.get(rt, pass, out)
}
