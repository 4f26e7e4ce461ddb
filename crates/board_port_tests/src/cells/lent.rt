//! What a caller knows of the cells of a board that it is lent, whatever these went through.
ghost use Rattle.std.specs.Prelude.{◌≡◌, is_some, slice_get};
ghost use Rattle.board_model.specs.Tables.{entry_at};

use board_cells::BoardCells;
use board_service::DomainCore;

// Whether the board has an entry at this place. It asks the board's cells: the entry's is there, and as wide as its values.
fn has_entry(core: &DomainCore<BoardCells>, board: u64, entry: u64) -> bool
    ensures { result ≡ is_some (entry_at core.now.tables board entry) }
{
    let Some(entries) = core.entries_of(board) else {
        return false;
    };
    let Some(found) = entries.get(entry as usize) else {
        return false;
    };
    match core.cells(board) {
        Some(cells) => cells.has_cell(entry, found.cell.words),
        None => false,
    }
}
