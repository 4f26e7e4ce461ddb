//! The ends of the cells of a domain's boards.
ghost use Rattle.std.specs.Prelude.{◌≡◌, IfOk, IfSome, option_map};
ghost use Rattle.board_cells.specs.Cells.{cell_width, end_width, fits};
ghost use Rattle.board_cells.specs.Ends.{HasCell, IsUnread, end_seen};
ghost use Rattle.board_handles.specs.BoardEnds as ends;

use board_cell::CellError;
use board_cells::{BoardCells, ReadEnd, WriteEnd};
use board_service::DomainCore;

/// Whether the board and the entry are there, and the entry's values have this many words.
pub(crate) fn has_cell(tables: &DomainCore<BoardCells>, board: u64, entry: u64, words: u64) -> bool
    ensures { result ≡ fits words cell_width (ends.cell_of tables.now board entry) }
{
    match tables.cells(board) {
        Some(cells) => cells.has_cell(entry, words),
        None => false,
    }
}

/// Whether a write end is parked at the entry that publishes values of this many words.
pub(crate) fn has_parked(
    tables: &DomainCore<BoardCells>,
    board: u64,
    entry: u64,
    words: u64,
) -> bool
    ensures { result ≡ fits words end_width (ends.parked_of tables.now board entry) }
{
    match tables.cells(board) {
        Some(cells) => cells.has_parked(entry, words),
        None => false,
    }
}

/// A read end of an entry's cell, where the board and the entry are there.
pub(crate) fn read_end_of(
    tables: &mut DomainCore<BoardCells>,
    board: u64,
    entry: u64,
) -> Result<Option<ReadEnd>, CellError>
    ensures same { tables.new ≡ tables.old }
    ensures cell { IfOk result (λ end. HasCell end (ends.cell_of tables.old board entry)) }
    ensures fresh { IfOk result (λ end. IfSome end (λ e. IsUnread e.pass)) }
{
    match tables.change_cells(board, |cells| cells.read_end(entry)) {
        Some(end) => end,
        None => Ok(None),
    }
}

/// Takes the write end that is parked at an entry, where one is.
pub(crate) fn take_end_of(
    tables: &mut DomainCore<BoardCells>,
    board: u64,
    entry: u64,
) -> Option<WriteEnd>
    ensures end { option_map end_seen result ≡ ends.parked_of tables.old board entry }
    ensures after { tables.new ≡ ends.taken tables.old board entry }
{
    match tables.change_cells(board, |cells| cells.take_write(entry)) {
        Some(end) => end,
        None => None,
    }
}

/// Parks a write end at an entry. It goes where the board is gone, or an end is parked there.
pub(crate) fn park_end_of(
    tables: &mut DomainCore<BoardCells>,
    board: u64,
    entry: u64,
    end: WriteEnd,
)
    ensures { tables.new ≡ ends.parked tables.old board entry (end_seen end) }
{
    let _ = tables.change_cells(board, |cells| cells.park(entry, end));
}
