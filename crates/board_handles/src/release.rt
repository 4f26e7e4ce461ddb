//! How things are given up.
ghost use Rattle.std.specs.Prelude.{◌≡◌};
ghost use Rattle.board_layout.specs.Bytes.{details};
ghost use Rattle.board_cells.specs.Ends.{end_seen};
ghost use Rattle.board_handles.specs.LentForms as lent;

use crate::board_ends::park_end_of;
use board_cells::{BoardCells, WriteEnd};
use board_layout::BoardKey;
use board_service::{DomainCore, Found, ThingId, ThingKind};

/// Ends a thing, where it is held as this kind, by a board whose keys are `K`s. Takes no memory.
pub fn give_up<K: BoardKey>(tables: &mut DomainCore<BoardCells>, thing: ThingId, kind: ThingKind)
    ensures { let keys = details K.type_bytes K.SIZE K.ALIGNMENT in
        tables.new ≡ lent.given_up tables.old keys thing kind }
{
    if tables.is_held::<K>(thing, kind) {
        let _ = tables.release(thing);
    }
}

/// Ends the thing of a write handle, where it is held, and parks its end at the entry. The end goes where the board is gone or an end is parked there.
pub(crate) fn give_up_writing<K: BoardKey>(
    tables: &mut DomainCore<BoardCells>,
    found: Found,
    end: WriteEnd,
)
    ensures { let keys = details K.type_bytes K.SIZE K.ALIGNMENT in
        tables.new
        ≡ lent.write_given_up tables.old keys record { found = found; held = end_seen end } }
{
    if !tables.is_held::<K>(found.thing, ThingKind::WriteHandle) {
        return;
    }
    let board = tables.board_of(found.thing);
    let _ = tables.release(found.thing);
    park_end_of(tables, board, found.entry, end);
}
