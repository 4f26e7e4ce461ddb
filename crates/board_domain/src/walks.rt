//! How a callback walks over nodes and keys.
ghost use Rattle.std.specs.Prelude.{◌≡◌, ◌≤◌, map};
ghost use Rattle.std.specs.Fn.{CalledAt};
ghost use Rattle.board_model.specs.Tables.{board_at};
ghost use Rattle.board_service.specs.Told.{node_in};
ghost use Rattle.board_domain.specs.Walks.{WalksTo, at_places, key_seen};

use crate::callback_progression::CallbackProgression;
use board_handles::BoardCells;
use board_layout::{BoardKey, key_of};
use board_service::{DomainCore, EntryRow, NodeId};

/// Calls a callback with the first so many nodes of a board, ascending, until it says to stop.
pub(crate) fn visit_nodes<F: FnMut(NodeId) -> CallbackProgression>(
    tables: &DomainCore<BoardCells>,
    board: u64,
    count: u64,
    callback: &mut F,
)
    requires { F.IsAlwaysCallable callback.old }
    ensures { let d = tables.now.tables in
        let nodes = at_places (λ i. node_in i d.things (board_at d board)) count 0 in
        WalksTo (λ f x r g. F.step f x r g) callback.old nodes callback.new }
{
    let mut place = 0;
    while place < count {
        if let Some(node) = tables.node_at(board, place) {
            match callback(node) {
                CallbackProgression::Continue => {}
                CallbackProgression::Stop => return,
            }
        }
        place += 1;
    }
}

/// Calls a callback with the keys of these entries, in their order, until it says to stop.
pub(crate) fn visit_keys<K: BoardKey, F: FnMut(&K) -> CallbackProgression>(
    entries: &[EntryRow],
    callback: &mut F,
)
    requires size { K.SIZE ≤ 64 }
    requires calls { F.IsAlwaysCallable callback.old }
    ensures { let keys = map (key_seen K.value_of K.SIZE K.WORDS) entries.now in
        WalksTo (CalledAt F.FnMut) callback.old keys callback.new }
{
    let mut rest = entries;
    while let Some((entry, tail)) = rest.split_first() {
        let key = key_of::<K>(&entry.key);
        match callback(&key) {
            CallbackProgression::Continue => {}
            CallbackProgression::Stop => return,
        }
        rest = tail;
    }
}
