//! What stands in the tables.
ghost use Rattle.std.specs.Prelude.{◌≡◌, ◌≤◌, ◌<◌, length, option_map, find, Some, IfSome, nat_le, true};
ghost use Rattle.board_layout.specs.Bytes.{details};
ghost use Rattle.board_layout.specs.Keys as keys;
ghost use Rattle.board_model.specs.Tables as tables;
ghost use Rattle.board_model.specs.TypeTable as types;
ghost use Rattle.board_service.specs.Facts.{entry_count};

use board_index::{BoardRow, Boards, EntryRow};
use board_layout::{BoardKey, TypeDetail, is_key};
use board_things::Things;

/// Whether the board has as many readers as it may have.
pub(crate) fn has_all_readers<C>(board: u64, boards: &Boards<C>, things: &Things) -> bool
    ensures { result ≡ tables.holds_at (find (tables.is_numbered board) boards.now.boards)
        (λ b. nat_le b.max_readers (tables.reader_slots b.number things.now.things)) }
{
    match boards.at(board) {
        Some(b) => b.max_readers() <= things.reader_slots(b.number()),
        None => false,
    }
}

/// Whether as many writer slots of the board are taken as it has.
pub(crate) fn has_all_writers<C>(board: u64, boards: &Boards<C>, things: &Things) -> bool
    ensures { result ≡ tables.holds_at (find (tables.is_numbered board) boards.now.boards)
        (λ b. nat_le b.max_writers (tables.writer_slots b.number things.now.things)) }
{
    match boards.at(board) {
        Some(b) => b.max_writers() <= things.writer_slots(b.number()),
        None => false,
    }
}

/// Whether the board has keys of this type.
pub(crate) fn has_details<C>(board: u64, key: &TypeDetail, boards: &Boards<C>) -> bool
    ensures { result ≡ tables.holds_at (find (tables.is_numbered board) boards.now.boards)
        (λ b. types.same_type b.key key.now) }
{
    match boards.at(board) {
        Some(b) => b.key().is(key),
        None => false,
    }
}

fn entry_from<'a, K: BoardKey>(key: &K, entries: &'a [EntryRow]) -> Option<(u64, &'a EntryRow)>
    requires { K.SIZE ≤ 64 }
    ensures found { option_map (λ f. (f.0, f.1.now)) result
        ≡ tables.entry_from 0 (keys.is_key K.eq K.value_of K.SIZE K.WORDS key.now) entries.now }
    ensures inside { IfSome result (λ f. f.0 < length entries.now) }
{
    for (i, entry) in entries.iter().enumerate() {
        if is_key::<K>(key, &entry.key) {
            return Some((i as u64, entry));
        }
    }
    None
}

fn of_type<'a>(
    value: &TypeDetail,
    found: Option<(u64, &'a EntryRow)>,
) -> Option<(u64, &'a EntryRow)>
    ensures same { option_map (λ f. (f.0, f.1.now)) result
        ≡ tables.of_type value.now (option_map (λ f. (f.0, f.1.now)) found.entry) }
    ensures one { IfSome result (λ f. found.entry ≡ Some f) }
{
    match found {
        Some((place, entry)) => {
            if entry.value.is(value) {
                Some((place, entry))
            } else {
                None
            }
        }
        None => None,
    }
}

/// The entry of a board with the key and the type of values, with its place. The board's keys are of the key's type.
pub(crate) fn find_entry<'a, K: BoardKey, C>(
    number: u64,
    key: &K,
    value: &TypeDetail,
    boards: &'a Boards<C>,
) -> Option<(u64, &'a EntryRow)>
    requires { tables.holds_at (find (tables.is_numbered number) boards.now.boards)
        (λ b. types.same_type b.key (details K.type_bytes K.SIZE K.ALIGNMENT)) ≡ true }
    ensures found { option_map (λ f. (f.0, f.1.now)) result
        ≡ tables.entry_found (find (tables.is_numbered number) boards.now.boards)
        (keys.is_key K.eq K.value_of K.SIZE K.WORDS key.now) value.now }
    ensures inside { IfSome result
        (λ f. f.0 < entry_count (find (tables.is_numbered number) boards.now.boards)) }
{
    match boards.at(number) {
        Some(board) => of_type(value, entry_with::<K>(key, board)),
        None => None,
    }
}

// The entry of a board with the key, with its place.
fn entry_with<'a, K: BoardKey>(key: &K, board: &'a BoardRow) -> Option<(u64, &'a EntryRow)>
    requires { types.same_type board.now.key (details K.type_bytes K.SIZE K.ALIGNMENT) ≡ true }
    ensures found { option_map (λ f. (f.0, f.1.now)) result
        ≡ tables.entry_from 0 (keys.is_key K.eq K.value_of K.SIZE K.WORDS key.now)
        board.now.entries }
    ensures inside { IfSome result (λ f. f.0 < length board.now.entries) }
{
    match board.entry_by_bytes::<K>(key) {
        Some(found) => found,
        None => entry_from::<K>(key, board.entries()),
    }
}
