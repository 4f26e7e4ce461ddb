//! Boards of as few and as many entries as tell whether there is an index.
ghost use Rattle.std.specs.Prelude.{◌≤◌};

use crate::slot::Slot;
use board_concepts::AttributeSet;
use board_index::{BoardParts, BoardRow, EntryRow, KeptType};
use board_layout::{BoardKey, CellPlace, F8, KeyMemory, TypeDetail, TypeVariant};
use board_names::ServiceName;
use std::alloc::Global;
use std::fmt::Debug;
use std::process::Abort;
use std::test::*;

// Fails with both values where they differ.
fn same<T: PartialEq + Debug>(rt: &impl Abort, found: &T, wanted: &T) {
    assert_eq!(rt; *found, *wanted);
}

// The entry of a number under this key.
fn entry_of<K: BoardKey, R: Abort>(rt: &R, alloc: Global, key: &K) -> EntryRow {
    let number = TypeDetail::new::<u64>(TypeVariant::FixedSize);
    EntryRow {
        key: KeyMemory::try_from(key).expect(rt, "a key of at most 64 bytes"),
        value: KeptType::of(alloc, &number).expect(rt, "memory"),
        cell: CellPlace {
            place: 0,
            first: 0,
            head: 2,
            words: 1,
        },
    }
}

// A board with these keys, which says of them whether those that are equal have the same bytes.
fn board_of<K: BoardKey, R: Abort>(
    rt: &R,
    alloc: Global,
    keys: &[K],
    equal_by_bytes: bool,
) -> BoardRow
    requires { K.SIZE ≤ 64 }
{
    let mut entries = Vec::new(alloc);
    for key in keys {
        entries.push(entry_of(rt, alloc, key)).expect(rt, "memory");
    }
    let parts = BoardParts {
        number: 1,
        name: ServiceName::new("board").expect(rt, "a name"),
        key: TypeDetail::new::<K>(TypeVariant::FixedSize),
        equal_by_bytes,
        max_readers: 1,
        max_nodes: 1,
        max_writers: 1,
        attributes: AttributeSet::new(alloc),
        entries,
    };
    BoardRow::of(alloc, parts).expect(rt, "memory")
}

// The place that the board's index gives for the key. `None` where it gives no answer.
fn place_by_bytes<K: BoardKey>(board: &BoardRow, key: &K) -> Option<Option<u64>> {
    if !board.key().is_of::<K>() {
        return None;
    }
    match board.entry_by_bytes::<K>(key) {
        Some(Some((place, _))) => Some(Some(place)),
        Some(None) => Some(None),
        None => None,
    }
}

// The slots of shelf 1.
fn slot(number: u64) -> Slot {
    Slot { shelf: 1, number }
}

// A board of so many entries, under numbers.
fn board_of_numbers<R: Abort>(rt: &R, alloc: Global, count: u64, equal_by_bytes: bool) -> BoardRow {
    let mut keys = Vec::new(alloc);
    for key in 0..count {
        keys.push(key).expect(rt, "memory");
    }
    board_of(rt, alloc, &keys, equal_by_bytes)
}

// A board of so many entries, under the slots of a shelf.
fn board_of_slots<R: Abort>(rt: &R, alloc: Global, count: u64) -> BoardRow {
    let mut keys = Vec::new(alloc);
    for number in 0..count {
        keys.push(slot(number)).expect(rt, "memory");
    }
    board_of(rt, alloc, &keys, Slot::is_equal_by_bytes())
}

#[test]
fn a_board_of_256_numbers_has_an_index(rt: HostRuntime) {
    let board = board_of_numbers(&rt, rt.alloc(), 256, u64::is_equal_by_bytes());
    for (key, place) in [
        (0u64, Some(0)),
        (200, Some(200)),
        (255, Some(255)),
        (256, None),
    ] {
        same(&rt, &place_by_bytes(&board, &key), &Some(place));
    }
}

#[test]
fn a_board_of_256_slots_has_an_index(rt: HostRuntime) {
    let board = board_of_slots(&rt, rt.alloc(), 256);
    for (number, place) in [
        (0, Some(0)),
        (200, Some(200)),
        (255, Some(255)),
        (256, None),
    ] {
        same(&rt, &place_by_bytes(&board, &slot(number)), &Some(place));
    }
    let other = Slot {
        shelf: 0,
        number: 1,
    };
    same(&rt, &place_by_bytes(&board, &other), &Some(None));
}

#[test]
fn boards_of_255_entries_have_no_index(rt: HostRuntime) {
    let numbers = board_of_numbers(&rt, rt.alloc(), 255, true);
    same(&rt, &place_by_bytes(&numbers, &0u64), &None);
    let slots = board_of_slots(&rt, rt.alloc(), 255);
    same(&rt, &place_by_bytes(&slots, &slot(0)), &None);
}

#[test]
fn an_index_gives_no_answer_for_keys_that_are_equal_whatever_their_case(rt: HostRuntime) {
    let keys = [F8 {
        bytes: *b"keyboard",
    }; 256];
    let board = board_of(&rt, rt.alloc(), &keys, F8::is_equal_by_bytes());
    same(&rt, &place_by_bytes(&board, &keys[0]), &None);
}

#[test]
fn a_board_has_no_index_where_equal_keys_may_differ_in_their_bytes(rt: HostRuntime) {
    let board = board_of_numbers(&rt, rt.alloc(), 256, false);
    same(&rt, &place_by_bytes(&board, &0u64), &None);
}
