//! Where the entries with given keys stand.
ghost use Rattle.std.specs.Prelude.{◌≡◌, ◌≤◌, ◌<◌, length, option_map, take, IfOk, IfSome};
ghost use Rattle.board_index.specs.Boards.{called};
ghost use Rattle.board_index.specs.KeyPlaces.{AreKeyPlaces, has_bytes};
ghost use Rattle.board_layout.specs.Keys as keys;
ghost use Rattle.board_model.specs.Tables as tables;

use crate::entry_row::EntryRow;
use board_layout::{BoardKey, KeyMemory};
use std::alloc::{AllocError, Global};
use std::collections::HashMap;

// With as many entries or more, a board has an index of its keys. With fewer, they are compared one after another, which takes at most some half longer.
const MANY: usize = 256;

// A key's bytes are bytes, as callers that find one by them need to know.
fn are_bytes(bytes: [u8; 64])
    ensures { keys.IsKeyBytes bytes }
{}

// The bytes of a key of this size.
fn bytes_of(key: &KeyMemory<64>, size: usize) -> &[u8]
    requires { size ≤ 64 }
    ensures front { result.now ≡ take size key.now.bytes }
    ensures bytes { keys.IsKeyBytes key.now.bytes }
{
    are_bytes(key.bytes);
    &key.bytes[..size]
}

// The place of the first entry with each key, by the bytes of the key.
fn places_of(
    alloc: Global,
    size: usize,
    entries: &[EntryRow],
) -> Result<HashMap<Vec<u8>, u64>, AllocError>
    requires { size ≤ 64 }
    ensures { IfOk result (λ places. AreKeyPlaces size 0 entries.now (called places)) }
{
    let mut places = HashMap::with_capacity(alloc, entries.len())?;
    let mut left = entries;
    while let Some((last, before)) = left.split_last() {
        let bytes = Vec::from_slice(alloc, bytes_of(&last.key, size))?;
        // Over the place of an entry behind that has the same bytes.
        let Ok(_) = places.insert(bytes, before.len() as u64) else {
            return Err(AllocError);
        };
        left = before;
    }
    Ok(places)
}

/// The places of the entries' keys, where these are many and equal by their bytes. `None` where there is no memory for them.
pub(crate) fn places_for(
    alloc: Global,
    equal_by_bytes: bool,
    size: usize,
    entries: &[EntryRow],
) -> Option<HashMap<Vec<u8>, u64>>
    requires { size ≤ 64 }
    ensures { IfSome result (λ places. AreKeyPlaces size 0 entries.now (called places)) }
{
    if !equal_by_bytes || entries.len() < MANY {
        return None;
    }
    match places_of(alloc, size, entries) {
        Ok(places) => Some(places),
        Err(_) => None,
    }
}

// The first entry whose key has the same bytes, with its place.
fn first_of_bytes<'a>(
    key: &KeyMemory<64>,
    size: usize,
    places: &HashMap<Vec<u8>, u64>,
    entries: &'a [EntryRow],
) -> Option<(u64, &'a EntryRow)>
    requires size { size ≤ 64 }
    requires places { AreKeyPlaces size 0 entries.now (called places.now) }
    ensures found { option_map (λ f. (f.0, f.1.now)) result
        ≡ tables.entry_from 0 (has_bytes size key.now.bytes) entries.now }
    ensures inside { IfSome result (λ f. f.0 < length entries.now) }
    ensures bytes { keys.IsKeyBytes key.now.bytes }
{
    match places.get(bytes_of(key, size)) {
        Some(place) => match entries.get(*place as usize) {
            Some(entry) => Some((*place, entry)),
            None => None,
        },
        None => None,
    }
}

/// The first entry with the key, with its place, by the places of the entries' keys. `None` where keys of the type may be equal and have other bytes.
pub(crate) fn entry_in<'a, K: BoardKey>(
    key: &K,
    places: &HashMap<Vec<u8>, u64>,
    entries: &'a [EntryRow],
) -> Option<Option<(u64, &'a EntryRow)>>
    requires size { K.SIZE ≤ 64 }
    requires places { AreKeyPlaces K.SIZE 0 entries.now (called places.now) }
    ensures found { IfSome result (λ found. option_map (λ f. (f.0, f.1.now)) found
        ≡ tables.entry_from 0 (keys.is_key K.eq K.value_of K.SIZE K.WORDS key.now) entries.now) }
    ensures inside { IfSome result (λ found. IfSome found (λ f. f.0 < length entries.now)) }
{
    if !K::is_equal_by_bytes() {
        return None;
    }
    match KeyMemory::<64>::try_from(key) {
        Ok(memory) => Some(first_of_bytes(&memory, K::SIZE, places, entries)),
        Err(_) => None,
    }
}
