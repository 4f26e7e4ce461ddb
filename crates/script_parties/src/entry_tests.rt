//! What is tested of the entries that a new board is to have. Nothing here needs memory.
ghost use Rattle.std.specs.Prelude.{ℕ, ◌≡◌, ◌+◌, ◌-◌, ◌<◌, ◌≤◌, ◌^◌, nat_lt, map, Bool, List, IfSome};
ghost use Rattle.board_layout.specs.Keys as keys;
ghost use Rattle.board_layout.specs.Layout.{cell_alignment, cell_bytes, payload};
ghost use Rattle.board_model.specs.Replies.{added_of};
ghost use Rattle.board_model.specs.Tables as tables;
ghost use Rattle.board_model.specs.TypeTable as types;
ghost use Rattle.script_parties.specs.Keyed.{AgreeOnPairs};
ghost use Rattle.script_parties.specs.Refusals.{added};

use board_layout::{BoardKey, F8, key_of, same_keys};
use board_model::{AddedEntry, Key, KeyType, Value, key_bytes};
use std::alloc::Global;
use std::collections::HashSet;

// With as many entries or more, equal keys are looked for by their hashes. With fewer, each compared with each is as fast.
const MANY: usize = 16;

// The most bytes that a board may ask for.
const MAX_PAYLOAD: u64 = 4294967295;

// Whether two keys are equal as keys of this type.
fn is_same_key(key_type: KeyType, a: &Key, b: &Key) -> bool
    ensures { result ≡ types.same_key key_type (types.key_bytes a.now) (types.key_bytes b.now) }
{
    let a = key_bytes(a);
    let b = key_bytes(b);
    match key_type {
        KeyType::U64 => same_keys::<u64>(&a, &b),
        KeyType::F8 => same_keys::<F8>(&a, &b),
    }
}

fn has_key(key_type: KeyType, key: &Key, entries: &[AddedEntry]) -> bool
    ensures { result ≡ tables.has_key (types.same_key key_type) (types.key_bytes key.now)
        (added entries.now) }
{
    for entry in entries {
        if is_same_key(key_type, &entry.key, key) {
            return true;
        }
    }
    false
}

// Whether two of the keys are equal, by a test that is that of the type on short keys, as all these are: found by their hashes. `None` where there is no memory for these.
fn has_equal_hashed<K: BoardKey>(alloc: Global, entries: &[AddedEntry]) -> Option<bool>
    requires { K.SIZE ≤ 64 }
    ensures { (same : List ℕ → List ℕ → Bool)
        → AgreeOnPairs (keys.same_keys K.eq K.value_of K.SIZE K.WORDS) same
        → IfSome result (λ equal. equal ≡ tables.has_equal_keys same (added entries.now)) }
{
    let mut met: HashSet<K> = HashSet::new(alloc);
    let mut left = entries;
    while let Some((last, before)) = left.split_last() {
        match met.insert(key_of::<K>(&key_bytes(&last.key))) {
            Ok(true) => left = before,
            Ok(false) => return Some(true),
            Err(_) => return None,
        }
    }
    Some(false)
}

// Whether two of the keys are equal, each compared with each.
fn has_equal_compared(key_type: KeyType, entries: &[AddedEntry]) -> bool
    ensures { result ≡ tables.has_equal_keys (types.same_key key_type) (added entries.now) }
{
    for (i, entry) in entries.iter().enumerate() {
        if has_key(key_type, &entry.key, &entries[i + 1..]) {
            return true;
        }
    }
    false
}

// The same by hashes, of keys of this type.
fn has_equal_typed(alloc: Global, key_type: KeyType, entries: &[AddedEntry]) -> Option<bool>
    ensures { IfSome result (λ equal. equal
        ≡ tables.has_equal_keys (types.same_key key_type) (added entries.now)) }
{
    match key_type {
        KeyType::U64 => has_equal_hashed::<u64>(alloc, entries),
        KeyType::F8 => has_equal_hashed::<F8>(alloc, entries),
    }
}

/// Whether two of the entries have equal keys.
pub(crate) fn has_equal_keys(alloc: Global, key_type: KeyType, entries: &[AddedEntry]) -> bool
    ensures { result ≡ tables.has_equal_keys (types.same_key key_type) (added entries.now) }
{
    if entries.len() >= MANY {
        if let Some(equal) = has_equal_typed(alloc, key_type, entries) {
            return equal;
        }
    }
    has_equal_compared(key_type, entries)
}

// The bytes that an entry asks for: those of its cell, and what may lie unused before it.
fn bytes_for(entry: &AddedEntry) -> u64
    ensures value { result ≡ cell_bytes (tables.shape_of (added_of entry.now))
        + (cell_alignment (tables.shape_of (added_of entry.now)) - 1) }
    ensures bound { result < 2 ^ 7 }
{
    match entry.value {
        Value::Bool(_) => 39,
        Value::U64(_) => 39,
        Value::Q4(..) => 87,
    }
}

/// Whether the cells of the entries ask for more bytes than a board may.
pub(crate) fn is_too_large(entries: &[AddedEntry]) -> bool
    ensures { result ≡ nat_lt 4294967295 (payload (tables.shapes_of (added entries.now))) }
{
    let mut payload = 0;
    for entry in entries {
        payload += bytes_for(entry);
        if payload > MAX_PAYLOAD {
            return true;
        }
    }
    false
}
