//! Keys of a board: which are equal, and which entry one finds.
ghost use Rattle.std.specs.Prelude.{◌≡◌, map};
ghost use Rattle.board_model.specs.Replies.{added_of, keeps_key};
ghost use Rattle.board_model.specs.Tables as tables;
ghost use Rattle.board_model.specs.TypeTable as types;
ghost use Rattle.script_board_rows.specs.Found.{IsPlace};

use board_layout::TypeDetail;
use board_model::{AddedEntry, Entry, Key, KeyType, key_bytes, same_type, type_of_key};

// Whether two kept keys are equal as keys of this type.
fn is_same(key_type: KeyType, a: &[u8], b: &[u8]) -> bool
    ensures { result ≡ types.same_key key_type a.now b.now }
{
    match key_type {
        KeyType::U64 => a == b,
        KeyType::F8 => a.eq_ignore_ascii_case(b),
    }
}

// Whether one of the entries has a key that is equal to this one.
fn has_key(key_type: KeyType, key: &Key, entries: &[AddedEntry]) -> bool
    ensures { result ≡ tables.has_key (types.same_key key_type) (types.key_bytes key.now)
        (map added_of entries.now) }
{
    let bytes = key_bytes(key).bytes;
    for entry in entries {
        if is_same(key_type, &key_bytes(&entry.key).bytes, &bytes) {
            return true;
        }
    }
    false
}

/// Whether two of the added entries have equal keys.
pub fn has_equal_keys(key_type: KeyType, entries: &[AddedEntry]) -> bool
    ensures { result ≡ tables.has_equal_keys (types.same_key key_type)
        (map added_of entries.now) }
{
    for (i, entry) in entries.iter().enumerate() {
        if has_key(key_type, &entry.key, &entries[i + 1..]) {
            return true;
        }
    }
    false
}

/// The place of the first entry with this key, where its values are of this type.
pub fn find(key: &Key, value: &TypeDetail, entries: &[Entry]) -> Option<usize>
    ensures { IsPlace (tables.of_type value.now
        (tables.entry_from 0 (keeps_key key.now) entries.now)) result }
{
    let key_type = type_of_key(key);
    let bytes = key_bytes(key).bytes;
    for (i, entry) in entries.iter().enumerate() {
        if is_same(key_type, &entry.key.bytes, &bytes) {
            if same_type(&entry.value, value) {
                return Some(i);
            }
            return None;
        }
    }
    None
}
