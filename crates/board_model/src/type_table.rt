//! The key types and value types of a script: their details, the words of a value, and the bytes of a key.
ghost use Rattle.std.specs.Prelude.{◌≡◌, ◌≤◌, ◌++◌, ◌∷◌, [], IfOk, length, take};
ghost use Rattle.std.specs.List.{list_all};
ghost use Rattle.board_layout.specs.Bytes.{padded};
ghost use Rattle.board_model.specs.LawfulSession.{has_key_type};
ghost use Rattle.board_model.specs.ShortKeys.{IsShortKey};
ghost use Rattle.board_model.specs.TypeTable as types;

use crate::value::{AddedEntry, Key, KeyType, Value, ValueType};
use board_layout::{F8, KeyMemory, Text, TypeDetail, TypeVariant};
use std::alloc::{AllocError, Global};

/// Whether both are of fixed size, or both are not.
pub fn same_variant(a: TypeVariant, b: TypeVariant) -> bool
    ensures { result ≡ types.same_variant a b }
{
    match (a, b) {
        (TypeVariant::FixedSize, TypeVariant::FixedSize) => true,
        (TypeVariant::Dynamic, TypeVariant::Dynamic) => true,
        _ => false,
    }
}

/// Whether these are the details of one type.
pub fn same_type(a: &TypeDetail, b: &TypeDetail) -> bool
    ensures { result ≡ types.same_type a.now b.now }
{
    same_variant(a.variant, b.variant)
        && a.type_name == b.type_name
        && a.size == b.size
        && a.alignment == b.alignment
}

/// The details of a value type.
pub fn value_detail(value_type: ValueType) -> TypeDetail
    ensures { result ≡ types.value_detail value_type }
{
    match value_type {
        ValueType::Bool => TypeDetail::new::<bool>(TypeVariant::FixedSize),
        ValueType::U64 => TypeDetail::new::<u64>(TypeVariant::FixedSize),
        ValueType::Q4 => TypeDetail::new::<[u64; 4]>(TypeVariant::FixedSize),
    }
}

/// The value type with these details.
pub fn value_type_of(detail: &TypeDetail) -> ValueType
    ensures { result ≡ types.value_type_of detail.now }
{
    if same_type(detail, &value_detail(ValueType::Bool)) {
        ValueType::Bool
    } else if same_type(detail, &value_detail(ValueType::U64)) {
        ValueType::U64
    } else {
        ValueType::Q4
    }
}

/// The type of a value.
pub fn type_of(value: Value) -> ValueType
    ensures { result ≡ types.type_of value }
{
    match value {
        Value::Bool(_) => ValueType::Bool,
        Value::U64(_) => ValueType::U64,
        Value::Q4(..) => ValueType::Q4,
    }
}

/// The words of a value.
pub fn value_words(alloc: Global, value: Value) -> Result<Vec<u64>, AllocError>
    ensures { IfOk result (λ v. v.items ≡ types.value_words value) }
{
    match value {
        Value::Bool(is) => Vec::from_slice(alloc, &[u64::from(is)]),
        Value::U64(n) => Vec::from_slice(alloc, &[n]),
        Value::Q4(a, b, c, d) => Vec::from_slice(alloc, &[a, b, c, d]),
    }
}

/// The details of a key type.
pub fn key_detail(key_type: KeyType) -> TypeDetail
    ensures { result ≡ types.key_detail key_type }
{
    match key_type {
        KeyType::U64 => TypeDetail::new::<u64>(TypeVariant::FixedSize),
        KeyType::F8 => TypeDetail::new::<F8>(TypeVariant::FixedSize),
    }
}

/// The type of a key.
pub fn type_of_key(key: &Key) -> KeyType
    ensures { result ≡ types.type_of_key key.now }
{
    match key {
        Key::U64(_) => KeyType::U64,
        Key::F8(_) => KeyType::F8,
    }
}

/// Whether two key types are the same.
pub fn same_key_type(a: KeyType, b: KeyType) -> bool
    ensures { result ≡ types.same_key_type a b }
{
    match (a, b) {
        (KeyType::U64, KeyType::U64) => true,
        (KeyType::F8, KeyType::F8) => true,
        _ => false,
    }
}

/// Whether the keys of all entries are of this type.
pub fn have_key_type(key_type: KeyType, entries: &[AddedEntry]) -> bool
    ensures { result ≡ list_all (has_key_type key_type) entries.now }
{
    entries
        .iter()
        .all(|entry| same_key_type(type_of_key(&entry.key), key_type))
}

// The bytes with zeros behind them.
fn key_memory(bytes: &[u8]) -> KeyMemory<64>
    requires { length bytes.now ≤ 64 }
    ensures { result.bytes ≡ padded 64 bytes.now }
{
    let mut memory = [0; 64];
    let len = bytes.len();
    memory[..len].copy_from_slice(bytes);
    KeyMemory { bytes: memory }
}

// The eight bytes of a word, the low one first.
fn word_bytes(n: u64) -> [u8; 8]
    ensures { result ≡ types.word_bytes n }
{
    [
        (n % 256) as u8,
        (n / 256 % 256) as u8,
        (n / 65536 % 256) as u8,
        (n / 16777216 % 256) as u8,
        (n / 4294967296 % 256) as u8,
        (n / 1099511627776 % 256) as u8,
        (n / 281474976710656 % 256) as u8,
        (n / 72057594037927936 % 256) as u8,
    ]
}

/// The bytes of a key as an entry keeps them.
pub fn key_bytes(key: &Key) -> KeyMemory<64>
    ensures bytes { result.bytes ≡ types.key_bytes key.now }
    ensures short { IsShortKey result.bytes }
{
    match key {
        Key::U64(n) => key_memory(&word_bytes(*n)),
        Key::F8(text) => {
            let bytes = text.as_bytes();
            key_memory(bytes)
        }
    }
}

// The bytes before the first zero.
fn up_to_zero(bytes: &[u8]) -> Text<8>
    requires { length bytes.now ≤ 8 }
    ensures { result ≡ types.up_to_zero bytes.now }
{
    for (i, byte) in bytes.iter().enumerate() {
        if *byte == 0 {
            return Text::of(&bytes[..i]);
        }
    }
    Text::of(bytes)
}

/// The key that an entry keeps in its first eight bytes.
pub fn key_of(key_type: KeyType, key: &KeyMemory<64>) -> Key
    ensures { result ≡ types.key_of key_type (take 8 key.now.bytes) }
{
    match key_type {
        KeyType::U64 => Key::U64(board_layout::key_of::<u64>(key)),
        KeyType::F8 => Key::F8(up_to_zero(&key.bytes[..8])),
    }
}

/// The key type with these details.
pub fn key_type_of(detail: &TypeDetail) -> KeyType
    ensures { result ≡ types.key_type_of detail.now }
{
    if same_type(detail, &key_detail(KeyType::U64)) {
        KeyType::U64
    } else {
        KeyType::F8
    }
}
