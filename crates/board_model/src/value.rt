//! Keys, values and their types, as they stand in a line.
use board_layout::Text;

/// The type of a board's keys.
#[derive(Clone, Copy, Debug, PartialEq, Eq)]
pub enum KeyType {
    /// Numbers below 2^64.
    U64,
    /// 1 to 8 bytes, which are equal up to ASCII case.
    F8,
}

/// The type of an entry's values.
#[derive(Clone, Copy, Debug, PartialEq, Eq)]
pub enum ValueType {
    /// Truth values.
    Bool,
    /// Numbers below 2^64.
    U64,
    /// Four words.
    Q4,
}

/// A key.
#[derive(Clone, Copy, Debug, PartialEq, Eq)]
pub enum Key {
    /// A number.
    U64(u64),
    /// A short text.
    F8(Text<8>),
}

/// A value.
#[derive(Clone, Copy, Debug, PartialEq, Eq)]
pub enum Value {
    /// A truth value.
    Bool(bool),
    /// A number.
    U64(u64),
    /// Four numbers.
    Q4(u64, u64, u64, u64),
}

/// A key and the value that stands under it at first.
#[derive(Clone, Copy, Debug, PartialEq, Eq)]
pub struct AddedEntry {
    /// The key.
    pub key: Key,
    /// The first value.
    pub value: Value,
}
