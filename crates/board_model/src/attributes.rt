//! The attributes of a board, and what an opener needs of them.
use crate::lists::{AttributeKeys, Attributes};
use board_layout::Text;

/// An attribute: 1 to 64 bytes of key, and 1 to 256 of value.
#[derive(Clone, Copy, Debug, PartialEq, Eq)]
pub struct Attribute {
    /// The key.
    pub key: Text<64>,
    /// The value.
    pub value: Text<256>,
}

/// What an opener needs of a board's attributes: these pairs, and these keys with any value.
#[derive(Drop, Debug)]
pub struct Requirements {
    /// Attributes that the board is to have.
    pub pairs: Attributes,
    /// Keys of which it is to have some attribute.
    pub keys: AttributeKeys,
}
