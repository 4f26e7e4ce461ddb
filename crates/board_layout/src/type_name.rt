//! The name of a type, as it is told to others.
ghost use Rattle.std.specs.Prelude.{◌≡◌, ℕ, ◌≤◌, List, length, IsTrue, IsNone, IfSome, Some, ◌↔◌};
ghost use Rattle.std.specs.List.{list_all};
ghost use Rattle.board_layout.specs.Types.{is_printable, IsTypeName};

use crate::text::Text;
use std::marker::Model;

/// The most bytes of a type's name.
pub const MAX_TYPE_NAME_LENGTH: usize = 256;

/// 1 to 256 bytes from 0x20 to 0x7E.
#[derive(Clone, Copy, Debug, PartialEq, Eq, PartialOrd, Ord, Hash)]
pub struct TypeName {
    text: Text<256>,
}

impl Model for TypeName {
    ghost use Rattle.std.specs.Prelude.{ℕ, List};
    ghost use Rattle.board_layout.specs.Types.{IsTypeName};

    ghost Value = { List ℕ };

    ghost view = { λ s. s.text };

    ghost invariant = { λ s. IsTypeName s.text };

    ghost inverse = { λ d. record { text = d } };
}

// Whether each byte is one of a type's name.
fn is_printed(bytes: &[u8]) -> bool
    ensures { result ≡ list_all is_printable bytes.now }
{
    bytes.iter().all(|byte| (32..=126).contains(byte))
}

impl TypeName {
    // The name of bytes that are one.
    pub(crate) fn of(bytes: &[u8]) -> TypeName
        requires { IsTypeName bytes.now }
        ensures { result ≡ bytes.now }
    {
        TypeName {
            text: Text::of(bytes),
        }
    }

    /// The name of these bytes, where they are one.
    pub fn new(bytes: &[u8]) -> Option<TypeName>
        ensures none { IsNone result ↔ (¬ IsTypeName bytes.now) }
        ensures accepted { IsTypeName bytes.now → result ≡ Some bytes.now }
        ensures some { IfSome result (λ n. n ≡ bytes.now) }
        ensures is_name { IfSome result (λ n. IsTypeName n) }
    {
        if bytes.is_empty() || bytes.len() > MAX_TYPE_NAME_LENGTH {
            return None;
        }
        if !is_printed(bytes) {
            return None;
        }
        Some(TypeName::of(bytes))
    }

    /// The bytes.
    pub fn as_bytes(&self) -> &[u8]
        ensures value { result.now ≡ self.now }
        ensures is_name { IsTypeName result.now }
    {
        self.text.as_bytes()
    }
}
