//! The path of a folder.
ghost use Rattle.std.specs.Prelude.{◌≡◌, ℕ, ◌+◌, ◌-◌, ◌<◌, ◌≤◌, ◌↔◌, List, [], ◌∷◌, length, IsTrue, Ok, IfOk, IsErrOf};
ghost use Rattle.board_names.specs.Names.{FitsAndBreaks, IsPath};
ghost use Rattle.board_names.specs.declared.errors.concept.SemanticStringError.TheVariants.{ExceedsMaximumLength, InvalidContent};

use crate::byte_rules::is_path;
use crate::errors::concept::SemanticStringError;
use board_layout::Text;
use std::marker::Model;

/// The path of a folder: 1 to 255 bytes 0x20 to 0x7E without `\`.
///
/// Clauses see it as the list of its bytes. Which bytes are allowed is this project's own rule.
#[derive(Clone, Copy, Debug, PartialEq, Eq, PartialOrd, Ord)]
pub struct Path {
    text: Text<255>,
}

impl Model for Path {
    ghost use Rattle.std.specs.Prelude.{ℕ, List};
    ghost use Rattle.board_names.specs.Names.{IsPath};

    ghost Value = { List ℕ };

    ghost view = { λ s. s.text };

    ghost invariant = { λ s. IsPath s.text };

    ghost inverse = { λ d. record { text = d } };
}

impl Path {
    /// The path of these bytes.
    ///
    /// # Errors
    /// `ExceedsMaximumLength` where there are more than 255; else `InvalidContent` where they break the rule.
    pub fn new(value: &[u8]) -> Result<Path, SemanticStringError>
        ensures long { IsErrOf result ExceedsMaximumLength ↔ (255 < length value.now) }
        ensures content { IsErrOf result InvalidContent ↔ FitsAndBreaks 255 IsPath value.now }
        ensures accepted { IsPath value.now → result ≡ Ok value.now }
        ensures ok { IfOk result (λ n. (n ≡ value.now) × IsPath value.now) }
    {
        if value.len() > 255 {
            return Err(SemanticStringError::ExceedsMaximumLength);
        }
        if !is_path(value) {
            return Err(SemanticStringError::InvalidContent);
        }
        Ok(Path {
            text: Text::of(value),
        })
    }

    /// The path of bytes that are known to meet its rule.
    pub fn from_valid(value: &[u8]) -> Path
        requires { IsPath value.now }
        ensures { result ≡ value.now }
    {
        Path {
            text: Text::of(value),
        }
    }

    /// Its bytes.
    pub fn as_bytes(&self) -> &[u8]
        ensures value { result.now ≡ self.now }
        ensures rule { IsPath self.now }
        ensures fits { length result.now ≤ 255 }
    {
        self.text.as_bytes()
    }
}
