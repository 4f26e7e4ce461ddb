//! The name of a file.
ghost use Rattle.std.specs.Prelude.{◌≡◌, ℕ, ◌+◌, ◌-◌, ◌<◌, ◌≤◌, ◌↔◌, List, [], ◌∷◌, length, IsTrue, Ok, IfOk, IsErrOf};
ghost use Rattle.board_names.specs.Names.{FitsAndBreaks, IsFileName};
ghost use Rattle.board_names.specs.declared.errors.concept.SemanticStringError.TheVariants.{ExceedsMaximumLength, InvalidContent};

use crate::byte_rules::is_file_name;
use crate::errors::concept::SemanticStringError;
use board_layout::Text;
use std::marker::Model;

/// The name of a file: 1 to 255 bytes 0x20 to 0x7E without `/` and `\`, not `.` and not `..`.
///
/// Clauses see it as the list of its bytes. Which bytes are allowed is this project's own rule.
#[derive(Clone, Copy, Debug, PartialEq, Eq, PartialOrd, Ord)]
pub struct FileName {
    text: Text<255>,
}

impl Model for FileName {
    ghost use Rattle.std.specs.Prelude.{ℕ, List};
    ghost use Rattle.board_names.specs.Names.{IsFileName};

    ghost Value = { List ℕ };

    ghost view = { λ s. s.text };

    ghost invariant = { λ s. IsFileName s.text };

    ghost inverse = { λ d. record { text = d } };
}

impl FileName {
    /// The name of these bytes.
    ///
    /// # Errors
    /// `ExceedsMaximumLength` where there are more than 255; else `InvalidContent` where they break the rule.
    pub fn new(value: &[u8]) -> Result<FileName, SemanticStringError>
        ensures long { IsErrOf result ExceedsMaximumLength ↔ (255 < length value.now) }
        ensures content { IsErrOf result InvalidContent ↔ FitsAndBreaks 255 IsFileName value.now }
        ensures accepted { IsFileName value.now → result ≡ Ok value.now }
        ensures ok { IfOk result (λ n. (n ≡ value.now) × IsFileName value.now) }
    {
        if value.len() > 255 {
            return Err(SemanticStringError::ExceedsMaximumLength);
        }
        if !is_file_name(value) {
            return Err(SemanticStringError::InvalidContent);
        }
        Ok(FileName {
            text: Text::of(value),
        })
    }

    /// The name of bytes that are known to meet its rule.
    pub fn from_valid(value: &[u8]) -> FileName
        requires { IsFileName value.now }
        ensures { result ≡ value.now }
    {
        FileName {
            text: Text::of(value),
        }
    }

    /// Its bytes.
    pub fn as_bytes(&self) -> &[u8]
        ensures value { result.now ≡ self.now }
        ensures rule { IsFileName self.now }
        ensures fits { length result.now ≤ 255 }
    {
        self.text.as_bytes()
    }
}
