//! A text of letters, digits, `-` and `_`.
ghost use Rattle.std.specs.Prelude.{◌≡◌, ℕ, ◌+◌, ◌-◌, ◌<◌, ◌≤◌, ◌↔◌, List, [], ◌∷◌, length, IsTrue, Ok, IfOk, IsErrOf};
ghost use Rattle.board_names.specs.Names.{FitsAndBreaks, IsBase64Url};
ghost use Rattle.board_names.specs.declared.errors.concept.SemanticStringError.TheVariants.{ExceedsMaximumLength, InvalidContent};
ghost use Rattle.std.specs.Cmp.Rules.{hashing};
ghost use Rattle.std.proofs.Common.{rules};

use crate::byte_rules::is_base64url;
use crate::errors::concept::SemanticStringError;
use board_layout::Text;
use std::hash::{Hash, Hasher};
use std::marker::Model;

/// A text of 1 to 255 bytes `A` to `Z`, `a` to `z`, `0` to `9`, `-` and `_`.
///
/// Clauses see it as the list of its bytes.
#[derive(Clone, Copy, Debug, PartialEq, Eq, PartialOrd, Ord)]
pub struct Base64Url {
    text: Text<255>,
}

impl Model for Base64Url {
    ghost use Rattle.std.specs.Prelude.{ℕ, List};
    ghost use Rattle.board_names.specs.Names.{IsBase64Url};

    ghost Value = { List ℕ };

    ghost view = { λ s. s.text };

    ghost invariant = { λ s. IsBase64Url s.text };

    ghost inverse = { λ d. record { text = d } };
}

impl Base64Url {
    /// The text of these bytes.
    ///
    /// # Errors
    /// `ExceedsMaximumLength` where there are more than 255; else `InvalidContent` where they break the rule.
    pub fn new(value: &[u8]) -> Result<Base64Url, SemanticStringError>
        ensures long { IsErrOf result ExceedsMaximumLength ↔ (255 < length value.now) }
        ensures content { IsErrOf result InvalidContent ↔ FitsAndBreaks 255 IsBase64Url value.now }
        ensures accepted { IsBase64Url value.now → result ≡ Ok value.now }
        ensures ok { IfOk result (λ n. (n ≡ value.now) × IsBase64Url value.now) }
    {
        if value.len() > 255 {
            return Err(SemanticStringError::ExceedsMaximumLength);
        }
        if !is_base64url(value) {
            return Err(SemanticStringError::InvalidContent);
        }
        Ok(Base64Url {
            text: Text::of(value),
        })
    }

    /// Its bytes.
    pub fn as_bytes(&self) -> &[u8]
        ensures value { result.now ≡ self.now }
        ensures rule { IsBase64Url self.now }
        ensures fits { length result.now ≤ 255 }
    {
        self.text.as_bytes()
    }
}

impl Hash for Base64Url {
    ghost hash_input = { λ s. s ∷ [] };

    ghost respects_eq = { Prim.search (hashing, rules) };

    // All bytes in one go.
    fn hash<H: Hasher>(&self, state: &mut H) {
        state.write(self.as_bytes());
    }
}
