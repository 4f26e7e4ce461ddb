//! The name of a service.
ghost use Rattle.std.specs.Prelude.{◌≡◌, ℕ, ◌+◌, ◌-◌, ◌<◌, ◌≤◌, ◌↔◌, List, [], ◌∷◌, length, IsTrue, Ok, IfOk, IsErrOf};
ghost use Rattle.board_names.specs.Names.{FitsAndBreaks, IsServiceName};
ghost use Rattle.board_names.specs.declared.errors.concept.SemanticStringError.TheVariants.{ExceedsMaximumLength, InvalidContent};
ghost use Rattle.std.specs.Cmp.Rules.{hashing};
ghost use Rattle.std.proofs.Common.{rules};

use crate::byte_rules::is_service_name;
use crate::constants::MAX_SERVICE_NAME_LENGTH;
use crate::errors::concept::SemanticStringError;
use board_layout::Text;
use std::hash::{Hash, Hasher};
use std::marker::Model;

/// The name of a service: 1 to 255 bytes 0x20 to 0x7E.
///
/// Clauses see it as the list of its bytes, which is also what it hashes.
#[derive(Clone, Copy, Debug, PartialEq, Eq, PartialOrd, Ord)]
pub struct ServiceName {
    text: Text<255>,
}

impl Model for ServiceName {
    ghost use Rattle.std.specs.Prelude.{ℕ, List};
    ghost use Rattle.board_names.specs.Names.{IsServiceName};

    ghost Value = { List ℕ };

    ghost view = { λ s. s.text };

    ghost invariant = { λ s. IsServiceName s.text };

    ghost inverse = { λ d. record { text = d } };
}

impl ServiceName {
    /// The name of this text.
    ///
    /// # Errors
    /// `ExceedsMaximumLength` where it has more than 255 bytes; else `InvalidContent` where it breaks the rule.
    pub fn new(value: &str) -> Result<ServiceName, SemanticStringError>
        ensures long { IsErrOf result ExceedsMaximumLength ↔ (255 < length value.now) }
        ensures content { IsErrOf result InvalidContent
            ↔ FitsAndBreaks 255 IsServiceName value.now }
        ensures accepted { IsServiceName value.now → result ≡ Ok value.now }
        ensures ok { IfOk result (λ n. (n ≡ value.now) × IsServiceName value.now) }
    {
        if value.len() > MAX_SERVICE_NAME_LENGTH {
            return Err(SemanticStringError::ExceedsMaximumLength);
        }
        if !is_service_name(value.as_bytes()) {
            return Err(SemanticStringError::InvalidContent);
        }
        Ok(ServiceName {
            text: Text::of(value.as_bytes()),
        })
    }

    /// The name of a text that is known to be one.
    pub fn from_text(text: Text<255>) -> ServiceName
        requires { IsServiceName text }
        ensures { result ≡ text }
    {
        ServiceName { text }
    }

    /// Its bytes.
    pub fn as_bytes(&self) -> &[u8]
        ensures value { result.now ≡ self.now }
        ensures rule { IsServiceName self.now }
        ensures fits { length result.now ≤ 255 }
    {
        self.text.as_bytes()
    }
}

impl Hash for ServiceName {
    ghost hash_input = { λ s. s ∷ [] };

    ghost respects_eq = { Prim.search (hashing, rules) };

    // All bytes in one go.
    fn hash<H: Hasher>(&self, state: &mut H) {
        state.write(self.as_bytes());
    }
}
