//! The name of a node.
ghost use Rattle.std.specs.Prelude.{◌≡◌, ℕ, ◌+◌, ◌-◌, ◌<◌, ◌≤◌, ◌↔◌, List, [], ◌∷◌, length, IsTrue, Ok, IfOk, IsErrOf};
ghost use Rattle.board_names.specs.Names.{FitsAndBreaks, IsNodeName};
ghost use Rattle.board_names.specs.declared.errors.concept.SemanticStringError.TheVariants.{ExceedsMaximumLength, InvalidContent};

use crate::byte_rules::is_node_name;
use crate::constants::MAX_NODE_NAME_LENGTH;
use crate::errors::concept::SemanticStringError;
use board_layout::Text;
use std::marker::Model;

/// The name of a node: at most 128 bytes 0x20 to 0x7E. It may be empty.
///
/// Clauses see it as the list of its bytes.
#[derive(Clone, Copy, Debug, PartialEq, Eq, PartialOrd, Ord)]
pub struct NodeName {
    text: Text<128>,
}

impl Model for NodeName {
    ghost use Rattle.std.specs.Prelude.{ℕ, List};
    ghost use Rattle.board_names.specs.Names.{IsNodeName};

    ghost Value = { List ℕ };

    ghost view = { λ s. s.text };

    ghost invariant = { λ s. IsNodeName s.text };

    ghost inverse = { λ d. record { text = d } };
}

impl NodeName {
    /// The name of this text.
    ///
    /// # Errors
    /// `ExceedsMaximumLength` where it has more than 128 bytes; else `InvalidContent` where it breaks the rule.
    pub fn new(value: &str) -> Result<NodeName, SemanticStringError>
        ensures long { IsErrOf result ExceedsMaximumLength ↔ (128 < length value.now) }
        ensures content { IsErrOf result InvalidContent ↔ FitsAndBreaks 128 IsNodeName value.now }
        ensures accepted { IsNodeName value.now → result ≡ Ok value.now }
        ensures ok { IfOk result (λ n. (n ≡ value.now) × IsNodeName value.now) }
    {
        if value.len() > MAX_NODE_NAME_LENGTH {
            return Err(SemanticStringError::ExceedsMaximumLength);
        }
        if !is_node_name(value.as_bytes()) {
            return Err(SemanticStringError::InvalidContent);
        }
        Ok(NodeName {
            text: Text::of(value.as_bytes()),
        })
    }

    /// Its bytes.
    pub fn as_bytes(&self) -> &[u8]
        ensures value { result.now ≡ self.now }
        ensures rule { IsNodeName self.now }
        ensures fits { length result.now ≤ 128 }
    {
        self.text.as_bytes()
    }
}
