//! What an opener needs of a service's attributes.
ghost use Rattle.std.specs.Prelude.{◌≡◌, ◌++◌, [], ◌∷◌, ◌↔◌, length, IsTrue, false, IfOk, IsErrOf};
ghost use Rattle.std.specs.List.{list_all};
ghost use Rattle.board_model.specs.Tables as tables;
ghost use Rattle.board_names.specs.declared.errors.service.AttributeError.TheVariants.{ExceedsMaxSupportedAttributes, InvalidText};
ghost use Rattle.board_concepts.specs.Attributes.{MeetsFull, AreKeys, is_text, are_texts, pair_of};

use crate::attribute_set::{AttributeSet, is_text};
use crate::attribute_specifier::add;
use board_layout::Text;
use board_model::Attribute;
use board_names::{AttributeError, MAX_ATTRIBUTE_KEY_LENGTH, MAX_ATTRIBUTES};
use std::alloc::Global;
use std::marker::Model;

/// The pairs that a service must have, and the keys that it must have with any value; up to 8 of each. Seen as the two lists.
#[derive(Drop, Debug)]
pub struct AttributeVerifier {
    pairs: AttributeSet,
    keys: Vec<Text<64>>,
}

impl Model for AttributeVerifier {
    ghost use Rattle.board_model.specs.declared.attributes.Requirements.{Requirements};
    ghost use Rattle.board_concepts.specs.Attributes.{AreKeys};

    ghost Value = { Requirements };

    ghost view = { λ s. record { pairs = s.pairs; keys = s.keys.items } };

    ghost invariant = { λ s. AreKeys s.keys.items };
}

// Whether a pair is among these.
fn has_pair(pairs: &[Attribute], pair: &Attribute) -> bool
    ensures { result ≡ tables.has_pair pairs.now pair.now }
{
    pairs
        .iter()
        .any(|other| other.key == pair.key && other.value == pair.value)
}

// Whether a key is that of one of these.
fn has_key(pairs: &[Attribute], key: &Text<64>) -> bool
    ensures { result ≡ tables.has_attribute pairs.now key.now }
{
    pairs.iter().any(|other| other.key == *key)
}

// Whether each required pair is among these.
fn has_pairs(pairs: &[Attribute], required: &[Attribute]) -> bool
    ensures { result ≡ list_all (tables.has_pair pairs.now) required.now }
{
    required.iter().all(|pair| has_pair(pairs, pair))
}

// Whether each required key is that of one of these.
fn has_keys(pairs: &[Attribute], required: &[Text<64>]) -> bool
    ensures { result ≡ list_all (tables.has_attribute pairs.now) required.now }
{
    required.iter().all(|key| has_key(pairs, key))
}

impl AttributeVerifier {
    /// No requirements. Takes no memory.
    pub fn new(alloc: Global) -> Self
        ensures { result ≡ record { pairs = []; keys = [] } }
    {
        AttributeVerifier {
            pairs: AttributeSet::new(alloc),
            keys: Vec::new(alloc),
        }
    }

    /// These pairs, and the keys of a list that is known to be short, and of texts.
    pub fn from_lists(pairs: AttributeSet, keys: Vec<Text<64>>) -> Self
        requires { AreKeys keys.items }
        ensures { result ≡ record { pairs = pairs; keys = keys.items } }
    {
        AttributeVerifier { pairs, keys }
    }

    /// One more pair that must be there. A refusal gives the verifier up.
    ///
    /// # Errors
    /// `InvalidText` where a text is too long or has a byte outside 0x20 to 0x7E; else `ExceedsMaxSupportedAttributes` where
    /// there are 8 required pairs; `OutOfMemory`.
    pub fn require(self, key: &str, value: &str) -> Result<Self, AttributeError>
        ensures invalid { IsErrOf result InvalidText ↔ (are_texts key.now value.now ≡ false) }
        ensures full { IsErrOf result ExceedsMaxSupportedAttributes ↔
            MeetsFull (are_texts key.now value.now) self.pairs }
        ensures ok { let pairs = self.pairs ++ pair_of key.now value.now ∷ [] in
            IfOk result (λ more. more ≡ record self { pairs = pairs }) }
    {
        let pairs = add(self.pairs, key, value)?;
        Ok(AttributeVerifier {
            pairs,
            keys: self.keys,
        })
    }

    /// One more key that must be there, with any value. A refusal gives the verifier up.
    ///
    /// # Errors
    /// `InvalidText` where the key is too long or has a byte outside 0x20 to 0x7E; else `ExceedsMaxSupportedAttributes` where
    /// there are 8 required keys; `OutOfMemory`.
    pub fn require_key(self, key: &str) -> Result<Self, AttributeError>
        ensures invalid { IsErrOf result InvalidText ↔ (is_text 64 key.now ≡ false) }
        ensures full { IsErrOf result ExceedsMaxSupportedAttributes ↔
            MeetsFull (is_text 64 key.now) self.keys }
        ensures ok { let keys = self.keys ++ key.now ∷ [] in
            IfOk result (λ more. more ≡ record self { keys = keys }) }
    {
        if !is_text(MAX_ATTRIBUTE_KEY_LENGTH, key.as_bytes()) {
            return Err(AttributeError::InvalidText);
        }
        if self.keys.len() == MAX_ATTRIBUTES {
            return Err(AttributeError::ExceedsMaxSupportedAttributes);
        }
        let AttributeVerifier { pairs, mut keys } = self;
        match keys.push(Text::of(key.as_bytes())) {
            Ok(()) => Ok(AttributeVerifier { pairs, keys }),
            Err(_) => Err(AttributeError::OutOfMemory),
        }
    }

    /// Whether each required pair is in the set and each required key is a key of it.
    pub fn verify_requirements(&self, set: &AttributeSet) -> bool
        ensures { result ≡ tables.meets self.now set.now }
    {
        has_pairs(set.as_slice(), self.pairs.as_slice()) && has_keys(set.as_slice(), &self.keys)
    }
}
