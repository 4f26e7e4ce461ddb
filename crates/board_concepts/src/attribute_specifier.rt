//! The attributes that a new service is to have.
ghost use Rattle.std.specs.Prelude.{◌≡◌, ◌++◌, [], ◌∷◌, ◌↔◌, length, IsTrue, false, IfOk, IsErrOf};
ghost use Rattle.board_names.specs.declared.errors.service.AttributeError.TheVariants.{ExceedsMaxSupportedAttributes, InvalidText};
ghost use Rattle.board_concepts.specs.Attributes.{MeetsFull, are_texts, pair_of};

use crate::attribute_set::{AttributeSet, is_text};
use board_layout::Text;
use board_model::Attribute;
use board_names::{
    AttributeError, MAX_ATTRIBUTE_KEY_LENGTH, MAX_ATTRIBUTE_VALUE_LENGTH, MAX_ATTRIBUTES,
};
use std::alloc::Global;
use std::marker::Model;

/// The attributes that a new service is to have, seen as their list.
#[derive(Drop, Debug)]
pub struct AttributeSpecifier {
    set: AttributeSet,
}

impl Model for AttributeSpecifier {
    ghost use Rattle.std.specs.Prelude.{List};
    ghost use Rattle.board_model.specs.declared.attributes.Attribute.{Attribute};

    ghost Value = { List Attribute };

    ghost view = { λ s. s.set };
}

// One more pair in a set.
pub(crate) fn add(set: AttributeSet, key: &str, value: &str) -> Result<AttributeSet, AttributeError>
    ensures invalid { IsErrOf result InvalidText ↔ (are_texts key.now value.now ≡ false) }
    ensures full { IsErrOf result ExceedsMaxSupportedAttributes ↔
        MeetsFull (are_texts key.now value.now) set }
    ensures ok { IfOk result (λ more. more ≡ set ++ pair_of key.now value.now ∷ []) }
{
    if !is_text(MAX_ATTRIBUTE_KEY_LENGTH, key.as_bytes())
        || !is_text(MAX_ATTRIBUTE_VALUE_LENGTH, value.as_bytes())
    {
        return Err(AttributeError::InvalidText);
    }
    if set.len() == MAX_ATTRIBUTES {
        return Err(AttributeError::ExceedsMaxSupportedAttributes);
    }
    let pair = Attribute {
        key: Text::of(key.as_bytes()),
        value: Text::of(value.as_bytes()),
    };
    let mut more = set;
    match more.push(pair) {
        Ok(()) => Ok(more),
        Err(_) => Err(AttributeError::OutOfMemory),
    }
}

impl AttributeSpecifier {
    /// No attributes. Takes no memory.
    pub fn new(alloc: Global) -> Self
        ensures { result ≡ [] }
    {
        AttributeSpecifier {
            set: AttributeSet::new(alloc),
        }
    }

    /// One more pair. A refusal gives the specifier up.
    ///
    /// # Errors
    /// `InvalidText` where a text is too long or has a byte outside 0x20 to 0x7E; else `ExceedsMaxSupportedAttributes` where
    /// there are 8 pairs; `OutOfMemory`.
    pub fn define(self, key: &str, value: &str) -> Result<Self, AttributeError>
        ensures invalid { IsErrOf result InvalidText ↔ (are_texts key.now value.now ≡ false) }
        ensures full { IsErrOf result ExceedsMaxSupportedAttributes ↔
            MeetsFull (are_texts key.now value.now) self }
        ensures ok { IfOk result (λ more. more ≡ self ++ pair_of key.now value.now ∷ []) }
    {
        let set = add(self.set, key, value)?;
        Ok(AttributeSpecifier { set })
    }

    /// The pairs so far.
    pub fn attributes(&self) -> &AttributeSet
        ensures { result.now ≡ self.now }
    {
        &self.set
    }

    /// The pairs so far.
    pub fn into_set(self) -> AttributeSet
        ensures { result ≡ self }
    {
        self.set
    }
}
