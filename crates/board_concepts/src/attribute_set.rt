//! The attributes of a service.
ghost use Rattle.std.specs.Prelude.{◌≡◌, ◌<◌, ◌≤◌, ◌++◌, [], ◌∷◌, length, option_map, slice_get, IsTrue, IfOk, IsOkUnless, OnOk, OnErr};
ghost use Rattle.std.specs.List.{list_all};
ghost use Rattle.board_layout.specs.Types.{is_printable};
ghost use Rattle.board_concepts.specs.Attributes.{is_text, is_attribute, pair_of, AreAttributes};
ghost use Rattle.board_names.specs.declared.errors.service.AttributeError.TheVariants.{OutOfMemory};

use board_model::Attribute;
use board_names::AttributeError;
use std::alloc::{AllocError, Global};
use std::marker::Model;

/// Up to 8 pairs of a key of up to 64 bytes and a value of up to 256 bytes, all from 0x20 to 0x7E. Seen as their list.
#[derive(Drop, Debug)]
pub struct AttributeSet {
    attributes: Vec<Attribute>,
}

impl Model for AttributeSet {
    ghost use Rattle.std.specs.Prelude.{List};
    ghost use Rattle.board_model.specs.declared.attributes.Attribute.{Attribute};
    ghost use Rattle.board_concepts.specs.Attributes.{AreAttributes};

    ghost Value = { List Attribute };

    ghost view = { λ s. s.attributes.items };

    ghost invariant = { λ s. AreAttributes s.attributes.items };
}

// Whether each byte is one of an attribute's text.
fn is_printed(bytes: &[u8]) -> bool
    ensures { result ≡ list_all is_printable bytes.now }
{
    bytes.iter().all(|byte| (32..=126).contains(byte))
}

// Whether these bytes are a text of at most so many.
pub(crate) fn is_text(most: usize, bytes: &[u8]) -> bool
    ensures { result ≡ is_text most bytes.now }
{
    bytes.len() <= most && is_printed(bytes)
}

impl AttributeSet {
    /// No attributes. Takes no memory.
    pub fn new(alloc: Global) -> AttributeSet
        ensures { result ≡ [] }
    {
        AttributeSet {
            attributes: Vec::new(alloc),
        }
    }

    /// The pairs of a list that is known to be short, and of texts.
    pub fn from_vec(attributes: Vec<Attribute>) -> AttributeSet
        requires { AreAttributes attributes.items }
        ensures { result ≡ attributes.items }
    {
        AttributeSet { attributes }
    }

    /// How many pairs there are.
    pub fn len(&self) -> usize
        ensures value { result ≡ length self.now }
        ensures few { result ≤ 8 }
    {
        self.attributes.len()
    }

    /// The key and the value of the pair at this place.
    pub fn pair_at(&self, index: usize) -> Option<(&[u8], &[u8])>
        ensures { let pair = option_map (λ p. pair_of p.0.now p.1.now) result in
            pair ≡ slice_get self.now index }
    {
        let pair = self.attributes.get(index)?;
        Some((pair.key.as_bytes(), pair.value.as_bytes()))
    }

    /// The pairs, in order.
    pub fn as_slice(&self) -> &[Attribute]
        ensures value { result.now ≡ self.now }
        ensures rule { AreAttributes result.now }
    {
        self.attributes.as_slice()
    }

    /// The pairs, in order.
    pub fn into_vec(self) -> Vec<Attribute>
        ensures { result.items ≡ self }
    {
        self.attributes
    }

    /// An equal list.
    ///
    /// # Errors
    /// `OutOfMemory`.
    pub fn copy(&self) -> Result<AttributeSet, AttributeError>
        ensures ok { IfOk result (λ set. set ≡ self.now) }
        ensures memory { IsOkUnless result OutOfMemory }
    {
        match self.attributes.clone() {
            Ok(attributes) => Ok(AttributeSet { attributes }),
            Err(_) => Err(AttributeError::OutOfMemory),
        }
    }

    // One more pair.
    pub(crate) fn push(&mut self, pair: Attribute) -> Result<(), AllocError>
        requires room { length self.old < 8 }
        requires rule { IsTrue (is_attribute pair) }
        ensures ok { OnOk result (self.new ≡ self.old ++ pair ∷ []) }
        ensures err { OnErr result (self.new ≡ self.old) }
    {
        self.attributes.push(pair)?;
        Ok(())
    }
}
