//! Descriptions as bytes.
ghost use Rattle.std.specs.Prelude.{◌≡◌, ℕ, ◌<◌, ◌^◌, List, [], IfOk, IsOkUnless, IfSome, IsSomeAnd, OnOk};
ghost use Rattle.board_names.specs.declared.errors.service.SerializeError.TheVariants.{OutOfMemory};
ghost use Rattle.board_concepts.specs.Attributes.{AreAttributes};
ghost use Rattle.board_concepts.specs.declared.description.Description.{Description};
ghost use Rattle.board_concepts.specs.Spelling.{Puts};
ghost use Rattle.board_concepts.specs.DescriptionSpelling.{Fields, IsDescription, IsWritable, SpelledAt, SpelledDescription, SpelledList, SpelledWriters, described, Reads};
ghost use Rattle.board_model.specs.declared.attributes.Attribute.{Attribute};

use crate::description::Description;
use crate::spelling::{
    is_list, list_of, number, put_list, put_number, put_text, put_type, read_type, service_name,
    text,
};
use board_layout::TypeDetail;
use board_names::{DeserializeError, SerializeError, ServiceName};
use std::alloc::{AllocError, Global};

/// A way to write descriptions as bytes.
pub trait Serialize {
    // Whether bytes are the spelling of a description.
    ghost Spells: { Description → List ℕ → Type 0 };

    /// The bytes of a description of version 2, or of version 1 with one writer.
    ///
    /// # Errors
    /// `OutOfMemory`.
    fn serialize(alloc: Global, value: &Description) -> Result<Vec<u8>, SerializeError>
        requires { IsWritable value.now }
        ensures ok { IfOk result (λ bytes. Spells value.now bytes.items) }
        ensures memory { IsOkUnless result OutOfMemory };

    /// The description that is spelled by these bytes. Memory is taken for its attributes alone, and only once all bytes
    /// are known to be right.
    ///
    /// # Errors
    /// `InternalError` where the bytes spell no description; `OutOfMemory`.
    fn deserialize(alloc: Global, bytes: &[u8]) -> Result<Description, DeserializeError>
        ensures { Reads Spells bytes.now result };
}

/// The wire format of postcard 1.1.3, in its shortest spelling alone and with nothing behind it.
///
/// An unsigned number is groups of 7 bits, the low group first, with the high bit set on all but the last; a text is its
/// length and its bytes, a list its length and its items, a variant its number (`FixedSize` 0, `Dynamic` 1). The fields
/// are the version, which is 1 or 2, the name, the type of keys (variant, name, size, alignment), the most readers and
/// nodes, in version 2 the most writers, and the list of attributes, each its key and its value. A description of version
/// 1 has at most one writer.
#[derive(Clone, Copy, Debug)]
pub struct Postcard;

/// The form in which services keep their descriptions.
pub type Recommended = Postcard;

// Adds the limit of writers, which version 1 doesn't spell.
fn put_writers(out: &mut Vec<u8>, value: &Description) -> Result<(), AllocError>
    requires { IsWritable value.now }
    ensures { OnOk result (Puts (SpelledWriters value.now.version value.now.max_writers)
        out.old.items out.new.items) }
{
    if value.version == 1 {
        return Ok(());
    }
    put_number(out, value.max_writers)
}

// The bytes of a description.
fn write(alloc: Global, value: &Description) -> Result<Vec<u8>, AllocError>
    requires { IsWritable value.now }
    ensures { IfOk result (λ bytes. SpelledDescription value.now bytes.items) }
{
    let mut out = Vec::new(alloc);
    put_number(&mut out, value.version as u64)?;
    put_text(&mut out, value.name.as_bytes())?;
    put_type(&mut out, &value.key)?;
    put_number(&mut out, value.max_readers)?;
    put_number(&mut out, value.max_nodes)?;
    put_writers(&mut out, value)?;
    put_list(&mut out, value.attributes.as_slice())?;
    Ok(out)
}

// What stands before the attributes of a description, and the bytes from these on.
#[derive(Clone, Copy)]
struct Front<'a> {
    version: u32,
    name: ServiceName,
    key: TypeDetail,
    max_readers: u64,
    max_nodes: u64,
    max_writers: u64,
    attributes: &'a [u8],
}

// The limit of writers at the front of the bytes. In version 1 it isn't spelled, and is 1.
fn writers(version: u32, bytes: &[u8]) -> Option<(u64, &[u8])>
    ensures found { IfSome result (λ p. SpelledWriters version p.0 bytes.now p.1.now) }
    ensures every { (n : ℕ) (rest : List ℕ) → n < 2 ^ 64 → SpelledWriters version n bytes.now rest
        → IsSomeAnd result (λ p. (p.0 ≡ n) × (p.1.now ≡ rest)) }
{
    match version {
        1 => Some((1, bytes)),
        2 => number(bytes, u64::MAX),
        _ => None,
    }
}

// What stands at the front of the bytes of a description.
fn read_front(bytes: &[u8]) -> Option<Front<'_>>
    ensures found { IfSome result (λ f. (a : List Attribute) → SpelledList a f.attributes.now []
        → SpelledDescription (described f.version f.name f.key
        f.max_readers f.max_nodes f.max_writers a) bytes.now) }
    ensures rule { IfSome result (λ f. (a : List Attribute) → AreAttributes a
        → IsDescription (described f.version f.name f.key
        f.max_readers f.max_nodes f.max_writers a)) }
    ensures every { (d : Description) (at : Fields) → IsDescription d → SpelledAt d bytes.now at
        → IsSomeAnd result (λ f. (f.attributes.now ≡ at.attributes)
        × (d ≡ described f.version f.name f.key
        f.max_readers f.max_nodes f.max_writers d.attributes)) }
{
    let (version, bytes) = number(bytes, 0xFFFF_FFFF)?;
    let (name, bytes) = text(bytes)?;
    let name = service_name(name)?;
    let Some((key, bytes)) = read_type(bytes) else {
        return None;
    };
    let (max_readers, bytes) = number(bytes, u64::MAX)?;
    let (max_nodes, bytes) = number(bytes, u64::MAX)?;
    let version = version as u32;
    let (max_writers, attributes) = writers(version, bytes)?;
    Some(Front {
        version,
        name,
        key,
        max_readers,
        max_nodes,
        max_writers,
        attributes,
    })
}

// The description that is spelled by these bytes.
fn read(alloc: Global, bytes: &[u8]) -> Result<Description, DeserializeError>
    ensures { Reads SpelledDescription bytes.now result }
{
    let Some(front) = read_front(bytes) else {
        return Err(DeserializeError::InternalError);
    };
    if !is_list(front.attributes) {
        return Err(DeserializeError::InternalError);
    }
    let Ok(attributes) = list_of(alloc, front.attributes) else {
        return Err(DeserializeError::OutOfMemory);
    };
    Ok(Description {
        version: front.version,
        name: front.name,
        key: front.key,
        max_readers: front.max_readers,
        max_nodes: front.max_nodes,
        max_writers: front.max_writers,
        attributes,
    })
}

impl Serialize for Postcard {
    ghost Spells = { SpelledDescription };

    fn serialize(alloc: Global, value: &Description) -> Result<Vec<u8>, SerializeError> {
        match write(alloc, value) {
            Ok(bytes) => Ok(bytes),
            Err(_) => Err(SerializeError::OutOfMemory),
        }
    }

    fn deserialize(alloc: Global, bytes: &[u8]) -> Result<Description, DeserializeError> {
        read(alloc, bytes)
    }
}
