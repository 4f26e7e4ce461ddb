//! Reading and writing of the parts of a description. A reader answers with what the bytes begin with, and with the bytes behind it.
ghost use Rattle.std.specs.Prelude.{◌≡◌, ℕ, ◌+◌, ◌*◌, ◌%◌, ◌/◌, ◌^◌, ◌<◌, ◌≤◌, List, [], ◌∷◌, ◌++◌, length, IsTrue, Some, IfSome, IsSomeAnd, IfOk, OnOk};
ghost use Rattle.std.specs.Bool.{OnTrue};
ghost use Rattle.board_layout.specs.declared.type_detail.TypeDetail.{TypeDetail};
ghost use Rattle.board_layout.specs.declared.type_detail.TypeVariant.{TypeVariant};
ghost use Rattle.board_model.specs.declared.attributes.Attribute.{Attribute};
ghost use Rattle.board_names.specs.Names.{IsServiceName};
ghost use Rattle.board_concepts.specs.Attributes.{is_attribute, AreAttributes};
ghost use Rattle.board_concepts.specs.Spelling.{Spelled, SpelledText, Puts};
ghost use Rattle.board_concepts.specs.DescriptionSpelling.{variant_number, IsType, SpelledType, SpelledAttribute, SpelledEach, SpelledList, AreSpelled};

use crate::attribute_set::{AttributeSet, is_text};
use board_layout::{Text, TypeDetail, TypeName, TypeVariant};
use board_model::Attribute;
use board_names::{
    MAX_ATTRIBUTE_KEY_LENGTH, MAX_ATTRIBUTE_VALUE_LENGTH, MAX_ATTRIBUTES, ServiceName,
};
use std::alloc::{AllocError, Global};

// The number at the front of the bytes, where it is at most `most` and in its shortest spelling.
pub(crate) fn number(bytes: &[u8], most: u64) -> Option<(u64, &[u8])>
    ensures found { IfSome result (λ p. Spelled p.0 bytes.now p.1.now) }
    ensures most { IfSome result (λ p. p.0 ≤ most) }
    ensures every { (n : ℕ) (rest : List ℕ) → n ≤ most → Spelled n bytes.now rest
        → IsSomeAnd result (λ p. (p.0 ≡ n) × (p.1.now ≡ rest)) }
{
    let (first, behind) = bytes.split_first()?;
    let low = u64::from(*first);
    if low < 128 {
        return if low <= most {
            Some((low, behind))
        } else {
            None
        };
    }
    if most < 128 {
        return None;
    }
    let (high, rest) = number(behind, most / 128)?;
    if high == 0 || most - 128 * high < low - 128 {
        return None;
    }
    Some((128 * high + (low - 128), rest))
}

// Adds the spelling of a number.
pub(crate) fn put_number(out: &mut Vec<u8>, number: u64) -> Result<(), AllocError>
    ensures { OnOk result (Puts (Spelled number) out.old.items out.new.items) }
{
    if number < 128 {
        out.push(number as u8)?;
        return Ok(());
    }
    out.push((128 + number % 128) as u8)?;
    put_number(out, number / 128)
}

// The text at the front of the bytes.
pub(crate) fn text(bytes: &[u8]) -> Option<(&[u8], &[u8])>
    ensures found { IfSome result (λ p. SpelledText p.0.now bytes.now p.1.now) }
    ensures every { (t : List ℕ) (rest : List ℕ) → length t < 2 ^ 64 → SpelledText t bytes.now rest
        → IsSomeAnd result (λ p. (p.0.now ≡ t) × (p.1.now ≡ rest)) }
{
    let (count, behind) = number(bytes, u64::MAX)?;
    if (behind.len() as u64) < count {
        return None;
    }
    Some(behind.split_at(count as usize))
}

// Adds the spelling of a text.
pub(crate) fn put_text(out: &mut Vec<u8>, text: &[u8]) -> Result<(), AllocError>
    ensures { OnOk result (Puts (SpelledText text.now) out.old.items out.new.items) }
{
    put_number(out, text.len() as u64)?;
    out.extend_from_slice(text)?;
    Ok(())
}

// The name of these bytes.
pub(crate) fn service_name(bytes: &[u8]) -> Option<ServiceName>
    ensures some { IfSome result (λ name. name ≡ bytes.now) }
    ensures rule { IfSome result (λ name. IsServiceName name) }
    ensures accepted { IsServiceName bytes.now → result ≡ Some bytes.now }
{
    match str::from_utf8(bytes) {
        Ok(text) => ServiceName::new(text).ok(),
        Err(_) => None,
    }
}

// The variant of this number.
fn variant_of(number: u64) -> Option<TypeVariant>
    ensures some { IfSome result (λ v. variant_number v ≡ number) }
    ensures every { (v : TypeVariant) → variant_number v ≡ number → result ≡ Some v }
{
    match number {
        0 => Some(TypeVariant::FixedSize),
        1 => Some(TypeVariant::Dynamic),
        _ => None,
    }
}

// The type at the front of the bytes.
pub(crate) fn read_type(bytes: &[u8]) -> Option<(TypeDetail, &[u8])>
    ensures found { IfSome result (λ p. SpelledType p.0 bytes.now p.1.now) }
    ensures rule { IfSome result (λ p. IsType p.0) }
    ensures every { (t : TypeDetail) (rest : List ℕ) → IsType t → SpelledType t bytes.now rest
        → IsSomeAnd result (λ p. (p.0 ≡ t) × (p.1.now ≡ rest)) }
{
    let (variant, bytes) = number(bytes, u64::MAX)?;
    let variant = variant_of(variant)?;
    let (type_name, bytes) = text(bytes)?;
    let type_name = TypeName::new(type_name)?;
    let (size, bytes) = number(bytes, u64::MAX)?;
    let (alignment, bytes) = number(bytes, u64::MAX)?;
    let detail = TypeDetail {
        variant,
        type_name,
        size: size as usize,
        alignment: alignment as usize,
    };
    Some((detail, bytes))
}

// The attribute at the front of the bytes.
fn read_attribute(bytes: &[u8]) -> Option<(Attribute, &[u8])>
    ensures found { IfSome result (λ p. SpelledAttribute p.0 bytes.now p.1.now) }
    ensures rule { IfSome result (λ p. IsTrue (is_attribute p.0)) }
    ensures every { (a : Attribute) (rest : List ℕ) → IsTrue (is_attribute a) → SpelledAttribute a bytes.now rest
        → IsSomeAnd result (λ p. (p.0 ≡ a) × (p.1.now ≡ rest)) }
{
    let (key, bytes) = text(bytes)?;
    let (value, bytes) = text(bytes)?;
    if !is_text(MAX_ATTRIBUTE_KEY_LENGTH, key) || !is_text(MAX_ATTRIBUTE_VALUE_LENGTH, value) {
        return None;
    }
    let attribute = Attribute {
        key: Text::of(key),
        value: Text::of(value),
    };
    Some((attribute, bytes))
}

// The bytes behind so many attributes. Takes no memory.
fn skip_each(bytes: &[u8], count: u64) -> Option<&[u8]>
    ensures found { IfSome result (λ left. (each : List Attribute) × AreSpelled each count bytes.now left.now) }
    ensures every { (each : List Attribute) (rest : List ℕ) → AreSpelled each count bytes.now rest
        → IsSomeAnd result (λ left. left.now ≡ rest) }
{
    if count == 0 {
        return Some(bytes);
    }
    let Some((_, behind)) = read_attribute(bytes) else {
        return None;
    };
    skip_each(behind, count - 1)
}

// Whether the bytes are a list of attributes and nothing else. Takes no memory.
pub(crate) fn is_list(bytes: &[u8]) -> bool
    ensures yes { OnTrue result ((attributes : List Attribute) × AreAttributes attributes × SpelledList attributes bytes.now []) }
    ensures no { (attributes : List Attribute) → AreAttributes attributes → SpelledList attributes bytes.now [] → IsTrue result }
{
    let Some((count, items)) = number(bytes, MAX_ATTRIBUTES as u64) else {
        return false;
    };
    let Some(behind) = skip_each(items, count) else {
        return false;
    };
    behind.is_empty()
}

// Adds so many attributes at the front of the bytes to a set.
fn fill(set: &mut AttributeSet, bytes: &[u8], count: u64) -> Result<(), AllocError>
    requires room { length set.old + count ≤ 8 }
    requires spelled { (each : List Attribute) × (rest : List ℕ) × AreSpelled each count bytes.now rest }
    ensures { (each : List Attribute) (rest : List ℕ) → AreSpelled each count bytes.now rest
        → OnOk result (set.new ≡ set.old ++ each) }
{
    if count == 0 {
        return Ok(());
    }
    // An attribute is spelled at the front (`spelled`), and `read_attribute` finds it (its `every`).
    let Some((attribute, behind)) = read_attribute(bytes) else {
        unreachable!()
    };
    set.push(attribute)?;
    fill(set, behind, count - 1)?;
    Ok(())
}

// The list of attributes that the bytes are.
pub(crate) fn list_of(alloc: Global, bytes: &[u8]) -> Result<AttributeSet, AllocError>
    requires { (attributes : List Attribute) × AreAttributes attributes × SpelledList attributes bytes.now [] }
    ensures { (attributes : List Attribute) → AreAttributes attributes → SpelledList attributes bytes.now []
        → IfOk result (λ set. set ≡ attributes) }
{
    // The list begins with its length, which is 8 at most, and `number` finds it (its `every`).
    let Some((count, items)) = number(bytes, MAX_ATTRIBUTES as u64) else {
        unreachable!()
    };
    let mut set = AttributeSet::new(alloc);
    fill(&mut set, items, count)?;
    Ok(set)
}

// The number of a variant.
fn number_of(variant: TypeVariant) -> u64
    ensures { result ≡ variant_number variant }
{
    match variant {
        TypeVariant::FixedSize => 0,
        TypeVariant::Dynamic => 1,
    }
}

// Adds the spelling of a type.
pub(crate) fn put_type(out: &mut Vec<u8>, detail: &TypeDetail) -> Result<(), AllocError>
    ensures { OnOk result (Puts (SpelledType detail.now) out.old.items out.new.items) }
{
    put_number(out, number_of(detail.variant))?;
    put_text(out, detail.type_name.as_bytes())?;
    put_number(out, detail.size as u64)?;
    put_number(out, detail.alignment as u64)?;
    Ok(())
}

// Adds the spelling of an attribute.
fn put_attribute(out: &mut Vec<u8>, attribute: &Attribute) -> Result<(), AllocError>
    ensures { OnOk result (Puts (SpelledAttribute attribute.now) out.old.items out.new.items) }
{
    put_text(out, attribute.key.as_bytes())?;
    put_text(out, attribute.value.as_bytes())?;
    Ok(())
}

// Adds the spelling of each of these attributes.
fn put_each(out: &mut Vec<u8>, attributes: &[Attribute]) -> Result<(), AllocError>
    ensures { OnOk result (Puts (SpelledEach attributes.now) out.old.items out.new.items) }
{
    for attribute in attributes {
        put_attribute(out, attribute)?;
    }
    Ok(())
}

// Adds the spelling of a list of attributes.
pub(crate) fn put_list(out: &mut Vec<u8>, attributes: &[Attribute]) -> Result<(), AllocError>
    ensures { OnOk result (Puts (SpelledList attributes.now) out.old.items out.new.items) }
{
    put_number(out, attributes.len() as u64)?;
    put_each(out, attributes)?;
    Ok(())
}
