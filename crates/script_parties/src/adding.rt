//! What a script gives for a new board, as a domain takes it.
ghost use Rattle.std.specs.Prelude.{◌≡◌, IfOk, All, map};
ghost use Rattle.std.specs.List.{AllByRecursion};
ghost use Rattle.board_concepts.specs.Attributes as concepts;
ghost use Rattle.board_layout.specs.Layout.{IsShape};
ghost use Rattle.board_layout.specs.Bytes.{padded};
ghost use Rattle.board_model.specs.LineGrammar.{AreAttributes, AreRequirements};
ghost use Rattle.board_model.specs.Replies as replies;
ghost use Rattle.board_model.specs.Tables.{shapes_of};
ghost use Rattle.script_parties.specs.Named.{HasShortKey};
ghost use Rattle.board_service.specs.Entries.{as_added};

use board_concepts::{AttributeSet, AttributeVerifier};
use board_layout::{F8, Text};
use board_model::{
    AddedEntry, Attributes, Requirements, key_bytes, type_of, value_detail, value_words,
};
use board_service::NewEntry;
use std::alloc::{AllocError, Global};

/// The entries of a new board.
pub(crate) fn entries_for(
    alloc: Global,
    entries: &[AddedEntry],
) -> Result<Vec<NewEntry>, AllocError>
    ensures entries { IfOk result (λ v. map as_added v.items ≡ map replies.added_of entries.now) }
    ensures shapes { IfOk result (λ v. All IsShape (shapes_of (map as_added v.items))) }
    ensures keys { IfOk result (λ v. AllByRecursion HasShortKey (map as_added v.items)) }
{
    let mut new = Vec::with_capacity(alloc, entries.len())?;
    for entry in entries {
        new.push(NewEntry {
            key: key_bytes(&entry.key),
            value: value_detail(type_of(entry.value)),
            words: value_words(alloc, entry.value)?,
        })?;
    }
    Ok(new)
}

/// The attributes of a new board. Takes no memory.
pub(crate) fn attributes_for(attributes: Attributes) -> AttributeSet
    requires { AreAttributes attributes }
    ensures { result ≡ attributes }
{
    AttributeSet::from_vec(attributes.into_vec())
}

/// What an opener needs. Takes no memory.
pub(crate) fn needs_for(needs: Requirements) -> AttributeVerifier
    requires { AreRequirements needs }
    ensures { result ≡ needs }
{
    let Requirements { pairs, keys } = needs;
    AttributeVerifier::from_lists(attributes_for(pairs), keys.into_vec())
}

/// The key of this text, with zeros behind it.
pub(crate) fn f8_of(text: &Text<8>) -> F8
    ensures { result.bytes ≡ padded 8 text.now }
{
    let mut bytes = [0; 8];
    let given = text.as_bytes();
    bytes[..given.len()].copy_from_slice(given);
    F8 { bytes }
}
