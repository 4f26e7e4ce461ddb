//! Values and added entries, from their tokens.
ghost use Rattle.std.specs.Prelude.{◌≡◌, IfOk, None, codes};
ghost use Rattle.std.specs.List.{list_all};
ghost use Rattle.std.specs.Option.{option_map};
ghost use Rattle.board_model.specs.LawfulSession.{has_key_type};
ghost use Rattle.script_grammar.specs.LineReading.{read_entries, read_entry};
ghost use Rattle.script_grammar.specs.TokenReading.{behind, first_by, read_four, read_value};
ghost use Rattle.script_parse.specs.Tokens.{with_rest};

use crate::atoms::{key_of, number_of};
use crate::bytes::{bytes_behind, is_word};
use crate::tokens::Tokens;
use board_model::{AddedEntries, AddedEntry, Key, KeyType, Value, same_key_type, type_of_key};
use std::alloc::{AllocError, Global};

#[tactic(auto, unfolding(script_grammar::specs::TokenReading::read_four))]
fn four_of(parts: &mut Tokens) -> Option<Value>
    ensures { result ≡ read_four parts.old }
{
    let a = parts.number()?;
    let b = parts.number()?;
    let c = parts.number()?;
    let d = parts.number()?;
    parts.end()?;
    Some(Value::Q4(a, b, c, d))
}

// A value that isn't a number of 64 bits. Apart, since few are not.
#[inline(never)]
#[tactic(auto, unfolding(script_grammar::specs::TokenReading::read_value, script_grammar::specs::TokenReading::read_words_behind))]
fn rare_value_of(text: &[u8]) -> Option<Value>
    requires { behind (codes "u64:") text.now ≡ None }
    ensures { result ≡ read_value text.now }
{
    if is_word(text, b"bool:true") {
        return Some(Value::Bool(true));
    }
    if is_word(text, b"bool:false") {
        return Some(Value::Bool(false));
    }
    four_of(&mut Tokens::between(bytes_behind(text, b"q4:")?, b','))
}

#[inline(always)]
#[tactic(auto, unfolding(script_grammar::specs::TokenReading::read_value, script_grammar::specs::TokenReading::read_words_behind))]
pub(crate) fn value_of(text: &[u8]) -> Option<Value>
    ensures { result ≡ read_value text.now }
{
    match text {
        [b'u', b'6', b'4', b':', digits @ ..] => Some(Value::U64(number_of(digits)?)),
        _ => rare_value_of(text),
    }
}

impl<'a> Tokens<'a> {
    #[inline(never)]
    pub(crate) fn value(&mut self) -> Option<Value>
        ensures { with_rest result self.new ≡ first_by read_value self.old }
    {
        value_of(self.next()?)
    }
}

#[tactic(auto, unfolding(script_grammar::specs::LineReading::read_entry))]
fn entry_of(word: &[u8], key: &[u8], value: &[u8]) -> Option<(Key, Value)>
    ensures { option_map (λ pair. record { key = pair.0; value = pair.1 }) result
        ≡ read_entry word.now key.now value.now }
{
    if !is_word(word, b"add") {
        return None;
    }
    let key = key_of(key)?;
    let value = value_of(value)?;
    Some((key, value))
}

// The entries that are left. Only their list takes memory.
pub(crate) fn entries_of(
    alloc: Global,
    tokens: &mut Tokens,
) -> Result<Option<AddedEntries>, AllocError>
    ensures { IfOk result (λ o. o ≡ read_entries tokens.old) }
{
    let mut entries = Vec::new(alloc);
    while let Some(word) = tokens.next() {
        let Some(key) = tokens.next() else {
            return Ok(None);
        };
        let Some(value) = tokens.next() else {
            return Ok(None);
        };
        let Some((key, value)) = entry_of(word, key, value) else {
            return Ok(None);
        };
        entries.push(AddedEntry { key, value })?;
    }
    Ok(Some(AddedEntries::from_vec(entries)))
}

// Whether the keys of the entries that are left are of this type, where entries are left and nothing else. Takes no memory.
pub(crate) fn have_key_type(key_type: KeyType, tokens: &mut Tokens) -> Option<bool>
    ensures { result ≡ option_map (λ entries. list_all (has_key_type key_type) entries)
        (read_entries tokens.old) }
{
    let mut are_typed = true;
    while let Some(word) = tokens.next() {
        let key = tokens.next()?;
        let value = tokens.next()?;
        let (key, _value) = entry_of(word, key, value)?;
        are_typed = are_typed && same_key_type(type_of_key(&key), key_type);
    }
    Some(are_typed)
}
