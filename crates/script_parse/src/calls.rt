//! Calls, from their tokens.
ghost use Rattle.std.specs.Prelude.{◌≡◌, Some, IfErr, IfOk};
ghost use Rattle.board_model.specs.Requests.{and_then};
ghost use Rattle.script_grammar.specs.LineReading.{read_call, read_create, read_entry_parts, read_fill, read_get, read_name_if_any, read_needs, read_named_call, read_one_name, read_open, read_plain_call, read_put, read_two_names, read_update};
ghost use Rattle.script_parse.specs.CallReading.{read_discard, read_entry, read_entrymut, read_fresh, read_gen, read_id, read_info, read_keys, read_loan, read_nodes, read_publish, read_reader, read_writer};
ghost use Rattle.script_parse.specs.Kept.{board_made};
ghost use Rattle.script_parse.specs.Tokens.{left_behind, rest_where};

use crate::atoms::name_of;
use crate::bytes::is_word;
use crate::options::{attributes_of, needs_of, skip_parts};
use crate::tokens::Tokens;
use crate::unkept::Made;
use crate::values::{entries_of, have_key_type};
use board_layout::Text;
use board_model::{Attribute, Call, Key, LongName, Name, NewLimits, ValueType};
use std::alloc::{AllocError, Global};

// A single name and no more.
#[tactic(auto, unfolding(script_grammar::specs::LineReading::read_one_name))]
pub(crate) fn one_name(tokens: &mut Tokens) -> Option<Name>
    ensures { result ≡ read_one_name tokens.old }
{
    let name = tokens.name()?;
    tokens.end()?;
    Some(name)
}

// Two names and no more.
#[tactic(auto, unfolding(script_grammar::specs::LineReading::read_two_names))]
pub(crate) fn two_names(tokens: &mut Tokens) -> Option<(Name, Name)>
    ensures { result ≡ read_two_names tokens.old }
{
    let first = tokens.name()?;
    let second = tokens.name()?;
    tokens.end()?;
    Some((first, second))
}

// The name that may stand at the end.
#[tactic(auto, unfolding(script_grammar::specs::LineReading::read_name_if_any))]
fn name_if_any(tokens: &mut Tokens) -> Option<Option<Name>>
    ensures { result ≡ read_name_if_any tokens.old }
{
    let Some(name) = tokens.next() else {
        return Some(None);
    };
    let name = name_of(name)?;
    tokens.end()?;
    Some(Some(name))
}

// What asks for a handle of an entry: its name, the port's, a key and a type of values, and no more.
#[tactic(auto, unfolding(script_grammar::specs::LineReading::read_entry_parts))]
fn entry_parts(tokens: &mut Tokens) -> Option<(Name, Name, Key, ValueType)>
    ensures { result ≡ read_entry_parts tokens.old }
{
    let handle = tokens.name()?;
    let port = tokens.name()?;
    let key = tokens.key()?;
    let value_type = tokens.value_type()?;
    tokens.end()?;
    Some((handle, port, key, value_type))
}

#[tactic(auto, unfolding(script_grammar::specs::LineReading::read_get))]
#[inline(never)]
fn get_of(tokens: &mut Tokens) -> Option<Call>
    ensures { result ≡ read_get tokens.old }
{
    let handle = tokens.name()?;
    let value = name_if_any(tokens)?;
    Some(Call::Get { handle, value })
}

#[tactic(auto, unfolding(script_grammar::specs::LineReading::read_update))]
#[inline(never)]
fn update_of(tokens: &mut Tokens) -> Option<Call>
    ensures { result ≡ read_update tokens.old }
{
    let handle = tokens.name()?;
    let value = tokens.value()?;
    tokens.end()?;
    Some(Call::Update { handle, value })
}

#[tactic(auto, unfolding(script_grammar::specs::LineReading::read_put))]
#[inline(never)]
fn put_of(tokens: &mut Tokens) -> Option<Call>
    ensures { result ≡ read_put tokens.old }
{
    let loan = tokens.name()?;
    let index = tokens.number()?;
    let word = tokens.number()?;
    tokens.end()?;
    Some(Call::Put { loan, index, word })
}

#[tactic(auto, unfolding(script_grammar::specs::LineReading::read_fill))]
#[inline(never)]
fn fill_of(tokens: &mut Tokens) -> Option<Call>
    ensures { result ≡ read_fill tokens.old }
{
    let loan = tokens.name()?;
    let handle = tokens.name()?;
    let value = tokens.value()?;
    tokens.end()?;
    Some(Call::Fill {
        loan,
        handle,
        value,
    })
}

// Each call is read by a function of its own, so that the one that picks has little to set up.
#[inline(never)]
fn reader_of(tokens: &mut Tokens) -> Option<Call>
    ensures { result ≡ read_reader tokens.old }
{
    let (reader, factory) = two_names(tokens)?;
    Some(Call::Reader { reader, factory })
}

#[inline(never)]
fn writer_of(tokens: &mut Tokens) -> Option<Call>
    ensures { result ≡ read_writer tokens.old }
{
    let (writer, factory) = two_names(tokens)?;
    Some(Call::Writer { writer, factory })
}

#[inline(never)]
fn fresh_of(tokens: &mut Tokens) -> Option<Call>
    ensures { result ≡ read_fresh tokens.old }
{
    let (handle, value) = two_names(tokens)?;
    Some(Call::Fresh { handle, value })
}

#[inline(never)]
fn loan_of(tokens: &mut Tokens) -> Option<Call>
    ensures { result ≡ read_loan tokens.old }
{
    let (loan, handle) = two_names(tokens)?;
    Some(Call::Loan { loan, handle })
}

#[inline(never)]
fn discard_of(tokens: &mut Tokens) -> Option<Call>
    ensures { result ≡ read_discard tokens.old }
{
    let (loan, handle) = two_names(tokens)?;
    Some(Call::Discard { loan, handle })
}

#[inline(never)]
fn publish_of(tokens: &mut Tokens) -> Option<Call>
    ensures { result ≡ read_publish tokens.old }
{
    let (loan, handle) = two_names(tokens)?;
    Some(Call::Publish { loan, handle })
}

#[inline(never)]
fn gen_of(tokens: &mut Tokens) -> Option<Call>
    ensures { result ≡ read_gen tokens.old }
{
    let handle = one_name(tokens)?;
    Some(Call::Gen { handle })
}

#[inline(never)]
fn keys_of(tokens: &mut Tokens) -> Option<Call>
    ensures { result ≡ read_keys tokens.old }
{
    let factory = one_name(tokens)?;
    Some(Call::Keys { factory })
}

#[inline(never)]
fn nodes_of(tokens: &mut Tokens) -> Option<Call>
    ensures { result ≡ read_nodes tokens.old }
{
    let factory = one_name(tokens)?;
    Some(Call::Nodes { factory })
}

#[inline(never)]
fn info_of(tokens: &mut Tokens) -> Option<Call>
    ensures { result ≡ read_info tokens.old }
{
    let factory = one_name(tokens)?;
    Some(Call::Info { factory })
}

#[inline(never)]
fn id_of(tokens: &mut Tokens) -> Option<Call>
    ensures { result ≡ read_id tokens.old }
{
    let thing = one_name(tokens)?;
    Some(Call::Id { thing })
}

#[inline(never)]
fn entry_of(tokens: &mut Tokens) -> Option<Call>
    ensures { result ≡ read_entry tokens.old }
{
    let (handle, reader, key, value_type) = entry_parts(tokens)?;
    Some(Call::Entry {
        handle,
        reader,
        key,
        value_type,
    })
}

#[inline(never)]
fn entrymut_of(tokens: &mut Tokens) -> Option<Call>
    ensures { result ≡ read_entrymut tokens.old }
{
    let (handle, writer, key, value_type) = entry_parts(tokens)?;
    Some(Call::EntryMut {
        handle,
        writer,
        key,
        value_type,
    })
}

// The call of a word with two names or one behind it.
#[tactic(auto, unfolding(script_grammar::specs::LineReading::read_named_call))]
fn named_call_of(word: &[u8], tokens: &mut Tokens) -> Option<Call>
    ensures { result ≡ read_named_call word.now tokens.old }
{
    if is_word(word, b"reader") {
        return reader_of(tokens);
    }
    if is_word(word, b"writer") {
        return writer_of(tokens);
    }
    if is_word(word, b"fresh") {
        return fresh_of(tokens);
    }
    if is_word(word, b"loan") {
        return loan_of(tokens);
    }
    if is_word(word, b"discard") {
        return discard_of(tokens);
    }
    if is_word(word, b"publish") {
        return publish_of(tokens);
    }
    if is_word(word, b"gen") {
        return gen_of(tokens);
    }
    if is_word(word, b"keys") {
        return keys_of(tokens);
    }
    if is_word(word, b"nodes") {
        return nodes_of(tokens);
    }
    if is_word(word, b"info") {
        return info_of(tokens);
    }
    if is_word(word, b"id") {
        return id_of(tokens);
    }
    None
}

// The call of a word, but for the two that have optional parts.
#[tactic(auto, unfolding(script_grammar::specs::LineReading::read_plain_call))]
#[inline(never)]
fn plain_call_of(word: &[u8], tokens: &mut Tokens) -> Option<Call>
    ensures { result ≡ read_plain_call word.now tokens.old }
{
    if is_word(word, b"entry") {
        return entry_of(tokens);
    }
    if is_word(word, b"entrymut") {
        return entrymut_of(tokens);
    }
    if is_word(word, b"get") {
        return get_of(tokens);
    }
    if is_word(word, b"update") {
        return update_of(tokens);
    }
    if is_word(word, b"put") {
        return put_of(tokens);
    }
    if is_word(word, b"fill") {
        return fill_of(tokens);
    }
    named_call_of(word, tokens)
}

// What the `create` makes that stands here, where one does. Takes no memory.
#[tactic(auto, unfolding(script_grammar::specs::LineReading::read_create))]
fn create_made(tokens: &mut Tokens) -> Option<Made>
    ensures { result ≡ and_then (read_create tokens.old) board_made }
{
    let (factory, _name, key_type, _limits) = tokens.board()?;
    tokens.limit(b"writers")?;
    if !skip_parts::<Attribute>(b"attr", tokens) {
        return None;
    }
    let is_typed = have_key_type(key_type, tokens)?;
    Some(Made {
        name: factory,
        is_typed,
    })
}

#[tactic(auto, unfolding(script_grammar::specs::LineReading::read_create))]
fn collect_create(alloc: Global, tokens: &mut Tokens) -> Result<Option<Call>, AllocError>
    ensures { IfOk result (λ o. o ≡ read_create tokens.old) }
{
    let Some((factory, name, key_type, shared)) = tokens.board() else {
        return Ok(None);
    };
    let Some(max_writers) = tokens.limit(b"writers") else {
        return Ok(None);
    };
    let Some(attributes) = attributes_of(alloc, b"attr", tokens)? else {
        return Ok(None);
    };
    let Some(entries) = entries_of(alloc, tokens)? else {
        return Ok(None);
    };
    Ok(Some(Call::Create {
        factory,
        name: LongName::new(alloc, name)?,
        key_type,
        limits: NewLimits {
            shared,
            max_writers,
        },
        attributes,
        entries,
    }))
}

// Where memory is refused in the midst of it, what is left is looked at all the same: a line outside the grammar wants none.
#[inline(never)]
fn create_of(alloc: Global, tokens: &mut Tokens) -> Result<Option<Call>, Made>
    ensures read { IfOk result (λ o. o ≡ read_create tokens.old) }
    ensures memory { IfErr result (λ made. and_then (read_create tokens.old) board_made ≡ Some made) }
{
    let mut again = tokens.again();
    match collect_create(alloc, tokens) {
        Ok(call) => Ok(call),
        Err(AllocError) => match create_made(&mut again) {
            Some(made) => Err(made),
            None => Ok(None),
        },
    }
}

// Passes over what an opener needs. Takes no memory.
#[tactic(auto, unfolding(script_grammar::specs::LineReading::read_needs))]
fn skip_needs(tokens: &mut Tokens) -> bool
    ensures { rest_where result tokens.new ≡ left_behind (read_needs tokens.old) }
{
    if !skip_parts::<Attribute>(b"need", tokens) {
        return false;
    }
    skip_parts::<Text<64>>(b"needkey", tokens)
}

// What the `open` makes that stands here, where one does. Takes no memory.
#[tactic(auto, unfolding(script_grammar::specs::LineReading::read_open))]
fn open_made(tokens: &mut Tokens) -> Option<Made>
    ensures { result ≡ and_then (read_open tokens.old) board_made }
{
    let (factory, _name, _key_type, _limits) = tokens.board()?;
    if !skip_needs(tokens) {
        return None;
    }
    tokens.end()?;
    Some(Made {
        name: factory,
        is_typed: true,
    })
}

#[tactic(auto, unfolding(script_grammar::specs::LineReading::read_open))]
fn collect_open(alloc: Global, tokens: &mut Tokens) -> Result<Option<Call>, AllocError>
    ensures { IfOk result (λ o. o ≡ read_open tokens.old) }
{
    let Some((factory, name, key_type, limits)) = tokens.board() else {
        return Ok(None);
    };
    let Some(needs) = needs_of(alloc, tokens)? else {
        return Ok(None);
    };
    if !tokens.is_end() {
        return Ok(None);
    }
    Ok(Some(Call::Open {
        factory,
        name: LongName::new(alloc, name)?,
        key_type,
        limits,
        needs,
    }))
}

// The same as for a `create`.
#[inline(never)]
fn open_of(alloc: Global, tokens: &mut Tokens) -> Result<Option<Call>, Made>
    ensures read { IfOk result (λ o. o ≡ read_open tokens.old) }
    ensures memory { IfErr result (λ made. and_then (read_open tokens.old) board_made ≡ Some made) }
{
    let mut again = tokens.again();
    match collect_open(alloc, tokens) {
        Ok(call) => Ok(call),
        Err(AllocError) => match open_made(&mut again) {
            Some(made) => Err(made),
            None => Ok(None),
        },
    }
}

// A call, by its word. Where memory is refused, what the call makes.
#[tactic(auto, unfolding(script_grammar::specs::LineReading::read_call))]
pub(crate) fn call_of(alloc: Global, tokens: &mut Tokens) -> Result<Option<Call>, Made>
    ensures read { IfOk result (λ o. o ≡ read_call tokens.old) }
    ensures memory { IfErr result (λ made. and_then (read_call tokens.old) board_made ≡ Some made) }
{
    let Some(word) = tokens.next() else {
        return Ok(None);
    };
    if is_word(word, b"create") {
        return create_of(alloc, tokens);
    }
    if is_word(word, b"open") {
        return open_of(alloc, tokens);
    }
    Ok(plain_call_of(word, tokens))
}
