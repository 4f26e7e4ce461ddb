//! Replies as bytes, written to the end of the caller's buffer.
ghost use Rattle.std.specs.Prelude.{◌≡◌, ◌≤◌, ◌++◌, ◌∷◌, ◌==◌, OnErr, OnOk, decimal, map, slice_index, vec_capacity};
ghost use Rattle.std.specs.List.{flat_map, join_with_byte};
ghost use Rattle.board_model.specs.declared.answer.Reply.TheVariants as reply;
ghost use Rattle.board_model.specs.AnswerGrammar.{info_text, key_item_text, name_item_text, number_text, reply_text, words_text};
ghost use Rattle.board_model.specs.LineGrammar.{key_text};
ghost use Rattle.script_print.specs.Room.{LacksRoomFor};
ghost use Rattle.script_print.specs.Texts.{comma_text, counts_text};

use crate::answers::{push_digits, push_number};
use crate::names::{
    create_error_path, entry_error_path, entry_mut_error_path, key_type_name, open_error_path,
    reader_error_path, writer_error_path,
};
use board_model::{Info, Key, Name, Reply, ValueType};
use std::alloc::AllocError;

// Adds numbers, with a comma before each.
fn push_behind_commas(numbers: &[u64], out: &mut Vec<u8>) -> Result<(), AllocError>
    ensures ok { OnOk result (out.new.items ≡ out.old.items ++ flat_map comma_text numbers.now) }
    ensures room { OnErr result (LacksRoomFor out.old (flat_map comma_text numbers.now)) }
    ensures grows { vec_capacity out.old ≤ vec_capacity out.new }
{
    for number in numbers {
        out.push(b',')?;
        push_digits(*number, out)?;
    }
    Ok(())
}

// Adds numbers, with commas between them.
fn push_parted(numbers: &[u64], out: &mut Vec<u8>) -> Result<(), AllocError>
    ensures ok { OnOk result (out.new.items
        ≡ out.old.items ++ join_with_byte 44 (map decimal numbers.now)) }
    ensures room { OnErr result (LacksRoomFor out.old
        (join_with_byte 44 (map decimal numbers.now))) }
    ensures grows { vec_capacity out.old ≤ vec_capacity out.new }
{
    match numbers {
        [] => Ok(()),
        [first, rest @ ..] => {
            push_digits(*first, out)?;
            push_behind_commas(rest, out)
        }
    }
}

fn is_false(words: &[u64]) -> bool
    ensures { result ≡ (slice_index words.now 0 == 0) }
{
    match words {
        [] => true,
        [first, ..] => *first == 0,
    }
}

// Adds a value, with its type before it. The words are the value's.
fn push_value(value_type: ValueType, words: &[u64], out: &mut Vec<u8>) -> Result<(), AllocError>
    ensures ok { OnOk result (out.new.items ≡ out.old.items ++ words_text value_type words.now) }
    ensures room { OnErr result (LacksRoomFor out.old (words_text value_type words.now)) }
    ensures grows { vec_capacity out.old ≤ vec_capacity out.new }
{
    match value_type {
        ValueType::Bool => {
            if is_false(words) {
                out.extend_from_slice(b"bool:false")
            } else {
                out.extend_from_slice(b"bool:true")
            }
        }
        ValueType::U64 => {
            out.extend_from_slice(b"u64:")?;
            push_parted(words, out)
        }
        ValueType::Q4 => {
            out.extend_from_slice(b"q4:")?;
            push_parted(words, out)
        }
    }
}

fn push_key(key: &Key, out: &mut Vec<u8>) -> Result<(), AllocError>
    ensures ok { OnOk result (out.new.items ≡ out.old.items ++ key_text key.now) }
    ensures room { OnErr result (LacksRoomFor out.old (key_text key.now)) }
    ensures grows { vec_capacity out.old ≤ vec_capacity out.new }
{
    match key {
        Key::U64(n) => {
            out.extend_from_slice(b"u64:")?;
            push_digits(*n, out)
        }
        Key::F8(text) => {
            out.extend_from_slice(b"f8:")?;
            out.extend_from_slice(text.as_bytes())
        }
    }
}

// Adds keys, with a space before each.
fn push_keys(keys: &[Key], out: &mut Vec<u8>) -> Result<(), AllocError>
    ensures ok { OnOk result (out.new.items ≡ out.old.items ++ flat_map key_item_text keys.now) }
    ensures room { OnErr result (LacksRoomFor out.old (flat_map key_item_text keys.now)) }
    ensures grows { vec_capacity out.old ≤ vec_capacity out.new }
{
    for key in keys {
        out.push(b' ')?;
        push_key(key, out)?;
    }
    Ok(())
}

// Adds names, with a space before each.
fn push_names(names: &[Name], out: &mut Vec<u8>) -> Result<(), AllocError>
    ensures ok { OnOk result (out.new.items ≡ out.old.items ++ flat_map name_item_text names.now) }
    ensures room { OnErr result (LacksRoomFor out.old (flat_map name_item_text names.now)) }
    ensures grows { vec_capacity out.old ≤ vec_capacity out.new }
{
    for name in names {
        out.push(b' ')?;
        out.extend_from_slice(name.as_bytes())?;
    }
    Ok(())
}

// Adds a word, a space and a number. It is inlined because most words are literals, whose copy is then short.
#[inline(always)]
pub(crate) fn push_counted(word: &[u8], n: u64, out: &mut Vec<u8>) -> Result<(), AllocError>
    ensures ok { OnOk result (out.new.items ≡ out.old.items ++ (word.now ++ number_text n)) }
    ensures room { OnErr result (LacksRoomFor out.old (word.now ++ number_text n)) }
    ensures grows { vec_capacity out.old ≤ vec_capacity out.new }
{
    out.extend_from_slice(word)?;
    push_number(n, out)
}

// Adds one text and then the other.
pub(crate) fn push_both(first: &[u8], second: &[u8], out: &mut Vec<u8>) -> Result<(), AllocError>
    ensures ok { OnOk result (out.new.items ≡ out.old.items ++ (first.now ++ second.now)) }
    ensures room { OnErr result (LacksRoomFor out.old (first.now ++ second.now)) }
    ensures grows { vec_capacity out.old ≤ vec_capacity out.new }
{
    out.extend_from_slice(first)?;
    out.extend_from_slice(second)
}

// Adds how many entries and attributes a board has, and how many readers, writers and nodes use it.
fn push_counts(info: &Info, out: &mut Vec<u8>) -> Result<(), AllocError>
    ensures ok { OnOk result (out.new.items ≡ out.old.items ++ counts_text info.now) }
    ensures room { OnErr result (LacksRoomFor out.old (counts_text info.now)) }
    ensures grows { vec_capacity out.old ≤ vec_capacity out.new }
{
    push_counted(b" entries", info.entries, out)?;
    push_counted(b" attrs", info.attributes, out)?;
    push_counted(b" taken", info.readers, out)?;
    push_number(info.writers, out)?;
    push_number(info.nodes, out)
}

fn push_info(info: &Info, out: &mut Vec<u8>) -> Result<(), AllocError>
    ensures ok { OnOk result (out.new.items ≡ out.old.items ++ info_text info.now) }
    ensures room { OnErr result (LacksRoomFor out.old (info_text info.now)) }
    ensures grows { vec_capacity out.old ≤ vec_capacity out.new }
{
    push_both(b"info ", info.name.as_text().as_bytes(), out)?;
    push_both(b" ", key_type_name(info.key_type), out)?;
    push_counted(b" readers", info.max_readers, out)?;
    push_counted(b" nodes", info.max_nodes, out)?;
    push_counted(b" writers", info.max_writers, out)?;
    push_counts(info, out)
}

// Adds the value that a get has read, and its generation.
pub(crate) fn push_value_read(
    value_type: ValueType,
    words: &[u64],
    generation: u64,
    out: &mut Vec<u8>,
) -> Result<(), AllocError>
    ensures ok { OnOk result (out.new.items
        ≡ out.old.items ++ reply_text (reply.Got value_type words.now generation)) }
    ensures room { OnErr result (LacksRoomFor out.old
        (reply_text (reply.Got value_type words.now generation))) }
    ensures grows { vec_capacity out.old ≤ vec_capacity out.new }
{
    push_value(value_type, words, out)?;
    push_counted(b" gen", generation, out)
}

// Adds the reply to a call.
pub(crate) fn push_reply(reply: &Reply, out: &mut Vec<u8>) -> Result<(), AllocError>
    ensures ok { OnOk result (out.new.items ≡ out.old.items ++ reply_text reply.now) }
    ensures room { OnErr result (LacksRoomFor out.old (reply_text reply.now)) }
    ensures grows { vec_capacity out.old ≤ vec_capacity out.new }
{
    match reply {
        Reply::Done => out.extend_from_slice(b"ok"),
        Reply::Number(n) => push_counted(b"ok", *n, out),
        Reply::Got {
            value_type,
            words,
            generation,
        } => push_value_read(*value_type, words.as_slice(), *generation, out),
        Reply::Fresh(true) => out.extend_from_slice(b"true"),
        Reply::Fresh(false) => out.extend_from_slice(b"false"),
        Reply::Keys(keys) => {
            out.extend_from_slice(b"keys")?;
            push_keys(keys.as_slice(), out)
        }
        Reply::Nodes(names) => {
            out.extend_from_slice(b"nodes")?;
            push_names(names.as_slice(), out)
        }
        Reply::Info(info) => push_info(info, out),
        Reply::Id(n) => push_counted(b"id", *n, out),
        Reply::Generation(n) => push_counted(b"gen", *n, out),
        Reply::CreateError(error) => out.extend_from_slice(create_error_path(*error)),
        Reply::OpenError(error) => out.extend_from_slice(open_error_path(*error)),
        Reply::ReaderError(error) => out.extend_from_slice(reader_error_path(*error)),
        Reply::WriterError(error) => out.extend_from_slice(writer_error_path(*error)),
        Reply::EntryError(error) => out.extend_from_slice(entry_error_path(*error)),
        Reply::EntryMutError(error) => out.extend_from_slice(entry_mut_error_path(*error)),
    }
}
