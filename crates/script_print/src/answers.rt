//! Answers as bytes, written to the end of the caller's buffer.
ghost use Rattle.std.specs.Prelude.{◌≡◌, ◌+◌, ◌<◌, ◌≤◌, ◌++◌, if◌then◌else◌, None, OnErr, OnOk, Some, codes, decimal, vec_capacity};
ghost use Rattle.std.specs.List.{flat_map};
ghost use Rattle.board_cell_model.specs.declared.access.Access.TheVariants as access;
ghost use Rattle.board_model.specs.declared.answer.Answer.TheVariants as answer;
ghost use Rattle.board_model.specs.declared.answer.Reply.TheVariants as reply;
ghost use Rattle.board_model.specs.AnswerGrammar.{access_text, answer_line, answer_text, number_text, place_text, reply_text, told_text};
ghost use Rattle.script_print.specs.Room.{LacksRoomFor};

use crate::names::refusal_line;
use crate::replies::{push_reply, push_value_read};
use board_cell_model::Access;
use board_model::{Answer, Reason, Reply, ValueType};
use itoa::Buffer;
use std::alloc::AllocError;

// Adds a number. A single digit, the most frequent case, is pushed right here.
#[inline(always)]
pub(crate) fn push_digits(n: u64, out: &mut Vec<u8>) -> Result<(), AllocError>
    ensures ok { OnOk result (out.new.items ≡ out.old.items ++ decimal n) }
    ensures room { OnErr result (LacksRoomFor out.old (decimal n)) }
    ensures grows { vec_capacity out.old ≤ vec_capacity out.new }
{
    if n < 10 {
        out.push(digit(n))?;
        return Ok(());
    }
    push_more_digits(n, out)
}

// Adds a number of two or more digits. Both ways are calls, so that what inlines this stays short.
#[inline(always)]
fn push_more_digits(n: u64, out: &mut Vec<u8>) -> Result<(), AllocError>
    requires { 10 ≤ n }
    ensures ok { OnOk result (out.new.items ≡ out.old.items ++ decimal n) }
    ensures room { OnErr result (LacksRoomFor out.old (decimal n)) }
    ensures grows { vec_capacity out.old ≤ vec_capacity out.new }
{
    if n < 10000 {
        return push_few_digits(n, out);
    }
    push_many_digits(n, out)
}

// Adds a number of two to four digits, with one copy.
#[inline(never)]
fn push_few_digits(n: u64, out: &mut Vec<u8>) -> Result<(), AllocError>
    requires low { 10 ≤ n }
    requires high { n < 10000 }
    ensures ok { OnOk result (out.new.items ≡ out.old.items ++ decimal n) }
    ensures room { OnErr result (LacksRoomFor out.old (decimal n)) }
    ensures grows { vec_capacity out.old ≤ vec_capacity out.new }
{
    if n < 100 {
        return push_two_digits(n, out);
    }
    if n < 1000 {
        return push_three_digits(n, out);
    }
    push_four_digits(n, out)
}

// Adds any number. Its digits are first written to a buffer, and copied from there.
#[inline(never)]
fn push_many_digits(n: u64, out: &mut Vec<u8>) -> Result<(), AllocError>
    ensures ok { OnOk result (out.new.items ≡ out.old.items ++ decimal n) }
    ensures room { OnErr result (LacksRoomFor out.old (decimal n)) }
    ensures grows { vec_capacity out.old ≤ vec_capacity out.new }
{
    let mut buffer = Buffer::new();
    out.extend_from_slice(buffer.format(n).as_bytes())
}

// The character of a digit.
#[inline(always)]
fn digit(n: u64) -> u8
    requires { n < 10 }
    ensures { result ≡ 48 + n }
{
    b'0' + n as u8
}

// Adds a number of two digits.
#[inline(always)]
fn push_two_digits(n: u64, out: &mut Vec<u8>) -> Result<(), AllocError>
    requires low { 10 ≤ n }
    requires high { n < 100 }
    ensures ok { OnOk result (out.new.items ≡ out.old.items ++ decimal n) }
    ensures room { OnErr result (LacksRoomFor out.old (decimal n)) }
    ensures grows { vec_capacity out.old ≤ vec_capacity out.new }
{
    out.extend_from_slice(&[digit(n / 10), digit(n % 10)])
}

// Adds a number of three digits.
#[inline(always)]
fn push_three_digits(n: u64, out: &mut Vec<u8>) -> Result<(), AllocError>
    requires low { 100 ≤ n }
    requires high { n < 1000 }
    ensures ok { OnOk result (out.new.items ≡ out.old.items ++ decimal n) }
    ensures room { OnErr result (LacksRoomFor out.old (decimal n)) }
    ensures grows { vec_capacity out.old ≤ vec_capacity out.new }
{
    out.extend_from_slice(&[digit(n / 100), digit(n / 10 % 10), digit(n % 10)])
}

// Adds a number of four digits.
#[inline(always)]
fn push_four_digits(n: u64, out: &mut Vec<u8>) -> Result<(), AllocError>
    requires low { 1000 ≤ n }
    requires high { n < 10000 }
    ensures ok { OnOk result (out.new.items ≡ out.old.items ++ decimal n) }
    ensures room { OnErr result (LacksRoomFor out.old (decimal n)) }
    ensures grows { vec_capacity out.old ≤ vec_capacity out.new }
{
    out.extend_from_slice(&[
        digit(n / 1000),
        digit(n / 100 % 10),
        digit(n / 10 % 10),
        digit(n % 10),
    ])
}

// Adds a space and a number. A single digit is copied together with the space.
pub(crate) fn push_number(n: u64, out: &mut Vec<u8>) -> Result<(), AllocError>
    ensures ok { OnOk result (out.new.items ≡ out.old.items ++ number_text n) }
    ensures room { OnErr result (LacksRoomFor out.old (number_text n)) }
    ensures grows { vec_capacity out.old ≤ vec_capacity out.new }
{
    if n < 10 {
        return out.extend_from_slice(&[b' ', digit(n)]);
    }
    out.push(b' ')?;
    push_more_digits(n, out)
}

// Adds an access: its kind, and then board, word and value, such as `0:12 7`.
#[inline(always)]
fn push_place(
    kind: &[u8],
    board: u64,
    word: u64,
    value: u64,
    out: &mut Vec<u8>,
) -> Result<(), AllocError>
    ensures ok { OnOk result (out.new.items
        ≡ out.old.items ++ (kind.now ++ place_text board word value)) }
    ensures room { OnErr result (LacksRoomFor out.old (kind.now ++ place_text board word value)) }
    ensures grows { vec_capacity out.old ≤ vec_capacity out.new }
{
    out.extend_from_slice(kind)?;
    push_digits(board, out)?;
    out.push(b':')?;
    push_digits(word, out)?;
    push_number(value, out)
}

// Adds a read, where the board's number has one digit and the word's has two.
#[inline(always)]
fn push_read_of_two(board: u64, word: u64, value: u64, out: &mut Vec<u8>) -> Result<(), AllocError>
    requires board { board < 10 }
    requires low { 10 ≤ word }
    requires high { word < 100 }
    ensures ok { OnOk result (out.new.items
        ≡ out.old.items ++ access_text (access.Read board word value)) }
    ensures room { OnErr result (LacksRoomFor out.old (access_text (access.Read board word value))) }
    ensures grows { vec_capacity out.old ≤ vec_capacity out.new }
{
    let mut place = *b"read 0:00 ";
    place[5] = digit(board);
    place[7] = digit(word / 10);
    place[8] = digit(word % 10);
    out.extend_from_slice(&place)?;
    push_digits(value, out)
}

// Adds a read. The numbers of most boards have one digit, and those of most words one or two. Then all that comes before
// the value is copied at once.
#[inline(always)]
fn push_read(board: u64, word: u64, value: u64, out: &mut Vec<u8>) -> Result<(), AllocError>
    ensures ok { OnOk result (out.new.items
        ≡ out.old.items ++ access_text (access.Read board word value)) }
    ensures room { OnErr result (LacksRoomFor out.old (access_text (access.Read board word value))) }
    ensures grows { vec_capacity out.old ≤ vec_capacity out.new }
{
    if board > 9 || word > 99 {
        return push_place(b"read ", board, word, value, out);
    }
    if word > 9 {
        return push_read_of_two(board, word, value, out);
    }
    let mut place = *b"read 0:0 ";
    place[5] = digit(board);
    place[7] = digit(word);
    out.extend_from_slice(&place)?;
    push_digits(value, out)
}

// Adds a write, where the board's number has one digit and the word's has two.
#[inline(always)]
fn push_write_of_two(board: u64, word: u64, value: u64, out: &mut Vec<u8>) -> Result<(), AllocError>
    requires board { board < 10 }
    requires low { 10 ≤ word }
    requires high { word < 100 }
    ensures ok { OnOk result (out.new.items
        ≡ out.old.items ++ access_text (access.Write board word value)) }
    ensures room { OnErr result (LacksRoomFor out.old (access_text (access.Write board word value))) }
    ensures grows { vec_capacity out.old ≤ vec_capacity out.new }
{
    let mut place = *b"write 0:00 ";
    place[6] = digit(board);
    place[8] = digit(word / 10);
    place[9] = digit(word % 10);
    out.extend_from_slice(&place)?;
    push_digits(value, out)
}

// Adds a write, with the same short ways as `push_read`.
#[inline(always)]
fn push_write(board: u64, word: u64, value: u64, out: &mut Vec<u8>) -> Result<(), AllocError>
    ensures ok { OnOk result (out.new.items
        ≡ out.old.items ++ access_text (access.Write board word value)) }
    ensures room { OnErr result (LacksRoomFor out.old (access_text (access.Write board word value))) }
    ensures grows { vec_capacity out.old ≤ vec_capacity out.new }
{
    if board > 9 || word > 99 {
        return push_place(b"write ", board, word, value, out);
    }
    if word > 9 {
        return push_write_of_two(board, word, value, out);
    }
    let mut place = *b"write 0:0 ";
    place[6] = digit(board);
    place[8] = digit(word);
    out.extend_from_slice(&place)?;
    push_digits(value, out)
}

#[inline(always)]
fn push_access(access: Access, out: &mut Vec<u8>) -> Result<(), AllocError>
    ensures ok { OnOk result (out.new.items ≡ out.old.items ++ access_text access) }
    ensures room { OnErr result (LacksRoomFor out.old (access_text access)) }
    ensures grows { vec_capacity out.old ≤ vec_capacity out.new }
{
    match access {
        Access::Table => out.extend_from_slice(b"table"),
        Access::Read { board, word, value } => push_read(board, word, value, out),
        Access::Write { board, word, value } => push_write(board, word, value, out),
    }
}

// Ends the line of a step. If the step was the last of its call, the reply comes before the newline.
#[inline(always)]
fn push_end(reply: &Option<Reply>, out: &mut Vec<u8>) -> Result<(), AllocError>
    ensures ok { OnOk result (out.new.items ≡ out.old.items ++ (told_text reply.now ++ codes "\n")) }
    ensures room { OnErr result (LacksRoomFor out.old (told_text reply.now ++ codes "\n")) }
    ensures grows { vec_capacity out.old ≤ vec_capacity out.new }
{
    match reply {
        None => {
            out.push(b'\n')?;
            Ok(())
        }
        Some(Reply::Done) => out.extend_from_slice(b" = ok\n"),
        Some(reply) => push_told(reply, out),
    }
}

// Ends the line of the last step of a call, with its reply.
#[inline(never)]
fn push_told(reply: &Reply, out: &mut Vec<u8>) -> Result<(), AllocError>
    ensures ok { OnOk result (out.new.items ≡ out.old.items ++ (told_text (Some reply.now) ++ codes "\n")) }
    ensures room { OnErr result (LacksRoomFor out.old (told_text (Some reply.now) ++ codes "\n")) }
    ensures grows { vec_capacity out.old ≤ vec_capacity out.new }
{
    out.extend_from_slice(b" = ")?;
    push_reply(reply, out)?;
    out.push(b'\n')?;
    Ok(())
}

// Adds numbers, with a space before each.
pub(crate) fn push_numbers(numbers: &[u64], out: &mut Vec<u8>) -> Result<(), AllocError>
    ensures ok { OnOk result (out.new.items ≡ out.old.items ++ flat_map number_text numbers.now) }
    ensures room { OnErr result (LacksRoomFor out.old (flat_map number_text numbers.now)) }
    ensures grows { vec_capacity out.old ≤ vec_capacity out.new }
{
    for number in numbers {
        push_number(*number, out)?;
    }
    Ok(())
}

/// Adds the answer to a `begin` that was accepted.
///
/// # Errors
/// `AllocError` where the buffer has no room for the line and gets no memory. Nothing is added then.
pub fn push_begun(out: &mut Vec<u8>) -> Result<(), AllocError>
    ensures ok { OnOk result (out.new.items ≡ out.old.items ++ answer_line answer.Begun) }
    ensures room { OnErr result (LacksRoomFor out.old (answer_line answer.Begun)) }
    ensures grows { vec_capacity out.old ≤ vec_capacity out.new }
    ensures err { OnErr result (out.new.items ≡ out.old.items) }
{
    out.extend_from_slice(b"ok\n")
}

/// Adds the answer to an `abandon` that was accepted.
///
/// # Errors
/// `AllocError` where the buffer has no room for the line and gets no memory. Nothing is added then.
pub fn push_gone(out: &mut Vec<u8>) -> Result<(), AllocError>
    ensures ok { OnOk result (out.new.items ≡ out.old.items ++ answer_line answer.Gone) }
    ensures room { OnErr result (LacksRoomFor out.old (answer_line answer.Gone)) }
    ensures grows { vec_capacity out.old ≤ vec_capacity out.new }
    ensures err { OnErr result (out.new.items ≡ out.old.items) }
{
    out.extend_from_slice(b"gone\n")
}

/// Adds the line of a refusal, which tells the reason.
///
/// # Errors
/// `AllocError` where the buffer has no room for the line and gets no memory. Nothing is added then.
pub fn push_refused(reason: Reason, out: &mut Vec<u8>) -> Result<(), AllocError>
    ensures ok { OnOk result (out.new.items
        ≡ out.old.items ++ answer_line (answer.Refused reason)) }
    ensures room { OnErr result (LacksRoomFor out.old (answer_line (answer.Refused reason))) }
    ensures grows { vec_capacity out.old ≤ vec_capacity out.new }
    ensures err { OnErr result (out.new.items ≡ out.old.items) }
{
    out.extend_from_slice(refusal_line(reason))
}

/// Adds the line of a step: its access, and the reply if it was the last step of its call.
///
/// # Errors
/// `AllocError` where the buffer has no room for the line and gets no memory. The beginning of the line may have been added then.
pub fn push_step(access: Access, reply: &Option<Reply>, out: &mut Vec<u8>) -> Result<(), AllocError>
    ensures ok { OnOk result (out.new.items
        ≡ out.old.items ++ answer_line (answer.Step access reply.now)) }
    ensures room { OnErr result (LacksRoomFor out.old
        (answer_line (answer.Step access reply.now))) }
    ensures grows { vec_capacity out.old ≤ vec_capacity out.new }
{
    push_access(access, out)?;
    push_end(reply, out)
}

/// Adds the line of a step of a call whose reply is `ok`, once it is done.
///
/// # Errors
/// `AllocError` where the buffer has no room for the line and gets no memory. The beginning of the line may have been added then.
pub fn push_access_made(access: Access, is_done: bool, out: &mut Vec<u8>) -> Result<(), AllocError>
    ensures ok { OnOk result (out.new.items ≡ out.old.items
        ++ answer_line (answer.Step access (if is_done then Some reply.Done else None))) }
    ensures room { OnErr result (LacksRoomFor out.old
        (answer_line (answer.Step access (if is_done then Some reply.Done else None)))) }
    ensures grows { vec_capacity out.old ≤ vec_capacity out.new }
{
    push_access(access, out)?;
    if is_done {
        return out.extend_from_slice(b" = ok\n");
    }
    out.push(b'\n')?;
    Ok(())
}

/// Adds the line of the last step of a get, whose reply is the value that was read.
///
/// # Errors
/// `AllocError` where the buffer has no room for the line and gets no memory. The beginning of the line may have been added then.
pub fn push_got(
    access: Access,
    value_type: ValueType,
    words: &[u64],
    generation: u64,
    out: &mut Vec<u8>,
) -> Result<(), AllocError>
    ensures ok { OnOk result (out.new.items ≡ out.old.items
        ++ answer_line (answer.Step access (Some (reply.Got value_type words.now generation)))) }
    ensures room { OnErr result (LacksRoomFor out.old
        (answer_line (answer.Step access (Some (reply.Got value_type words.now generation))))) }
    ensures grows { vec_capacity out.old ≤ vec_capacity out.new }
{
    push_access(access, out)?;
    out.extend_from_slice(b" = ")?;
    push_value_read(value_type, words, generation, out)?;
    out.push(b'\n')?;
    Ok(())
}

/// Adds the line that lists these words, as `words 1 2 3`.
///
/// # Errors
/// `AllocError` where the buffer has no room for the line and gets no memory. The beginning of the line may have been added then.
pub fn push_words(words: &[u64], out: &mut Vec<u8>) -> Result<(), AllocError>
    ensures ok { OnOk result (out.new.items
        ≡ out.old.items ++ answer_line (answer.Words words.now)) }
    ensures room { OnErr result (LacksRoomFor out.old (answer_line (answer.Words words.now))) }
    ensures grows { vec_capacity out.old ≤ vec_capacity out.new }
{
    out.extend_from_slice(b"words")?;
    push_numbers(words, out)?;
    out.push(b'\n')?;
    Ok(())
}

/// Adds the line of any answer.
///
/// # Errors
/// `AllocError` where the buffer has no room for the line and gets no memory. The beginning of the line may have been added then.
pub fn push_answer(answer: &Answer, out: &mut Vec<u8>) -> Result<(), AllocError>
    ensures ok { OnOk result (out.new.items ≡ out.old.items ++ answer_line answer.now) }
    ensures room { OnErr result (LacksRoomFor out.old (answer_line answer.now)) }
    ensures grows { vec_capacity out.old ≤ vec_capacity out.new }
{
    match answer {
        Answer::Begun => push_begun(out),
        Answer::Refused(reason) => push_refused(*reason, out),
        Answer::Step { access, reply } => push_step(*access, reply, out),
        Answer::Gone => push_gone(out),
        Answer::Words(words) => push_words(words.as_slice(), out),
    }
}
