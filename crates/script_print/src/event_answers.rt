//! The bytes of answers to lines of events, which are added to a buffer of the caller's.
ghost use Rattle.std.specs.Prelude.{◌≡◌, ◌≤◌, ◌++◌, OnErr, OnOk, Some, vec_capacity};
ghost use Rattle.std.specs.Option.{option_map};
ghost use Rattle.board_event_model.specs.WaitCalls.{word_in};
ghost use Rattle.board_model.specs.AnswerGrammar.{number_text};
ghost use Rattle.script_model.specs.ScriptAnswers.{event_access_text, event_reply_text, expired, found_text, of_ask, of_event, popped_text, script_answer_line};
ghost use Rattle.script_print.specs.Room.{LacksRoomFor};
ghost use Rattle.script_print.specs.Texts.{end_text, of_kind};

use crate::answers::{push_number, push_numbers};
use crate::names::notify_error_path;
use crate::replies::push_counted;
use board_event_model::{EventAccess, EventAnswer, EventKind};
use script_model::EventReply;
use std::alloc::AllocError;

// Adds an event as an access prints it, behind the word of the access. The word stands before the name of either kind, so
// that both are copied in one go; inlined, so that they are copied as they stand there.
#[inline(always)]
fn push_event(
    on_bits: &[u8],
    on_queue: &[u8],
    kind: EventKind,
    name: &[u8],
    out: &mut Vec<u8>,
) -> Result<(), AllocError>
    ensures ok { OnOk result (out.new.items
        ≡ out.old.items ++ (of_kind kind on_bits.now on_queue.now ++ name.now)) }
    ensures room { OnErr result (LacksRoomFor out.old
        (of_kind kind on_bits.now on_queue.now ++ name.now)) }
    ensures grows { vec_capacity out.old ≤ vec_capacity out.new }
{
    match kind {
        EventKind::Bits => out.extend_from_slice(on_bits)?,
        EventKind::Queue => out.extend_from_slice(on_queue)?,
    }
    out.extend_from_slice(name)
}

// Adds what a look or a signal found.
fn push_found(answer: EventAnswer, out: &mut Vec<u8>) -> Result<(), AllocError>
    ensures ok { OnOk result (out.new.items ≡ out.old.items ++ found_text answer) }
    ensures room { OnErr result (LacksRoomFor out.old (found_text answer)) }
    ensures grows { vec_capacity out.old ≤ vec_capacity out.new }
{
    match answer {
        EventAnswer::Yes => out.extend_from_slice(b" yes"),
        _ => out.extend_from_slice(b" no"),
    }
}

// The word that a scan or a swap read.
fn word_in(answer: EventAnswer) -> u64
    ensures { result ≡ word_in answer }
{
    match answer {
        EventAnswer::Word(word) => word,
        _ => 0,
    }
}

// Adds the number of a word, and what was read of it.
fn push_read(word: u64, answer: EventAnswer, out: &mut Vec<u8>) -> Result<(), AllocError>
    ensures ok { OnOk result (out.new.items
        ≡ out.old.items ++ (number_text word ++ number_text (word_in answer))) }
    ensures room { OnErr result (LacksRoomFor out.old
        (number_text word ++ number_text (word_in answer))) }
    ensures grows { vec_capacity out.old ≤ vec_capacity out.new }
{
    push_number(word, out)?;
    push_number(word_in(answer), out)
}

// Adds what a pop gave.
fn push_popped(answer: EventAnswer, out: &mut Vec<u8>) -> Result<(), AllocError>
    ensures ok { OnOk result (out.new.items ≡ out.old.items ++ popped_text answer) }
    ensures room { OnErr result (LacksRoomFor out.old (popped_text answer)) }
    ensures grows { vec_capacity out.old ≤ vec_capacity out.new }
{
    match answer {
        EventAnswer::Id(id) => push_number(id, out),
        _ => out.extend_from_slice(b" none"),
    }
}

fn push_event_access(
    kind: EventKind,
    name: &[u8],
    access: EventAccess,
    answer: EventAnswer,
    out: &mut Vec<u8>,
) -> Result<(), AllocError>
    ensures ok { OnOk result (out.new.items
        ≡ out.old.items ++ event_access_text kind name.now access answer) }
    ensures room { OnErr result (LacksRoomFor out.old
        (event_access_text kind name.now access answer)) }
    ensures grows { vec_capacity out.old ≤ vec_capacity out.new }
{
    match access {
        EventAccess::Listener => {
            push_event(b"listener bits:", b"listener queue:", kind, name, out)?;
            push_found(answer, out)
        }
        EventAccess::Set(id) => {
            push_event(b"set bits:", b"set queue:", kind, name, out)?;
            push_number(id, out)
        }
        EventAccess::Post => push_event(b"post bits:", b"post queue:", kind, name, out),
        EventAccess::Push(_) => push_event(b"push bits:", b"push queue:", kind, name, out),
        EventAccess::Signal => {
            push_event(b"signal bits:", b"signal queue:", kind, name, out)?;
            push_found(answer, out)
        }
        EventAccess::Scan(word) => {
            push_event(b"scan bits:", b"scan queue:", kind, name, out)?;
            push_read(word, answer, out)
        }
        EventAccess::Clear(id) => {
            push_event(b"clear bits:", b"clear queue:", kind, name, out)?;
            push_number(id, out)
        }
        EventAccess::Swap(word) => {
            push_event(b"swap bits:", b"swap queue:", kind, name, out)?;
            push_read(word, answer, out)
        }
        EventAccess::Pop => {
            push_event(b"pop bits:", b"pop queue:", kind, name, out)?;
            push_popped(answer, out)
        }
    }
}

// Adds what a finished call on events is told.
fn push_event_reply(reply: &EventReply, out: &mut Vec<u8>) -> Result<(), AllocError>
    ensures ok { OnOk result (out.new.items ≡ out.old.items ++ event_reply_text reply.now) }
    ensures room { OnErr result (LacksRoomFor out.old (event_reply_text reply.now)) }
    ensures grows { vec_capacity out.old ≤ vec_capacity out.new }
{
    match reply {
        EventReply::Done => out.extend_from_slice(b"ok"),
        EventReply::Id(id) => push_counted(b"id", *id, out),
        EventReply::Ids(ids) => {
            out.extend_from_slice(b"ids")?;
            push_numbers(ids.as_slice(), out)
        }
        EventReply::Nothing => out.extend_from_slice(b"none"),
        EventReply::AlreadyExists => out.extend_from_slice(b"ListenerCreateError::AlreadyExists"),
        EventReply::DoesNotExist => out.extend_from_slice(b"NotifierCreateError::DoesNotExist"),
        EventReply::NotNotified(error) => out.extend_from_slice(notify_error_path(*error)),
    }
}

// Adds what is told with the last step of a call on events, and ends the line.
#[inline(never)]
fn push_told(reply: &EventReply, out: &mut Vec<u8>) -> Result<(), AllocError>
    ensures ok { OnOk result (out.new.items ≡ out.old.items ++ end_text (Some reply.now)) }
    ensures room { OnErr result (LacksRoomFor out.old (end_text (Some reply.now))) }
    ensures grows { vec_capacity out.old ≤ vec_capacity out.new }
{
    out.extend_from_slice(b" = ")?;
    push_event_reply(reply, out)?;
    out.push(b'\n')?;
    Ok(())
}

// Ends the line of a step, with what its call is told where it ended. What most calls are told is copied with the newline.
#[inline(always)]
fn push_end(told: Option<&EventReply>, out: &mut Vec<u8>) -> Result<(), AllocError>
    ensures ok { OnOk result (out.new.items
        ≡ out.old.items ++ end_text (option_map (λ reply. reply.now) told.entry)) }
    ensures room { OnErr result (LacksRoomFor out.old
        (end_text (option_map (λ reply. reply.now) told.entry))) }
    ensures grows { vec_capacity out.old ≤ vec_capacity out.new }
{
    match told {
        None => {
            out.push(b'\n')?;
            Ok(())
        }
        Some(EventReply::Done) => out.extend_from_slice(b" = ok\n"),
        Some(EventReply::Nothing) => out.extend_from_slice(b" = none\n"),
        Some(reply) => push_told(reply, out),
    }
}

/// Adds the line of a step that took an access to an event, with what its call is told where it ended.
///
/// # Errors
/// `AllocError` where memory is refused, and only where the buffer has no room for the line; then a front of it may have been added.
pub fn push_event_step(
    kind: EventKind,
    name: &[u8],
    access: EventAccess,
    answer: EventAnswer,
    told: Option<&EventReply>,
    out: &mut Vec<u8>,
) -> Result<(), AllocError>
    ensures ok { OnOk result (out.new.items
        ≡ out.old.items ++ script_answer_line (of_event kind name.now access answer (option_map
        (λ reply. reply.now) told.entry))) }
    ensures room { OnErr result (LacksRoomFor out.old
        (script_answer_line (of_event kind name.now access answer (option_map (λ reply.
        reply.now) told.entry)))) }
    ensures grows { vec_capacity out.old ≤ vec_capacity out.new }
{
    push_event_access(kind, name, access, answer, out)?;
    push_end(told, out)
}

/// Adds the line of a step that asked for a listener or a notifier.
///
/// # Errors
/// `AllocError` where memory is refused, and only where the buffer has no room for the line; then a front of it may have been added.
pub fn push_event_asked(reply: &EventReply, out: &mut Vec<u8>) -> Result<(), AllocError>
    ensures ok { OnOk result (out.new.items
        ≡ out.old.items ++ script_answer_line (of_ask reply.now)) }
    ensures room { OnErr result (LacksRoomFor out.old (script_answer_line (of_ask reply.now))) }
    ensures grows { vec_capacity out.old ≤ vec_capacity out.new }
{
    out.extend_from_slice(b"table = ")?;
    push_event_reply(reply, out)?;
    out.push(b'\n')?;
    Ok(())
}

/// Adds the line of a wait that expired.
///
/// # Errors
/// `AllocError` where memory is refused, and only where the buffer has no room for the line; then nothing is added.
pub fn push_expired(out: &mut Vec<u8>) -> Result<(), AllocError>
    ensures ok { OnOk result (out.new.items ≡ out.old.items ++ script_answer_line expired) }
    ensures room { OnErr result (LacksRoomFor out.old (script_answer_line expired)) }
    ensures grows { vec_capacity out.old ≤ vec_capacity out.new }
    ensures err { OnErr result (out.new.items ≡ out.old.items) }
{
    out.extend_from_slice(b"= none\n")
}
