//! Short ways to the lines that come most: steps, and the calls that are begun most.
//!
//! Each promises only that the bytes spell the line whose parts it gives. Where it gives nothing they may still spell
//! one, which `parse_line` reads. A line that begins a call can be cut once, and the calls then tried on its parts in turn.
ghost use Rattle.std.specs.Prelude.{◌≡◌, ◌∷◌, ◌++◌, IfSome, None, codes};
ghost use Rattle.std.specs.Option.{option_map};
ghost use Rattle.board_model.specs.declared.line.Call.TheVariants as call;
ghost use Rattle.board_model.specs.declared.line.Line.TheVariants as board_line;
ghost use Rattle.script_grammar.specs.TokenReading.{behind};
ghost use Rattle.script_model.specs.declared.line.EventRequest.TheVariants as request;
ghost use Rattle.script_model.specs.declared.line.ScriptLine.TheVariants as line;
ghost use Rattle.script_model.specs.ScriptGrammar.{SpellsLine};
ghost use Rattle.script_parse.specs.Short.{IsCut};

use crate::atoms::{name_of, number_of};
use crate::bytes::place_of;
use crate::events::{count_of, mode_of};
use crate::parse::MOST_BYTES;
use crate::values::value_of;
use board_event_model::WaitMode;
use board_model::{Name, Value};

// What stands before a space, and what stands behind it.
#[inline(always)]
fn parted(text: &[u8]) -> Option<(&[u8], &[u8])>
    ensures { IfSome result (λ parts. text.now ≡ parts.0.now ++ 32 ∷ parts.1.now) }
{
    let at = place_of(text, b' ')?;
    Some((&text[..at], &text[at + 1..]))
}

// What stands behind the word of a step. Words are compared byte by byte, since most differ in the first.
#[inline(always)]
fn behind_step(bytes: &[u8]) -> Option<&[u8]>
    ensures { option_map (λ rest. rest.now) result ≡ behind (codes "step ") bytes.now }
{
    match bytes {
        [b's', b't', b'e', b'p', b' ', rest @ ..] => Some(rest),
        _ => None,
    }
}

// What stands behind the word of a line that begins a call.
#[inline(always)]
fn behind_begin(bytes: &[u8]) -> Option<&[u8]>
    ensures { option_map (λ rest. rest.now) result ≡ behind (codes "begin ") bytes.now }
{
    match bytes {
        [b'b', b'e', b'g', b'i', b'n', b' ', rest @ ..] => Some(rest),
        _ => None,
    }
}

/// The party of a line that begins a call, and what it asks, as bytes.
#[inline(always)]
pub fn cut_at_call(bytes: &[u8]) -> Option<(&[u8], &[u8])>
    ensures { IfSome result (λ parts. IsCut bytes.now parts.0.now parts.1.now) }
{
    let begun = behind_begin(bytes)?;
    let (front, asked) = parted(begun)?;
    Some((front, asked))
}

// What stands behind the word of an update.
#[inline(always)]
fn behind_update(asked: &[u8]) -> Option<&[u8]>
    ensures { option_map (λ rest. rest.now) result ≡ behind (codes "update ") asked.now }
{
    match asked {
        [b'u', b'p', b'd', b'a', b't', b'e', b' ', rest @ ..] => Some(rest),
        _ => None,
    }
}

// What stands behind the word of a get.
#[inline(always)]
fn behind_get(asked: &[u8]) -> Option<&[u8]>
    ensures { option_map (λ rest. rest.now) result ≡ behind (codes "get ") asked.now }
{
    match asked {
        [b'g', b'e', b't', b' ', rest @ ..] => Some(rest),
        _ => None,
    }
}

// What stands behind the word of a notify.
#[inline(always)]
fn behind_notify(asked: &[u8]) -> Option<&[u8]>
    ensures { option_map (λ rest. rest.now) result ≡ behind (codes "notify ") asked.now }
{
    match asked {
        [b'n', b'o', b't', b'i', b'f', b'y', b' ', rest @ ..] => Some(rest),
        _ => None,
    }
}

// What stands behind the word of a wait.
#[inline(always)]
fn behind_wait(asked: &[u8]) -> Option<&[u8]>
    ensures { option_map (λ rest. rest.now) result ≡ behind (codes "wait ") asked.now }
{
    match asked {
        [b'w', b'a', b'i', b't', b' ', rest @ ..] => Some(rest),
        _ => None,
    }
}

/// The party of a line `step P`.
#[inline(always)]
pub fn step_of(bytes: &[u8]) -> Option<Name>
    ensures { IfSome result (λ party. SpellsLine bytes.now (line.Board (board_line.Step party))) }
{
    let rest = behind_step(bytes)?;
    let party = name_of(rest)?;
    Some(party)
}

/// The party and the handle of a get, where the bytes of a line are cut so.
#[inline(always)]
pub fn get_at(bytes: &[u8], front: &[u8], asked: &[u8]) -> Option<(Name, Name)>
    requires { IsCut bytes.now front.now asked.now }
    ensures { IfSome result (λ parts. SpellsLine bytes.now
        (line.Board (board_line.Begin parts.0 (call.Get parts.1 None)))) }
{
    let text = behind_get(asked)?;
    if bytes.len() > MOST_BYTES {
        return None;
    }
    let party = name_of(front)?;
    let handle = name_of(text)?;
    Some((party, handle))
}

/// The party, the handle and the value of an update, where the bytes of a line are cut so.
#[inline(always)]
pub fn update_at(bytes: &[u8], front: &[u8], asked: &[u8]) -> Option<(Name, Name, Value)>
    requires { IsCut bytes.now front.now asked.now }
    ensures { IfSome result (λ parts. SpellsLine bytes.now
        (line.Board (board_line.Begin parts.0 (call.Update parts.1 parts.2)))) }
{
    let text = behind_update(asked)?;
    if bytes.len() > MOST_BYTES {
        return None;
    }
    let party = name_of(front)?;
    let (name, rest) = parted(text)?;
    let handle = name_of(name)?;
    let value = value_of(rest)?;
    Some((party, handle, value))
}

/// The party, the notifier and the id of a notify, where the bytes of a line are cut so.
#[inline(always)]
pub fn notify_at(bytes: &[u8], front: &[u8], asked: &[u8]) -> Option<(Name, Name, u64)>
    requires { IsCut bytes.now front.now asked.now }
    ensures { IfSome result (λ parts. SpellsLine bytes.now
        (line.Event parts.0 (request.Notify parts.1 parts.2))) }
{
    let text = behind_notify(asked)?;
    if bytes.len() > MOST_BYTES {
        return None;
    }
    let party = name_of(front)?;
    let (name, rest) = parted(text)?;
    let notifier = name_of(name)?;
    let id = number_of(rest)?;
    Some((party, notifier, id))
}

/// The party and the listener of a wait, whether it is for all ids, and whether and how it blocks, where the bytes of a
/// line are cut so.
#[inline(always)]
pub fn wait_at(bytes: &[u8], front: &[u8], asked: &[u8]) -> Option<(Name, Name, bool, WaitMode)>
    requires { IsCut bytes.now front.now asked.now }
    ensures { IfSome result (λ parts. SpellsLine bytes.now
        (line.Event parts.0 (request.Wait parts.1 parts.2 parts.3))) }
{
    let text = behind_wait(asked)?;
    if bytes.len() > MOST_BYTES {
        return None;
    }
    let party = name_of(front)?;
    let (name, rest) = parted(text)?;
    let listener = name_of(name)?;
    let (count, how) = parted(rest)?;
    let many = count_of(count)?;
    let mode = mode_of(how)?;
    Some((party, listener, many, mode))
}

/// The party and the handle of a line `begin P get H`.
#[inline(always)]
pub fn get_of(bytes: &[u8]) -> Option<(Name, Name)>
    ensures { IfSome result (λ parts. SpellsLine bytes.now
        (line.Board (board_line.Begin parts.0 (call.Get parts.1 None)))) }
{
    let (front, asked) = cut_at_call(bytes)?;
    get_at(bytes, front, asked)
}

/// The party, the handle and the value of a line `begin P update M VAL`.
#[inline(always)]
pub fn update_of(bytes: &[u8]) -> Option<(Name, Name, Value)>
    ensures { IfSome result (λ parts. SpellsLine bytes.now
        (line.Board (board_line.Begin parts.0 (call.Update parts.1 parts.2)))) }
{
    let (front, asked) = cut_at_call(bytes)?;
    update_at(bytes, front, asked)
}
