//! What the steps of a call on an event report, and what the call is told at its end.
ghost use Rattle.std.specs.Prelude.{◌≡◌, ◌++◌, ◌≤◌, ◌^◌, ◌+◌, ◌<◌, length, OnErr, OnOk};
ghost use Rattle.board_event_model.specs.EventCalls as calls;
ghost use Rattle.board_event_model.specs.Ids.{id_of_bit, ids_of_bits};
ghost use Rattle.script_model.specs.Reports.{IsToldAtEnd, StartsWord};
ghost use Rattle.script_model.specs.ScriptEvents as model;

use crate::reply::EventReply;
use board_event_model::EventProgress;
use board_model::Words;
use std::alloc::AllocError;

/// Whether this step ends its call.
pub fn is_last(progress: EventProgress) -> bool
    ensures { result ≡ calls.is_last progress }
{
    match progress {
        EventProgress::More => false,
        EventProgress::Waiting => false,
        EventProgress::Took {
            base: _,
            bits: _,
            last,
        } => last,
        EventProgress::Id { id: _, last } => last,
        EventProgress::Notified => true,
        EventProgress::Refused(_) => true,
        EventProgress::Nothing => true,
    }
}

/// Whether it was a waiting look that found nothing.
pub fn is_waiting(progress: EventProgress) -> bool
    ensures { result ≡ calls.is_waiting progress }
{
    matches!(progress, EventProgress::Waiting)
}

// Appends the bit's id to the ids taken so far, if it is set.
fn report_bit(base: u64, bits: u64, i: u64, told: &mut Vec<u64>) -> Result<(), AllocError>
    requires word { i < 64 }
    requires room { base + i < 2 ^ 64 }
    ensures ok { OnOk result (told.new.items ≡ told.old.items ++ id_of_bit base bits i) }
    ensures memory { OnErr result (0 < length (id_of_bit base bits i)) }
{
    if (bits >> i) & 1 == 1 {
        told.push(base + i)?;
    }
    Ok(())
}

// Appends the ids of the first `count` bits to the ids taken so far: `base + i` for each bit i that is set.
fn report_bits(base: u64, bits: u64, count: u64, told: &mut Vec<u64>) -> Result<(), AllocError>
    requires word { count ≤ 64 }
    requires room { base + count ≤ 2 ^ 64 }
    ensures ok { OnOk result (told.new.items ≡ told.old.items ++ ids_of_bits base bits count) }
    ensures memory { OnErr result (0 < length (ids_of_bits base bits count)) }
{
    for i in 0..count {
        report_bit(base, bits, i, told)?;
    }
    Ok(())
}

/// Appends the ids that a step reports to the ids taken so far.
///
/// # Errors
/// `AllocError` where memory is refused. There is none of it without an id to append.
pub fn report(progress: EventProgress, told: &mut Vec<u64>) -> Result<(), AllocError>
    requires { StartsWord progress }
    ensures ok { OnOk result (told.new.items ≡ told.old.items ++ calls.reported progress) }
    ensures memory { OnErr result (0 < length (calls.reported progress)) }
{
    match progress {
        EventProgress::Took {
            base,
            bits,
            last: _,
        } => report_bits(base, bits, 64, told),
        EventProgress::Id { id, last: _ } => {
            told.push(id)?;
            Ok(())
        }
        _ => Ok(()),
    }
}

// The ids that a wait took.
fn ids_told(many: bool, told: Vec<u64>) -> EventReply
    ensures { result ≡ model.ids_told many told.items }
{
    if many {
        return EventReply::Ids(Words::from_vec(told));
    }
    match told.first() {
        Some(id) => EventReply::Id(*id),
        None => EventReply::Nothing,
    }
}

/// What a call is told that ended so, where these are all ids that it has taken.
pub fn end_told(many: bool, progress: EventProgress, told: Vec<u64>) -> EventReply
    ensures { IsToldAtEnd many progress told.items result }
{
    match progress {
        EventProgress::Notified => EventReply::Done,
        EventProgress::Refused(why) => EventReply::NotNotified(why),
        EventProgress::Nothing => EventReply::Nothing,
        _ => ids_told(many, told),
    }
}
