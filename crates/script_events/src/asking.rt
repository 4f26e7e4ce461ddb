//! Listeners and notifiers are asked for. A party is given one only where the table has made it, so a refusal wants no memory.
ghost use Rattle.std.specs.Prelude.{◌≡◌, ◌<◌, ◌^◌, ℕ, List, IfOk, OnErr};
ghost use Rattle.script_model.specs.ScriptEvents.{to_listen, to_notify};
ghost use Rattle.script_events.specs.Calls.{AnswersAsk, HasFewNotifiers, Makes};
ghost use Rattle.script_events.specs.PartyEvents.{held_in};
ghost use Rattle.script_events.specs.Left.{HasNotifierMore, MayHaveListener};

use crate::rows::Holding;
use crate::things::Things;
use board_event_core::{Events, ListenerCreateError, NotifierCreateError};
use board_event_model::EventKind;
use board_layout::Text;
use board_model::Name;
use board_names::FilePath;
use script_model::{EventName, EventReply};
use std::alloc::AllocError;

/// The full name of an event.
fn full_name(event: &EventName) -> FilePath
    ensures { result ≡ event.now }
{
    FilePath::from_text(Text::of(event.as_text().as_bytes()))
}

/// Makes an event with its listener, where its name is free.
#[inline(never)]
pub(crate) fn listen(
    events: &mut Events,
    things: &mut Things,
    party: Name,
    name: Name,
    kind: EventKind,
    event: &EventName,
    max: u64,
) -> Result<EventReply, AllocError>
    requires few { events.old.drawn < 2 ^ 63 }
    ensures told { IfOk result (AnswersAsk events.old (held_in things.old) events.new
        (held_in things.new) party (to_listen name kind event.now max)) }
    ensures memory { OnErr result (Makes events.old (held_in things.old) party
        (to_listen name kind event.now max)) }
    ensures things { OnErr result ((p n : List ℕ)
        → held_in things.new p n ≡ held_in things.old p n) }
    ensures events { OnErr result (MayHaveListener events.old events.new kind event.now max) }
{
    match events.listen(kind, &full_name(event), max) {
        Ok(number) => {
            things.put(party, name, Holding::Listener(number))?;
            Ok(EventReply::Done)
        }
        Err(ListenerCreateError::AlreadyExists) => Ok(EventReply::AlreadyExists),
        Err(ListenerCreateError::OutOfMemory) => Err(AllocError),
        // `few`: numbers are left, and nothing else refuses a listener.
        Err(_) => unreachable!(),
    }
}

/// Makes a notifier of an event that has its listener.
#[inline(never)]
pub(crate) fn add_notifier(
    events: &mut Events,
    things: &mut Things,
    party: Name,
    name: Name,
    kind: EventKind,
    event: &EventName,
) -> Result<EventReply, AllocError>
    requires few { HasFewNotifiers events.old }
    ensures told { IfOk result (AnswersAsk events.old (held_in things.old) events.new
        (held_in things.new) party (to_notify name kind event.now)) }
    ensures memory { OnErr result (Makes events.old (held_in things.old) party
        (to_notify name kind event.now)) }
    ensures things { OnErr result ((p n : List ℕ)
        → held_in things.new p n ≡ held_in things.old p n) }
    ensures events { OnErr result
        (HasNotifierMore events.old events.new kind event.now) }
{
    match events.notifier(kind, &full_name(event)) {
        Ok(number) => {
            things.put(party, name, Holding::Notifier(number))?;
            Ok(EventReply::Done)
        }
        Err(NotifierCreateError::DoesNotExist) => Ok(EventReply::DoesNotExist),
        // `few`: there may be one more, and nothing else refuses a notifier.
        Err(_) => unreachable!(),
    }
}
