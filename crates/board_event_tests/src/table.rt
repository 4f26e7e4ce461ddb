//! Each call on events abandoned at each step, and the corners. Every step of a call is one row of a table.
use crate::same::same;
use board_event_core::{
    EventAccess, EventAnswer, EventKind, EventProgress, EventStep, Events, ListenerCreateError,
    NotifierCreateError, NotifyCall, WaitCall, notify_step, wait_step,
};
use board_names::{Configuration, FileName, FilePath, NamedConceptConfiguration};
use std::process::Abort;

mod abandoned;
mod corners;
mod lent;
mod passing;
mod sets;

/// An access, its answer, and what the call has come to.
type Row = (EventAccess, EventAnswer, EventProgress);

/// A call on the table of events.
#[derive(Clone, Copy, Debug, PartialEq, Eq)]
enum Deed {
    Listen(EventKind, u64),
    Notifier(EventKind),
    ReleaseListener(u64),
    ReleaseNotifier(u64),
    MarkGone(u64),
    Remove(EventKind),
    Holds(EventKind),
    MaxOf(u64),
}

/// What a call on the table of events has told.
#[derive(Clone, Copy, Debug, PartialEq, Eq)]
enum Told {
    Number(u64),
    NoListener(ListenerCreateError),
    NoNotifier(NotifierCreateError),
    Is(bool),
    Done,
    NotAllowed,
}

fn full_name<R: Abort>(rt: &R, value: &[u8]) -> FilePath {
    let suffix = FileName::new(b".event").expect(rt, "a suffix");
    let name = FileName::new(value).expect(rt, "a name");
    Configuration::with_suffix(&suffix).path_for(&name)
}

fn tell(events: &mut Events, name: &FilePath, deed: Deed) -> Told {
    match deed {
        Deed::Listen(kind, max) => match events.listen(kind, name, max) {
            Ok(number) => Told::Number(number),
            Err(error) => Told::NoListener(error),
        },
        Deed::Notifier(kind) => match events.notifier(kind, name) {
            Ok(number) => Told::Number(number),
            Err(error) => Told::NoNotifier(error),
        },
        Deed::ReleaseListener(event) if events.has_listener(event) => {
            events.release_listener(event);
            Told::Done
        }
        Deed::ReleaseNotifier(event) if events.has_notifier(event) => {
            events.release_notifier(event);
            Told::Done
        }
        Deed::MarkGone(event) if events.has_listener(event) => {
            events.mark_gone(event);
            Told::Done
        }
        Deed::MaxOf(event) if events.has_listener(event) => Told::Number(events.max_of(event)),
        Deed::Remove(kind) => Told::Is(events.remove(kind, name)),
        Deed::Holds(kind) => Told::Is(events.holds(kind, name)),
        _ => Told::NotAllowed,
    }
}

fn waits(events: &mut Events, event: u64, call: &mut WaitCall) -> Option<EventStep> {
    if call.is_done() || !events.allows(event, call.next()) {
        return None;
    }
    Some(wait_step(events, event, call))
}

fn notifies(events: &mut Events, event: u64, call: &mut NotifyCall) -> Option<EventStep> {
    if call.is_done() || !events.allows(event, call.next()) {
        return None;
    }
    Some(notify_step(events, event, call))
}

fn step((access, answer, progress): Row) -> Option<EventStep> {
    Some(EventStep {
        access,
        answer,
        progress,
    })
}

fn wait_is<R: Abort>(rt: &R, events: &mut Events, event: u64, call: &mut WaitCall, rows: &[Row]) {
    for row in rows {
        same(rt, &waits(events, event, call), &step(*row));
    }
}

fn notify_is<R: Abort>(
    rt: &R,
    events: &mut Events,
    event: u64,
    call: &mut NotifyCall,
    rows: &[Row],
) {
    for row in rows {
        same(rt, &notifies(events, event, call), &step(*row));
    }
}

fn deeds_are<R: Abort>(rt: &R, events: &mut Events, name: &FilePath, rows: &[(Deed, Told)]) {
    for (deed, told) in rows {
        same(rt, &tell(events, name, *deed), told);
    }
}
