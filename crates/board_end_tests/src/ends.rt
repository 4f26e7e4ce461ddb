//! The rows on events, each by typed calls and by lent forms with the same answers, and what no clause says: the typed
//! calls at their limits, and ends in two threads.
use board_event::{
    BitEvent, Event, EventListenerBuilder, EventNotifierBuilder, EventRegistry, KindOfEvents,
    ListenerCreateError, ListenerWaitError, NotifierCreateError, NotifierNotifyError, TriggerId,
};
use board_names::{Configuration, FileName, NamedConceptBuilder};
use std::process::Abort;

mod configured;
mod generic;
mod lent;
mod limits;
mod threads;
mod timed;
mod typed;
mod woken;

/// A call of a row. The event's name is `e`.
#[derive(Clone, Copy, Debug, PartialEq, Eq)]
enum Deed {
    Notify(usize),
    TakeOne,
    TakeAll,
    ListenAgain,
    OpenAbsent,
    Exists,
    List,
    ListShared,
    Remove,
}

/// What a call of a row has answered. Of all ids that were taken at once, the first is the number's leading digits, and
/// each has three.
#[derive(Clone, Copy, Debug, PartialEq, Eq)]
enum Told {
    Notified(Result<(), NotifierNotifyError>),
    One(Option<usize>),
    All(usize),
    Listened(Option<ListenerCreateError>),
    Opened(Option<NotifierCreateError>),
    Is(bool),
    Lists(usize, Option<FileName>),
    Refused,
}

fn file_name<R: Abort>(rt: &R, value: &[u8]) -> FileName {
    FileName::new(value).expect(rt, "a name")
}

fn configuration() -> Configuration {
    Configuration::with_suffix(&BitEvent::default_suffix())
}

fn listens<R: Abort, K: KindOfEvents + Drop>(
    rt: &R,
    value: &[u8],
    registry: &EventRegistry<K>,
) -> EventListenerBuilder<K> {
    EventListenerBuilder::new(&file_name(rt, value), registry).expect(rt, "memory")
}

fn opens<R: Abort, K: KindOfEvents + Drop>(
    rt: &R,
    value: &[u8],
    registry: &EventRegistry<K>,
) -> EventNotifierBuilder<K> {
    EventNotifierBuilder::new(&file_name(rt, value), registry).expect(rt, "memory")
}

fn one_told(answer: Result<Option<TriggerId>, ListenerWaitError>) -> Told {
    match answer {
        Ok(None) => Told::One(None),
        Ok(Some(id)) => Told::One(Some(id.as_value())),
        Err(_) => Told::Refused,
    }
}

fn is_told<E: Drop>(answer: Result<bool, E>) -> Told {
    match answer {
        Ok(yes) => Told::Is(yes),
        Err(_) => Told::Refused,
    }
}

fn list_told<E: Drop>(answer: Result<Vec<FileName>, E>) -> Told {
    match answer {
        Ok(names) => Told::Lists(names.len(), names.first().copied()),
        Err(_) => Told::Refused,
    }
}

/// The number of all ids with one more.
fn with_id(seen: usize, id: TriggerId) -> usize {
    seen.wrapping_mul(1000).wrapping_add(id.as_value())
}

/// A set of ids.
fn row_of_sets() -> [(Deed, Told); 6] {
    [
        (Deed::TakeOne, Told::One(None)),
        (Deed::Notify(3), Told::Notified(Ok(()))),
        (Deed::TakeOne, Told::One(Some(3))),
        (Deed::TakeOne, Told::One(None)),
        (Deed::Notify(70), Told::Notified(Ok(()))),
        (Deed::TakeAll, Told::All(70)),
    ]
}

/// A queue of ids.
fn row_of_queues() -> [(Deed, Told); 6] {
    [
        (Deed::TakeOne, Told::One(None)),
        (Deed::Notify(7), Told::Notified(Ok(()))),
        (Deed::Notify(7), Told::Notified(Ok(()))),
        (Deed::TakeAll, Told::All(7007)),
        (Deed::Notify(5), Told::Notified(Ok(()))),
        (Deed::TakeOne, Told::One(Some(5))),
    ]
}

fn lists_one<R: Abort>(rt: &R) -> Told {
    Told::Lists(1, Some(file_name(rt, b"e")))
}

/// The name of an event, of either kind.
fn row_of_names<R: Abort>(rt: &R) -> [(Deed, Told); 7] {
    let taken = Told::Listened(Some(ListenerCreateError::AlreadyExists));
    let absent = Told::Opened(Some(NotifierCreateError::DoesNotExist));
    [
        (Deed::ListenAgain, taken),
        (Deed::OpenAbsent, absent),
        (Deed::Exists, Told::Is(true)),
        (Deed::List, lists_one(rt)),
        (Deed::ListShared, lists_one(rt)),
        (Deed::Remove, Told::Is(true)),
        (Deed::Remove, Told::Is(false)),
    ]
}
