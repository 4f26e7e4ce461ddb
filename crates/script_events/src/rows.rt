//! What parties hold of events, and the calls that they run.
use board_event_core::{NotifyCall, WaitCall};
use board_event_model::EventKind;
use board_model::Name;
use script_model::EventName;

/// What a party holds under a name: a listener or a notifier of the event with a number.
#[derive(Clone, Copy, Debug)]
pub(crate) enum Holding {
    Listener(u64),
    Notifier(u64),
}

/// A notify or a wait, one access after another.
#[derive(Drop, Debug)]
pub(crate) enum ActiveCall {
    Notify(NotifyCall),
    Wait(WaitCall),
}

/// A call on an event: the ids that it has reported, and whether its last access was a waiting look that found nothing.
#[derive(Drop, Debug)]
pub(crate) struct Act {
    pub(crate) event: u64,
    pub(crate) call: ActiveCall,
    pub(crate) told: Vec<u64>,
    pub(crate) waited: bool,
}

/// What a call has still to do.
#[derive(Drop, Debug)]
pub(crate) enum CallTask {
    /// A listener of a new event is asked for.
    Listen {
        listener: Name,
        kind: EventKind,
        event: EventName,
        max: u64,
    },
    /// A notifier is asked for.
    Notifier {
        notifier: Name,
        kind: EventKind,
        event: EventName,
    },
    /// A notify or a wait goes on.
    Act(Act),
}
