//! What parties run, and what they hold of events.
use board_event_model::EventKind;
use board_layout::Text;
use board_model::Name;
use script_board_tables::BoardCall;
use script_event_rows::EventCall;

/// A listener or notifier that is asked for.
#[derive(Clone, Copy)]
pub(crate) enum Ask {
    Listen {
        name: Name,
        kind: EventKind,
        event: Text<255>,
        max: u64,
    },
    Notify {
        name: Name,
        kind: EventKind,
        event: Text<255>,
    },
}

/// What a party runs that isn't free.
#[derive(Drop)]
pub(crate) enum Task {
    OnBoards(BoardCall),
    Asks(Ask),
    OnEvent { number: u64, call: EventCall },
    /// Nothing, ever: the party was abandoned.
    Gone,
}

/// What a party holds of an event, which is known by its number.
#[derive(Clone, Copy)]
pub(crate) enum EventThing {
    Listener(u64),
    Notifier(u64),
}
