//! The lines of a script: those of boards, and those of events.
use board_event_model::{EventKind, WaitMode};
use board_model::{Line, LongName, Name};

/// The name of an event, 1 to 255 bytes.
pub type EventName = LongName;

/// What a party asks of events.
#[derive(Drop, Debug)]
pub enum EventRequest {
    /// A listener of a new event whose ids are a set up to `max`.
    ListenBits {
        /// The name of the listener.
        listener: Name,
        /// The name of the event.
        event: EventName,
        /// The greatest id.
        max: u64,
    },
    /// A listener of a new event whose ids are a queue.
    ListenQueue {
        /// The name of the listener.
        listener: Name,
        /// The name of the event.
        event: EventName,
    },
    /// A notifier of an event.
    Notifier {
        /// The name of the notifier.
        notifier: Name,
        /// The kind of the event.
        kind: EventKind,
        /// The name of the event.
        event: EventName,
    },
    /// An id for the listener.
    Notify {
        /// The name of the notifier.
        notifier: Name,
        /// The id.
        id: u64,
    },
    /// A wait for one id, or for all.
    Wait {
        /// The name of the listener.
        listener: Name,
        /// Whether it is for all ids.
        many: bool,
        /// Whether and how it blocks.
        mode: WaitMode,
    },
}

/// A line of a script.
#[derive(Drop, Debug)]
pub enum ScriptLine {
    /// A line of boards, or one that boards and events share: a step, a drop or an abandonment.
    Board(Line),
    /// A call on events begins.
    Event { party: Name, request: EventRequest },
    /// A timed wait is to end.
    Expire { party: Name },
}
