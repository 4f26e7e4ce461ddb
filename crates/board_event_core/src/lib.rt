//! Events: ids that a notifier hands to a listener, by bit set and by queue, one access at a time.
//!
//! `BitSet` and `Semaphore` hold ids and signals. `NotifyCall` and `WaitCall` are the calls as step machines, whose
//! model is the definitions' own record; `notify_step` and `wait_step` drive them by one access, and `pass_empty_words`
//! leaves out a wait's looks at words without ids. `Events` is the table:
//! events by number, and for each kind the held names with the number of the event that holds each. `specs/EventTable`
//! says what each call on the table answers and leaves, and in `IsEventTable` what holds of every table, which `table_stands` tells of any.
#![tactic(auto)]

mod bit_set;
mod event_memory;
mod event_rows;
mod events;
mod id_tracker;
mod notify_call;
mod semaphore;
mod signal_mechanism;
mod steps;
mod wait_call;

pub use bit_set::BitSet;
pub use board_event_model::{
    EventAccess, EventAnswer, EventKind, EventProgress, NotifyStage, WaitMode, WaitStage,
};
pub use board_names::{
    EventId, ListenerCreateError, ListenerWaitError, NotifierCreateError, NotifierNotifyError,
    TriggerId,
};
pub use event_memory::QUEUE_CAPACITY;
pub use events::{Events, table_stands};
pub use id_tracker::IdTracker;
pub use notify_call::NotifyCall;
pub use semaphore::Semaphore;
pub use signal_mechanism::SignalMechanism;
pub use steps::{EventStep, notify_step, pass_empty_words, wait_step};
pub use wait_call::WaitCall;
