//! Events: a notifier hands ids to a listener, between threads.
//!
//! `BitEvent` keeps the ids that wait as a set up to a greatest one, `QueueEvent` as a queue of 512. Both are made by
//! builders over a registry, which shares a table of events behind a lock; the traits stand in the module `event`:
//!
//! ```text
//! let registry = QueueRegistry::new(alloc)?;
//! let listener = EventListenerBuilder::new(&name, &registry)?.create(&rt, alloc)?;
//! let notifier = EventNotifierBuilder::new(&name, &registry)?.open(&rt)?;
//! notifier.notify(&rt, TriggerId::new(7))?;
//! assert_eq!(rt; listener.blocking_wait_one(&rt), Ok(Some(TriggerId::new(7))));
//! ```
//!
//! A notify and a wait take the lock anew for each of their accesses (`accesses`). A wait that looked and found nothing
//! sleeps before it lets go of the lock under which it looked, and each notify wakes all that sleep. What a call does to
//! the events is said by its lent form, whose name ends in `_in`: it is given an `EventsOf` in place of the lock, makes
//! the same accesses one after another, and its contract says the answer and what stands after it (`specs/LentForms`).
//!
//! The table of events and the calls on it as step machines are passed on from `board_event_core`.
#![tactic(auto)]

mod accesses;
pub mod event;
mod events_of;
mod listener;
mod listener_builder;
mod local_event;
mod notifier;
mod notifier_builder;
mod patience;
mod registry;
mod taking;

pub use board_event_core::{
    BitSet, EventAccess, EventAnswer, EventId, EventKind, EventProgress, EventStep, Events,
    IdTracker, ListenerCreateError, ListenerWaitError, NotifierCreateError, NotifierNotifyError,
    NotifyCall, NotifyStage, QUEUE_CAPACITY, Semaphore, SignalMechanism, TriggerId, WaitCall,
    WaitMode, WaitStage, notify_step, table_stands, wait_step,
};
pub use board_names::{
    Configuration, FileName, FilePath, NameTable, NamedConcept, NamedConceptBuilder,
    NamedConceptConfiguration, NamedConceptMgmt, Path, RegistryError,
};
pub use event::{Event, Listener, ListenerBuilder, Notifier, NotifierBuilder};
pub use events_of::{EventsOf, KindOfEvents, QueueOfIds, SetOfIds};
pub use listener::EventListener;
pub use listener_builder::{DEFAULT_TRIGGER_ID_MAX, EventListenerBuilder};
pub use local_event::{BitEvent, LocalEvent, QueueEvent};
pub use notifier::EventNotifier;
pub use notifier_builder::EventNotifierBuilder;
pub use registry::{BitRegistry, EventRegistry, QueueRegistry};
