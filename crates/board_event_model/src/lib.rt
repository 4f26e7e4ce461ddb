//! The definitions by which events are judged: an event's memory, the accesses that its calls owe, and the laws of both.
//!
//! Begin with `specs/EventMemory`: an event, the answer of an access, and the event after it. `EventCalls` has the
//! accesses that a call owes, as a fold over the answers so far; `EventRuns` what many parties may do on one event,
//! abandoned anywhere; `EventSessions` the same on many events. The laws are public functions without a body.
#![tactic(auto)]

mod access;
pub mod access_laws;
mod call;
pub mod call_laws;
pub mod id_laws;
mod kind;
pub mod quiet_laws;
pub mod session_laws;
pub mod worked_runs;

pub use access::{EventAccess, EventAnswer};
pub use call::{EventProgress, NotifyStage, WaitMode, WaitStage};
pub use kind::EventKind;
