//! What a checker of sessions keeps of an event and of the calls on it, tied to the definitions.
//!
//! `specs/EventRows` says for which event of the definitions a row stands, and `specs/EventCalls` of which running call a
//! call is kept: an access to a row is answered as the definitions say of that event, and leaves what they say; a call owes
//! the access that the running call owes, and goes on or ends with an answer as that does. No table of events and no call of
//! `board_event_core` is used. `script_event_tables` holds these rows by number and name, and the judge the calls by party.
#![tactic(auto)]

mod event_call;
mod event_row;
mod id_words;
mod notify_task;
mod wait_task;

pub use event_call::{EventCall, Took};
pub use event_row::EventRow;
