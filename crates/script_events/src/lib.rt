//! Events as the parties of a script see them: listeners and notifiers under the names that parties gave them, and the calls that run.
//!
//! `PartyEvents` is the table of events, what each party holds by the names that it gave, and what each party has still
//! to do whose call on events runs. Both are found by hash, so no call goes over the parties, listeners and notifiers
//! that there are; the end of a party goes over what that party holds. `Represents` of `specs/PartyEvents` says which
//! events of a script it stands for. `begin`, `asking` and `step` make the calls and their steps, `ending` lets go,
//! expires and abandons, `things` finds what parties hold, `holdings` what one of them does, `calls` has the steps of either call core.
//!
//! That an access can be made, and that no number is spent, no test at run time says: the event of a call is that of a
//! thing that its party holds, what happened on that event is a run, in which the access that is owed can be taken, and
//! no more numbers are drawn than there are lines.
#![tactic(auto)]

mod asking;
mod begin;
mod calls;
mod ending;
mod holdings;
mod party_events;
mod rows;
mod step;
mod things;

pub use party_events::PartyEvents;
pub use step::Stepped;
