//! The judge of sessions: tables of its own, from which it knows the right answer to each line of a script.
//!
//! `Judge` has a `BoardTables`, an `EventTable`, what parties hold of events, and what each party runs. `specs/Judges` says for
//! which states of a script it stands. Its call of `KnowsAnswers`, `right_answer`, writes the right answer to a line and goes on
//! to what stands behind it. It calls no machine, no domain and no call core.
#![tactic(auto)]

mod boards;
mod events;
mod judge;
mod task;

pub use judge::Judge;
