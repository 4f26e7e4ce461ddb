//! The machine that runs the lines of a script, those of boards and those of events.
//!
//! `Machine<C>` has a `BoardMachine<C>` and a `PartyEvents`, and stands for the states of a script that both stand for
//! (`specs/ScriptMachine`). `machine` has its one call: the bytes of the line in, the bytes of the answer out. `boards`
//! has the lines that boards and events share: each asks the events first whether they have to do with it, and else
//! hands it to the machine of boards. `events` has those of events alone, and `unkept` the answer to a line for which there
//! was no memory. That a lawful session led to a state gives
//! what the two machines ask of it: the boards' part of the session is lawful, and the events are sound.
#![tactic(auto)]

mod boards;
mod counters;
mod events;
mod machine;
mod unkept;

pub use machine::Machine;
