//! The machine of boards: it runs the lines of a script that concern boards, one after another.
//!
//! `BoardMachine<C>` is plain data: a domain as its parties see it, and three maps: by party, what its call has still to
//! do, or that it is gone; by party and name, the values that are kept and the words that were put into loans. So no
//! line goes over the calls, values or loans of others. `Represents` of `specs/Machine` says
//! which states of boards it stands for. Its calls are lines of boards: `begin` (may the call begin, and what has it to
//! do), `step` (one access: a call on the domain, a word read, a word written), `release` (a thing goes, and a board
//! with its last thing), `abandon`, and the listing of a board's words. `step_short` is a short way for steps of updates,
//! for those of gets and fills that owe a word, and for those of parties that run no call; `step_get` is one for the other
//! steps of gets that keep no value. `tasks` has the calls that run, `loans` the calls on loans, `lookups` what stands in the
//! maps of values and loans, `refusals` what the machine of scripts asks where a name is that of a listener or notifier.
#![tactic(auto)]

mod abandon;
mod begin;
mod get_steps;
mod loans;
mod lookups;
mod machine;
mod not_begun;
mod refusals;
mod release;
mod short_steps;
mod step;
mod tasks;
mod value_update;
mod words;

pub use get_steps::{GetStep, ReadValue};
pub use machine::BoardMachine;
pub use short_steps::{ShortStep, ShortWay};
