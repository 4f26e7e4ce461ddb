//! The loop over the lines of a script whose parties can be driven.
//!
//! `run_driven` is the loop, over any source, any sink and any driver (`Drives`), with the endings of the loop of plain
//! scripts; `answer_line` reads one line, and has the driver answer it. `specs/DriveRuns` says what a run comes to, field by field in the record `DriveRuns`; `specs/Drivers` when a
//! driver stands for the exchanges so far. Which exchanges are lawful, each driver says of itself.
#![tactic(auto)]

mod driver;
mod run;

pub use driver::{Drives, answer_line};
pub use run::run_driven;
