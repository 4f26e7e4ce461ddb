//! The script that is made from a number, and what is counted over its run.
//!
//! `run_generated` hands the bytes of one line after another to the machine's one call, and counts each line by the
//! first bytes of its answer and by whether the answer replies (`summary`). `specs/Generator` has the lines,
//! `specs/Summary` what is counted over a session and the six lines of the summary, `specs/Counting` what the loop
//! keeps from line to line.
#![tactic(auto)]

mod generator;
mod generator_laws;
mod summary;
mod worked_generator;

pub use generator::run_generated;
pub use generator_laws::generated_scripts_are_scripts;
pub use worked_generator::the_run_for_one_is_lawful;
