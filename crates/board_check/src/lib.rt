//! A judge of sessions: whether a script and its output are a lawful session, and which rule the first wrong pair breaks.
//!
//! `check` reads a line of a script and then its answer, in turn, and decides; `check_words` is the program's top call. What a
//! verdict means, and when each answer comes, is `Checks` of `script_pairs`, in both directions; `specs/Top` has how verdicts
//! are written, and that the lines and the output of a run are lawful. The right answers come from the tables of
//! `script_judge`, which runs no machine.
#![tactic(auto)]

mod checking;
mod top;

pub use checking::check;
pub use script_pairs::{CheckError, Rule, Verdict};
pub use top::{check_words, run_program};
