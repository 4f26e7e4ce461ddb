//! A script and its output in turn, read from a source and judged pair by pair.
//!
//! `check_pairs` is the loop, over any `Source` and anything that knows the right answers (`KnowsAnswers`); `PairLines`
//! takes lines from a source, each up to a bound of its own. `specs/Checks` says what a verdict means, and when each
//! answer comes: in both directions.
#![tactic(auto)]

mod check;
mod lines;
mod pair_lines;
mod verdict;

pub use check::{KnowsAnswers, check_pairs};
pub use script_rules::Rule;
pub use verdict::{CheckError, Verdict};
