//! Snapshots of several entries at once, over scripts.
//!
//! A script may have two lines more: `snap P H ..` lets the party P take a snapshot through its read handles, and `turn P`
//! gives P its next line. P gets the entries in rounds; the first round whose generations are those of the round before
//! ends the snapshot, and is written. So the values are those of one moment, right after the round before.
//!
//! `snapshot_words` runs a script from a source to a sink. The definitions stand in `script_snapshots`.
#![tactic(auto)]

pub mod run_laws;
mod top;

pub use top::{run_program, snapshot_words};
