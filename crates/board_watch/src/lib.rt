//! Watchers on ids and values, over scripts.
//!
//! A script may have two lines more: `watch P E H ..` lets the party P be driven by a watcher, with its listener E and its
//! read handles H, and `turn P` gives P its next line. P waits for ids, gets the handles whose ids it took, and reports
//! what it got where its generation is above each that it reported of the handle. So what it reports of a handle gets only
//! newer, and once it has got an entry that a taken id called for, its last report is at least as new as what was published
//! before the notify of that id.
//!
//! `watch_words` runs a script from a source to a sink. The definitions stand in `script_watches`.
#![tactic(auto)]

mod run_laws;
mod top;

pub use run_laws::{
    fed_sessions_are_written, inputs_have_one_run, outputs_are_read_back, reports_are_written,
};
pub use top::{run_program, watch_words};
