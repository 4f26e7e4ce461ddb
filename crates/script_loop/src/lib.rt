//! Scripts from a source to a sink: lines are read, answered by a machine, and the answers written.
//!
//! `run_lines` is the loop, over any `Source`, any `Sink` and any machine that answers lines (`RunsLines`);
//! `LineReader` takes lines from a source. Contracts see the bytes that a source has left and a sink holds, where they
//! are known. `specs/Runs` says what a run comes to, field by field in the record `Runs`: what it has done, and what
//! stands after each error. `specs/Machines` says when a machine stands for a session, `specs/Reader` what a line reader
//! has in hand.
#![tactic(auto)]

mod error;
mod line_reader;
mod memory;
mod run;
mod stream;
mod writer;

pub use error::{LineError, ScriptError, SinkError};
pub use line_reader::{Fetched, LineReader, newline_in};
pub use memory::{MemorySink, MemorySource};
pub use run::{RunsLines, new_reader, run_lines};
pub use stream::{Failed, Sink, Source};
pub use writer::write_whole;
