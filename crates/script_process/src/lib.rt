//! What a process has, as the programs over scripts use it: standard input, output and error as a source and sinks, and
//! the words of the command line.
#![tactic(auto)]

mod command_line;
mod streams;

pub use command_line::words;
pub use streams::{InSource, OutSink, StderrSink, StdinSource, StdoutSink};
