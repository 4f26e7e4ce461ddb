//! The fed session of an output, read off its bytes; and all that the output tells.
//!
//! A program that drives parties writes each line that it gives to the machine behind `> `, and the answer on the next
//! line; besides it writes lines of its own. `specs/GivenLines` reads the lines that were given off the bytes, and all that
//! was told. The former are the fed session where no line of the program's own begins so (`fed_sessions_are_found`), which is
//! shown of each program by its definitions.
#![tactic(auto)]

mod written_laws;

pub use written_laws::{fed_sessions_are_found, outputs_are_read_back};
