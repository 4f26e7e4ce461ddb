//! What programs that drive parties have in common: lines from bytes, lines that are given to a machine of scripts and
//! their answers, and what is kept of each driven party.
//!
//! `parse_drive` reads a line. `give` gives one to a machine, and writes it with its answer; `is_refusal` and `got_of` look
//! at an answer. `write_step` and `write_get` make the lines of a get. `Parties` keeps something for each party, and
//! `Driven` holds a machine and what is kept of its parties, and answers the lines of a plain script.
#![tactic(auto)]

mod answers;
mod driven;
mod giving;
mod lines;
mod parse;
mod parties;
mod words;

pub use answers::{got_of, is_refusal, without_last};
pub use driven::Driven;
pub use giving::{give, say};
pub use lines::{abandoned_by, held_back, write_get, write_step};
pub use parse::parse_drive;
pub use parties::Parties;
pub use words::Words;
