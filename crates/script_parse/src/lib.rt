//! The lines of a script, from their bytes.
//!
//! A cursor takes one token after another from the front, so only what a line keeps takes memory. Each reading function
//! stands beside a definition of the same shape in `script_grammar`. `short` has ways to the lines that come most, which
//! go past all that: they promise nothing where they give no line.
#![tactic(auto)]

mod atoms;
mod bytes;
mod calls;
mod events;
mod options;
mod parse;
mod short;
mod tokens;
mod unkept;
mod values;

pub use atoms::number_of;
pub use bytes::place_of;
pub use parse::{line_or_unkept, parse_line};
pub use short::{cut_at_call, get_at, get_of, notify_at, step_of, update_at, update_of, wait_at};
pub use tokens::cut;
pub use unkept::{Made, Unkept};
