//! How programs over scripts end: the status and the note of an answer, of words that stand on the command line where
//! they may not, and of words that can't be had.
#![tactic(auto)]

mod endings;

pub use endings::{end_with, end_without_words, refuse_words};
