//! The texts of answers: which texts are answers at all, and which rule an answer breaks where another one is right.
//!
//! A cursor takes one token after another from a text, so nothing here takes memory. `specs/AnswerReading` is a reader of
//! the same shape as `is_answer`, and `proofs/AnswerLemmas` shows that it takes exactly the texts of the answer grammar.
//! `broken_rule` parts the tokens of two texts into the groups of `script_rules` and compares them.
#![tactic(auto)]

mod answer;
mod broken_rule;
mod bytes;
mod groups;
mod item;
mod replies;
mod steps;
mod tokens;

pub use answer::{is_answer, most_bytes};
pub use broken_rule::broken_rule_of;
