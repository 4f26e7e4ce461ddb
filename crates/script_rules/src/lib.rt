//! The rules by which a script and its output are judged, pair by pair: which rule the first wrong pair breaks.
//!
//! A pair is a line and its answer, as bytes. What is judged is the text of an answer and never its value, since one text
//! may be two answers: `table = ok` is printed for a call on boards and for one on events. `specs/PrintedAnswers` says which
//! texts are answers at all. `AnswerGroups` parts the tokens of an answer by what they speak of, and `BrokenRules` compares
//! them with those of the right answer, which is the one of `ScriptSession`. `NamedRules` ties that to the rules by name, and
//! `SessionPairs` says which sessions of pairs are lawful, and in which the n-th pair breaks a rule. The laws are public
//! functions without a body.
#![tactic(auto)]

mod rule;
pub mod rule_laws;
pub mod session_laws;
pub mod worked_rules;

pub use rule::Rule;
