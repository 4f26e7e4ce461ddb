//! How long the right answers of a script are, and that a run's lines and output are a lawful session of pairs.
//!
//! No line has more than 4096 bytes, so a board has few entries and words, and a wait takes each id of a set once and few of a
//! queue. `specs/SizedAnswers` bounds texts by the lists that they tell, `BoardSizes` the boards, `EventRooms` the ids that a
//! running wait has taken. `ScriptLengths` has the law: no right answer is longer than a judge of sessions lets an answer be.
//! So `CheckedRuns`: the lines of a run and the lines of its output, in turn, are a lawful session. The laws are public
//! functions without a body.
#![tactic(auto)]

pub mod board_laws;
pub mod script_laws;
pub mod text_laws;
