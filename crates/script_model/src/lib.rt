//! The definitions by which scripts are judged, their events included: the lines of boards and of events, and the laws of whole sessions.
//!
//! Begin with `specs/ScriptSession`: right answers, the state after a line, and the lawful sessions. The rules of an answer
//! stand in `ScriptRules`. `ScriptTurns` says what a line is on account of events; a line that is none of that is answered
//! by the rules of boards. `ScriptOutput` has the sessions whose lines are those of an input, and their output. The laws are
//! public functions without a body. `made_names` and `reports` serve the code that runs lines and the code that judges them.
#![tactic(auto)]

pub mod answer_laws;
pub mod composition_laws;
pub mod event_laws;
pub mod form_laws;
mod line;
pub mod line_laws;
mod made_names;
pub mod part_laws;
mod reply;
mod reports;
pub mod rule_laws;
pub mod sound_law;
pub mod worked_events;
pub mod worked_scripts;

pub use line::{EventName, EventRequest, ScriptLine};
pub use made_names::{name_made, new_name};
pub use reply::EventReply;
pub use reports::{end_told, is_last, is_waiting, report};
