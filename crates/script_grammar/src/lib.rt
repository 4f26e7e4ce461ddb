//! What holds of the grammars of lines and of answers, and a reader of lines to which a parser can be proved equal.
//!
//! What a line is, the definitions say without a reader (`LineGrammar` of `board_model`, `ScriptGrammar` of
//! `script_model`). `specs/TokenReading`, `LineReading` and `EventReading` read tokens, board lines and any lines of a
//! script, and that both agree is proved here.
#![tactic(auto)]

pub mod board_line_laws;
pub mod number_laws;
pub mod output_laws;
pub mod script_line_laws;
