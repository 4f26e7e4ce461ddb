//! Scripts whose parties can be driven: a program gives a driven party its next line, one a turn.
//!
//! A line of such a script is a line of a plain script, or starts to drive a party, or is a turn of one (`specs/DriveGrammar`).
//! What is written of it is a list of `Told`: lines that were given to the machine of scripts, each with its answer, and
//! lines that the program says of its own (`specs/Exchanges`). The lines given, with their answers, are the fed session.
//! `specs/DrivenParties` says which lines are held back from the machine while a party is driven, and how answers are
//! looked at. Which exchanges are right is for each program to say.
#![tactic(auto)]

mod line;

pub use line::{Drive, DriveLine};
