//! The definitions by which boards and their scripts are judged, and the plain data that these speak of.
//!
//! Begin with `specs/LawfulSession`: what a right answer to a line is, the state after it, and the lawful sessions. A
//! state is made of functions (of each board number its words, of each party what it does), so that facts about a state
//! are pointwise. `specs/Replies` is the board asked one call at a time, `specs/Sound` what each right line keeps. The
//! laws are the public functions without a body in the modules whose names end in `_laws`, and `sound_law`;
//! `worked_sessions` and `worked_updates` were worked out by hand.
#![tactic(auto)]

mod answer;
pub mod answer_laws;
mod attributes;
pub mod bound_laws;
pub mod count_laws;
pub mod form_laws;
pub mod id_laws;
pub mod key_laws;
mod kinds;
mod line;
pub mod listing_laws;
mod lists;
pub mod other_laws;
pub mod read_laws;
pub mod session_laws;
pub mod sound_law;
mod tables;
mod type_table;
mod value;
pub mod worked_sessions;
pub mod worked_updates;

pub use answer::{Answer, Info, Reason, Reply};
pub use attributes::{Attribute, Requirements};
pub use line::{BoardName, Call, Line, Name};
pub use lists::{
    AddedEntries, AttributeKeys, Attributes, Entries, Items, Keys, LongName, Names, Words,
};
pub use tables::{Board, Entry, Kind, Limits, NewLimits, Thing, ThingKind};
pub use type_table::{
    have_key_type, key_bytes, key_detail, key_of, key_type_of, same_key_type, same_type,
    same_variant, type_of, type_of_key, value_detail, value_type_of, value_words,
};
pub use value::{AddedEntry, Key, KeyType, Value, ValueType};
