//! The events of a script as a checker of sessions keeps them: by number, and by the names that are held.
//!
//! `specs/EventTables` says for which events of the definitions a table stands. The rows are those of `script_event_rows`.
//! `specs/Listeners` says which listeners are one party's, so that an abandonment goes over these alone.
#![tactic(auto)]

mod event_names;
mod event_table;
mod listeners;

pub use event_table::EventTable;
