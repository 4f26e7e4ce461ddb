//! What follows from lawful sessions for a party that is driven: snapshots of several entries, and watchers on ids and values.
//!
//! A program that feeds a party its lines needs no proof about the machine that answers them. It keeps, line by line, what the
//! party's own lines have been, and the laws here give the rest: that a snapshot is that of one moment, and how many steps it
//! may take; that the reports of a watcher rise, are items of their lists, and miss nothing that was notified.
//!
//! Begin with `specs/Moments`: the pairs of a session with the state that each met, and a party's own. `Gets` has gets and
//! rounds of them, `Snapshots` and `Watchers` what a party does in turns, `SnapshotLines` and `WatcherLines` how that goes on
//! by one line more, `LawsOfTurns` how the next line is answered, `LawsOfWaits` what a party knows of its waits by the
//! answers to its own lines, and `LawsOfTakes` which notify had made an id pending that a wait took. The laws are public
//! functions without a body, but for the one of waits: its body calls the laws of `script_model` that it follows from.
#![tactic(auto)]

pub mod snapshot_laws;
pub mod take_laws;
pub mod turn_laws;
pub mod wait_laws;
pub mod watcher_laws;
pub mod worked_snapshots;
pub mod worked_takes;
pub mod worked_watchers;
