//! The machine of scripts whose parties can take snapshots of several entries at once, over any machine of plain scripts.
//!
//! `SnapshotMachine` answers a line. `shot` has a snapshot that a party takes: the handles, the generations of the round
//! before and of this one, and what is written where it ends. Contracts see which exchanges of lines and what is told of
//! them led to it (`specs/Machines`), and how each snapshot is kept (`specs/Shots`).
#![tactic(auto)]

mod machine;
mod shot;

pub use machine::SnapshotMachine;
