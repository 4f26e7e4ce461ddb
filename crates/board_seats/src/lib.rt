//! Whole calls on the entries of a domain, for a thread that has the domain alone: no typed ports, no lock, and no call core to drive.
//!
//! The boards' words are `SeatWords`. A handle is the `Found` that `DomainCore::entry` or `entry_mut` gave. `get`,
//! `fresh` and `update` ask whether it is held, look once for the cell that its shape names among the words of its
//! board, and make all accesses of the call. `specs/Seats` says what they answer, by the values that `board_cell`'s
//! `specs/WholeCalls` tells of a cell.
#![tactic(auto)]

mod seats;
mod update_error;

pub use seats::{fresh, get, update};
pub use update_error::UpdateError;
