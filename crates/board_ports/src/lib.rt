//! The handles of an entry as plain data: what a read handle, a write handle and a loan know, and the calls on the entry's cell that each gives.
//!
//! `ReadCore` has the shape and the place of its entry's cell, `WriteCore` the same and the generation that it is at,
//! and `LoanCore` is a write handle that is out, with an optional word for each word of a value. Each call gives the
//! call core of the entry at the handle's generation, before its first access (`specs/EntryCalls`). Who has the handle
//! drives it, and tells the handle when it is done (`published`, `wrote`, `into_write`). What a loan is seen as, and
//! what becomes of it, stands in `specs/Loans`.
#![tactic(auto)]

mod loan_core;
mod read_core;
mod write_core;

pub use board_cell::{CellShape, FreshCall, GetCall, PublishCall, PutCall, UpdateCall};
pub use loan_core::{LoanCore, LoanWords};
pub use read_core::ReadCore;
pub use write_core::WriteCore;
