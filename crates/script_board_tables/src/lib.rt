//! The boards of a script as a checker of sessions keeps them: tables, words, published lists, loans and kept values, and the
//! calls on boards that run.
//!
//! `specs/Tables` says what of the definitions' state a `BoardTables` has, `specs/Calls` which request a call is and how far it
//! is. `find` looks a call up (`requests`), `step` makes its next access (`step`), `release` lets a thing go. Each contract is
//! an equation with the definitions' own function. `specs/Boards` has the indexes by which a board is found. Nothing of a domain and
//! no call core is used.
#![tactic(auto)]

mod asking;
mod boards;
mod calls;
mod cells;
mod laws;
mod release;
mod requests;
mod step;
mod tables;

pub use calls::{BoardCall, Fetch, Lent, Look, Publishing, TableCall};
pub use laws::running_calls_can_step;
pub use requests::Found;
pub use script_seats::Seat;
pub use step::Stepped;
pub use tables::{BoardTables, KeptValue, LoanWords};
