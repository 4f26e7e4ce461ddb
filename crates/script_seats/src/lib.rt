//! Who holds what under which name: an index from a party and a name to the number of the one thing under them.
//!
//! Whoever keeps the things keeps them under numbers, and tells `Seats` what comes, goes and gets another name. `Seats`
//! keeps numbers alone. Contracts speak of all things, as a function from numbers, that the index is right for. `put`
//! and `forget` are for other maps under parties and names.
#![tactic(auto)]

mod maps;
mod seats;

pub use maps::{forget, put};
pub use seats::{Seat, Seats, Sought};
