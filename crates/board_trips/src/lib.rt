//! Round trips of ids between two threads, over two typed events: one thread sends an id and waits until it came back, the
//! other sends back each that comes. `board_bench` measures them.
//!
//! What comes out of a typed event no clause says. So trips are counted where they are made, by a type to which one call
//! alone adds (`Rounds`, and `Echoes` in the thread that sends back), over ends of the kind that the type names. What these
//! calls send and take is shown by tests.
//! The trips have a crate of their own for them, since the functions of a crate that has tests are proved twice.
#![tactic(auto)]

mod counts;
mod trips;

pub use counts::{Count, Echo, Echoes, Round, Rounds};
pub use trips::{Trips, run_trips};

#[cfg(test)]
mod tests;
