//! The things of a script, and what the definitions ask of them: who holds what, what is taken of a board, and what is told of
//! it. Things are seen as a list, but as long as a party has one thing at most under a name, nothing goes over it: a thing is
//! found by its party and name, and what is taken of each board is kept as things come and go. `specs/Places` has the list,
//! `script_seats` the index, and `specs/Taken` what is kept: each kept number is what the definitions count.
//!
//! Each function's contract names the function of the definitions that it computes.
#![tactic(auto)]

mod listings;
mod lookups;
mod named;
mod taken;

pub use listings::{info_of, keys_of};
pub use lookups::Held;
pub use named::NamedThings;
