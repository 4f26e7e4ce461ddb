//! What holds of a domain that is reached by typed calls alone, as laws over what the clauses of their lent forms say.
//!
//! `specs/Order` says when the cells of a domain are in order: each entry has a cell of as many words as its values
//! take, an end that is parked is of its entry's cell, and one is parked wherever no write handle stands. A new domain
//! is so, and each call leaves it so (`calls_keep_order`). From this follows what no clause of one call says: a port
//! that is held is never answered `ThingUnknown`, nor is a factory that is held (`ports_are_known`), the handles of an
//! entry share its one cell (`handles_share_the_cell`), and keys have at most 64 bytes (`keys_are_short`). Each call
//! leaves every other thing as it was (`calls_keep_others`), so all this holds wherever a program comes by typed calls
//! alone (`specs/Runs`, `typed_calls_alone`), and of the builders of ports too, which borrow their factory.
#![tactic(auto)]

mod laws;

pub use laws::{
    calls_keep_order, calls_keep_others, handles_share_the_cell, keys_are_short, ports_are_known,
    typed_calls_alone,
};
