//! The things of a domain by their numbers, and what is counted of them.
//!
//! `Things` keep the things under their numbers, so that nothing goes over the things: to look one up costs the same however
//! many stand, and to add one or take one out does too, but where a node comes to a board or leaves it (see below).
//! Contracts see them as a list in the order of making, which is that of the numbers, since these only rise. What the limits
//! of boards ask for is kept beside them: how many of a board stand, its readers, its writer slots and its nodes, and by
//! hashed pairs the things of a board and a node, those that keep a port, and the write handles of an entry. `specs/Kept`
//! has the invariant: each thing stands under its own number, and each kept number is the count over the things.
//! The nodes of all boards stand in one sorted list of pairs (`nodes`), in which those of a board stand together. The list is
//! kept in parts of at most 256 pairs (`part`, `parts`). A node that comes to a board or leaves it moves pairs of its part and
//! of the parts beside it alone; where a part comes or goes, those behind it move up or down in the list of parts, with their
//! pairs where they are. Beside the parts stands how many pairs there are up to the end of each (`ends`), counted anew from
//! the first part that changed on, so that the node at a place is found by bisection.
#![tactic(auto)]

mod ends;
mod nodes;
mod part;
mod parts;
mod things;
mod uses;

pub use things::{Held, Things};
