//! The definitions by which one cell is judged: where its two copies lie, and the accesses that a read and a publication owe.
//!
//! A cell is a counter, a reserved word and two copies of a value. `specs/OwedAccesses` says where the copies lie, which
//! word a get reads next, after what it has read, and which word an update writes next.
#![tactic(auto)]

mod access;
mod laws;

pub use access::Access;
pub use laws::{a_get_hears_in_order, a_try_decides, copies_lie_apart, the_counter_is_raised_last};
