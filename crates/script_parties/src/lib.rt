//! A domain as the parties of a script see it: nodes are parties, and things have the names that parties gave them.
//!
//! `PartyDomain<C>` is a `DomainCore<C>`, the parties that are its nodes, and under the core's number of each thing the
//! party and the name that it stands under, with an index from these to the number. Contracts see it as `specs/Parties`
//! has it: the definitions' tables with parties for nodes and names for numbers, and the words of each board. The things
//! are the core's in its order, each under its party and its name; `specs/Named` and `specs/Numbered` are what holds
//! between the two. What is counted over the things doesn't see names, so a refusal of the core is the refusal of the
//! definitions.
#![tactic(auto)]

mod adding;
mod entry_tests;
mod lists;
mod lookups;
mod named;
mod party_domain;
mod short_name;
mod short_seat;
mod typed_calls;

pub use lookups::{FoundThing, Held};
pub use party_domain::PartyDomain;
