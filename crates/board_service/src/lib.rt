//! The boards of a domain, and the things of them.
//!
//! `DomainCore<C>` is the definitions' tables, generic in what holds the words of a board: the boards by number and name
//! (`board_index`), and the things with the numbers that are kept of them (`board_things`). A call is early returns by tests
//! (`refusals`, `lookups`), then all memory that is wanted, then pushes that can't fail. `specs/Domain` says what each call answers and leaves, in the words of the definitions. The descriptions of
//! boards stand in a static storage, under full names made from board numbers; `specs/Descriptions` has the invariant
//! that they are those of the boards that stand.
#![tactic(auto)]

mod add_error;
mod board_words;
mod cells;
mod descriptions;
mod domain_core;
mod held;
mod ids;
mod lookups;
mod made;
mod new_entry;
mod planned;
mod refusals;
mod told;

pub use add_error::AddError;
pub use board_index::{EntryRow, KeptType};
pub use board_model::{Limits, ThingKind, same_type};
pub use board_things::Held;
pub use cells::{BoardWords, Cells};
pub use domain_core::DomainCore;
pub use ids::{NodeId, ThingId};
pub use made::{Found, Made};
pub use new_entry::NewEntry;
pub use told::{DynamicConfig, StaticConfig};
