//! Nodes of a domain, and how they make and open boards.
//!
//! A `Node` has a number of its domain and a name. Its `ServiceBuilder` makes a `Creator`, which is told limits and
//! entries and then makes a board, or an `Opener`, which finds one. Either gives a `PortFactory`, which keeps what is
//! fixed of its board and makes ports. What callers see of each, and what the lent forms answer and leave, stands in
//! `specs/Services`; it is said in the words of the tables' calls.
#![tactic(auto)]

mod callback_progression;
mod creator;
mod kept;
mod messaging_pattern;
mod node;
mod node_laws;
mod opener;
mod port_factory;
mod service_builder;
mod service_hash;
mod walks;

pub use board_names::{NodeName, ServiceName};
pub use board_service::AddError;
pub use callback_progression::CallbackProgression;
pub use creator::Creator;
pub use messaging_pattern::MessagingPattern;
pub use node::Node;
pub use node_laws::nodes_are_told;
pub use opener::Opener;
pub use port_factory::PortFactory;
pub use service_builder::ServiceBuilder;
