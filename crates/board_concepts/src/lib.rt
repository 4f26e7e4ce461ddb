//! The front of all concepts that a service is made of.
//!
//! A concept of named things has a module with its traits, its types and `Local`, its implementation within one process:
//! `monitoring`, `communication_channel` and `static_storage`. `hash`, `serialize` and `arc_sync_policy` are concepts of values. Beside them
//! stand attributes, descriptions and how a value is shared.
//!
//! `specs/Spelling` says how numbers, texts and lists are spelled in bytes, `specs/DescriptionSpelling` how a board's
//! description is, and `specs/Attributes` what a set of attributes has and when it meets requirements.
#![tactic(auto)]

pub mod arc_sync_policy;
mod attribute_set;
mod attribute_specifier;
mod attribute_verifier;
pub mod communication_channel;
mod description;
pub mod hash;
mod laws;
pub mod monitoring;
pub mod serialize;
mod sharing;
mod spelling;
pub mod static_storage;

pub use arc_sync_policy::{ArcSyncPolicy, MutexProtected, SingleThreaded};
pub use attribute_set::AttributeSet;
pub use attribute_specifier::AttributeSpecifier;
pub use attribute_verifier::AttributeVerifier;
pub use description::Description;
pub use laws::{no_spelling_begins_another, what_is_written_reads_back};
pub use sharing::{Policy, Shared, Single};
