//! Types as words, keys, and where the cells of a board lie.
//!
//! A value of a type lies in words (`ZeroCopySend`), a key in bytes (`KeyMemory`), and `plan` gives each shape a cell.
//! `specs/Layout` has the places, `Words` and `Values` how values lie in words, `Types` how types are named, and `Keys`
//! when two keys are equal. `Answer` has two words with which all crates above say what a call that wants memory
//! answers: `Answers` and `Refuses`.
#![tactic(auto)]

mod f8;
mod key_memory;
mod key_words;
mod keys;
mod numbers;
mod opening;
mod plan_types;
mod planning;
mod shape;
mod text;
mod truth_and_arrays;
mod type_detail;
mod type_name;
mod zero_copy_send;

pub use f8::F8;
pub use key_memory::{
    KeyMemory, KeyMemoryError, MAX_BLACKBOARD_KEY_ALIGNMENT, MAX_BLACKBOARD_KEY_SIZE,
};
pub use keys::{is_key, key_of, same_keys};
pub use opening::{push_cell, push_zeros};
pub use plan_types::{Plan, PlanError};
pub use planning::plan;
pub use shape::{CellPlace, CellShape, Shape};
pub use text::Text;
pub use type_detail::{TypeDetail, TypeVariant};
pub use type_name::{MAX_TYPE_NAME_LENGTH, TypeName};
pub use zero_copy_send::{BoardKey, ZeroCopySend};
