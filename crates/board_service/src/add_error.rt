//! Why there is no entry of a key and a first value.
use board_layout::KeyMemoryError;
use thiserror::Error;

/// Why there is no entry of a key and a first value.
#[derive(Clone, Copy, Debug, PartialEq, Eq, Error)]
pub enum AddError {
    /// The key is too large, or its alignment is.
    #[error("AddError::{:?}", self)]
    Key(KeyMemoryError),
    /// Memory was refused.
    #[error("AddError::{:?}", self)]
    OutOfMemory,
}
