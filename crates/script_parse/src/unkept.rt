//! What is known of a line for which memory was refused.
use board_model::Name;
use std::alloc::AllocError;

/// What a call makes, as far as a refusal of the call depends on it.
#[derive(Clone, Copy, Debug)]
pub struct Made {
    /// The name of the thing.
    pub name: Name,
    /// Whether the keys of its entries, if there are any, are of the type that it declares.
    pub is_typed: bool,
}

/// A line with the name of a board or an event, for which memory was refused: all that a refusal of the line depends on.
#[derive(Clone, Copy, Debug)]
pub struct Unkept {
    /// The party whose line it is.
    pub party: Name,
    /// What the line's call makes.
    pub made: Made,
}

impl From<Unkept> for AllocError {
    fn from(_line: Unkept) -> AllocError {
        AllocError
    }
}
