//! A plan, and why there is none.
use crate::shape::CellPlace;
use std::alloc::{AllocError, AllocFailed};
use thiserror::Error;

/// Why there is no plan.
#[derive(Clone, Copy, Debug, PartialEq, Eq, Hash, Error)]
pub enum PlanError {
    /// The cells ask for more than 4294967295 bytes.
    #[error("PlanError::TooLarge")]
    TooLarge,
    /// Memory was refused.
    #[error("PlanError::OutOfMemory")]
    OutOfMemory,
}

/// Where the cells of a board lie.
#[derive(Drop, Debug)]
pub struct Plan {
    /// The cells, in the order of their shapes.
    pub cells: Vec<CellPlace>,
    /// The number of the word behind the last cell: so many words are needed.
    pub end: u64,
    /// The bytes that are asked for.
    pub payload: u64,
}

impl From<AllocError> for PlanError {
    ghost use Rattle.std.specs.Prelude.{◌≡◌};
    ghost use Rattle.board_layout.specs.declared.plan_types.PlanError.TheVariants.{OutOfMemory};

    ghost from_gives = { λ _ e. e ≡ OutOfMemory };

    fn from(_e: AllocError) -> PlanError {
        PlanError::OutOfMemory
    }
}

impl<T: Drop> From<AllocFailed<T>> for PlanError {
    ghost use Rattle.std.specs.Prelude.{◌≡◌};
    ghost use Rattle.board_layout.specs.declared.plan_types.PlanError.TheVariants.{OutOfMemory};

    ghost from_gives = { λ _ e. e ≡ OutOfMemory };

    fn from(_e: AllocFailed<T>) -> PlanError {
        PlanError::OutOfMemory
    }
}
