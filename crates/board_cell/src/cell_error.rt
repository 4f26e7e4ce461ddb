//! Why there is no cell.
use std::alloc::{AllocError, AllocFailed};
use thiserror::Error;

/// Why there is no cell.
#[derive(Error, Drop, Clone, Copy, Debug, PartialEq, Eq)]
pub enum CellError {
    /// Memory was refused.
    #[error("CellError::OutOfMemory")]
    OutOfMemory,
}

impl From<AllocError> for CellError {
    ghost use Rattle.std.specs.Prelude.{◌≡◌};
    ghost use Rattle.board_cell.specs.declared.cell_error.CellError.TheVariants.{OutOfMemory};

    ghost from_gives = { λ _ e. e ≡ OutOfMemory };

    fn from(_error: AllocError) -> CellError {
        CellError::OutOfMemory
    }
}

impl<T: Drop> From<AllocFailed<T>> for CellError {
    ghost use Rattle.std.specs.Prelude.{◌≡◌};
    ghost use Rattle.board_cell.specs.declared.cell_error.CellError.TheVariants.{OutOfMemory};

    ghost from_gives = { λ _ e. e ≡ OutOfMemory };

    fn from(_error: AllocFailed<T>) -> CellError {
        CellError::OutOfMemory
    }
}
