//! Why a task wasn't done.
ghost use Rattle.std.specs.Prelude.{◌≡◌};
ghost use Rattle.board_bench.specs.declared.bench_error.BenchError.TheVariants as bench_error;

use board_cell::CellError;
use std::alloc::AllocError;
use thiserror::Error;

/// Why a task wasn't done.
#[derive(Debug, Drop, Error)]
pub enum BenchError {
    /// Memory was refused.
    #[error("out of memory")]
    OutOfMemory,
    /// A call on typed ports or events was refused, for want of memory too, or didn't give what was put. The text tells which.
    #[error("{0}")]
    Refused(anyhow::Error),
}

impl From<CellError> for BenchError {
    ghost from_gives = { λ _ e. e ≡ bench_error.OutOfMemory };

    fn from(error: CellError) -> BenchError {
        match error {
            CellError::OutOfMemory => BenchError::OutOfMemory,
        }
    }
}

impl From<AllocError> for BenchError {
    ghost from_gives = { λ _ e. e ≡ bench_error.OutOfMemory };

    fn from(_: AllocError) -> BenchError {
        BenchError::OutOfMemory
    }
}
