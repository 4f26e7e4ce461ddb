//! What a check comes to.
use script_rules::Rule;
use std::alloc::{AllocError, AllocFailed};
use thiserror::Error;

/// What lines and their answers in turn are.
#[derive(Clone, Copy, Debug, PartialEq, Eq)]
pub enum Verdict {
    /// A lawful session of so many pairs.
    Lawful { pairs: u64 },
    /// The pairs before this one, counted from 1, are lawful, and it breaks the rule.
    No { pair: u64, rule: Rule },
}

/// Why no verdict was reached.
#[derive(Clone, Copy, Debug, PartialEq, Eq, Error)]
pub enum CheckError {
    /// The source failed.
    #[error("read fault")]
    ReadFault,
    /// A byte follows the last pair that is allowed.
    #[error("too long")]
    TooLong,
    /// Memory was refused.
    #[error("out of memory")]
    OutOfMemory,
}

impl From<AllocError> for CheckError {
    ghost use Rattle.std.specs.Prelude.{◌≡◌};
    ghost use Rattle.script_pairs.specs.declared.verdict.CheckError.TheVariants.{OutOfMemory};

    ghost from_gives = { λ _ e. e ≡ OutOfMemory };

    fn from(_refused: AllocError) -> CheckError {
        CheckError::OutOfMemory
    }
}

impl<T: Drop> From<AllocFailed<T>> for CheckError {
    ghost use Rattle.std.specs.Prelude.{◌≡◌};
    ghost use Rattle.script_pairs.specs.declared.verdict.CheckError.TheVariants.{OutOfMemory};

    ghost from_gives = { λ _ e. e ≡ OutOfMemory };

    fn from(_refused: AllocFailed<T>) -> CheckError {
        CheckError::OutOfMemory
    }
}
