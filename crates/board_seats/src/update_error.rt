//! Why a value was not published.
use thiserror::Error;

/// Why a value was not published.
#[derive(Error, Drop, Clone, Copy, Debug, PartialEq, Eq)]
pub enum UpdateError {
    /// The write handle isn't held, what was found isn't what the tables have of it, or the words of its board have no such
    /// cell.
    #[error("UpdateError::{:?}", self)]
    HandleUnknown,
    /// The entry has had as many values as can be counted: 2^64 - 1.
    #[error("UpdateError::{:?}", self)]
    GenerationsSpent,
}
