//! The cells of a board whose handles are in many threads: one `ThreadedCell` for each entry, with its two ends.
//!
//! A `ReadEnd` is a cell with a reader's pass of it, a `WriteEnd` a cell with its writer's pass; that a pass is of the
//! cell beside it is part of their types. `BoardCells` keeps a read end of each entry, which is shared by whoever asks,
//! and the write end where no write handle has it. A `SentReceipt` is a receipt with its cell, for another thread.
//! `specs/Cells` says what callers see of the cells of a board, `specs/Ends` of their ends.
#![tactic(auto)]

mod cells;
mod ends;
mod making;
mod place;

pub use cells::BoardCells;
pub use ends::{ReadEnd, SentReceipt, WriteEnd};
