//! The words of a cell, the calls on it as step machines, and the cell between threads.
//!
//! A call core (`GetCall`, `UpdateCall`, `FreshCall`, `PutCall`, `PublishCall`) makes no access itself: `next` tells
//! the access that it owes, and `took` is told that this was made. The script's machine drives it by one access a line.
//!
//! `ThreadedCell` is one table of atomic words with no lock, and drives the same cores. Each thread has a pass, which
//! is the view of its own seat: the writer's knows what was published and what is being written, a reader's its notes
//! (generation and words), the counters that it loaded, and the generation that it knows to be reached. `specs/Rule`
//! has the one record of facts that holds of the words and all views at every moment, `specs/Views` what a step does to
//! the view that takes it, `specs/Passes` what callers see of a pass, and `specs/History` the legal history of all
//! publications and notes, which `gather` gives. `threaded/steps` has the atomic steps, and `threaded/first_try` those
//! of a get that has no core in its first try. `OfCell` is the promise of a thread that what it gives back is of a cell.
//!
//! A thread that has the words alone calls `get_on`, `fresh_on` and `update_on`, which make all accesses of a call.
#![tactic(auto)]

mod access;
mod cell_error;
mod copies;
mod get_call;
mod laws;
mod one_access;
mod plain_words;
mod runs;
mod seat_words;
mod threaded;
mod update_call;
mod whole_calls;
mod words;

pub use access::{Access, Progress};
pub use board_cell_model::{a_get_hears_in_order, a_try_decides};
pub use board_layout::CellShape;
pub use cell_error::CellError;
pub use get_call::GetCall;
pub use laws::{a_cell_has_one_value, a_get_is_no_older, a_history_is_legal};
pub use one_access::{FreshCall, PublishCall, PutCall};
pub use plain_words::PlainWords;
pub use runs::{run_fresh, run_get, run_publish, run_put, run_update};
pub use seat_words::SeatWords;
pub use threaded::{
    Gathered, GetAgain, Note, OfCell, ReaderPass, Receipt, ThreadedCell, WriterPass,
};
pub use update_call::{UpdateCall, ValueWords};
pub use whole_calls::{fresh_on, get_on, update_on};
pub use words::Words;
