//! A cell that one writer and any number of readers share, each in a thread of its own, without a lock.

mod cell;
mod first_try;
mod gather;
mod promise;
mod reader;
mod receipt;
mod rule;
mod steps;
mod view;
mod writer;

pub use cell::ThreadedCell;
pub use gather::Gathered;
pub use promise::OfCell;
pub use reader::{GetAgain, ReaderPass};
pub use receipt::Receipt;
pub use view::Note;
pub use writer::WriterPass;
