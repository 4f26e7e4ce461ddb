//! Accesses, as they are printed.

/// One access of a call: one look at the tables, or one word of a board read or written.
#[derive(Clone, Copy, Debug, PartialEq, Eq)]
pub enum Access {
    /// A look at the tables, or a change of them.
    Table,
    /// This value was read in the word.
    Read { board: u64, word: u64, value: u64 },
    /// This value was written into the word.
    Write { board: u64, word: u64, value: u64 },
}
