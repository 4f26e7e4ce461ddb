//! Accesses to the words of a board, and whether a call owes another one.
/// One access to a word.
#[derive(Clone, Copy, Debug, PartialEq, Eq)]
pub enum Access {
    /// Reads the word at this place.
    Read { word: u64 },
    /// Writes this value into the word at this place.
    Write { word: u64, value: u64 },
}

/// Whether a call owes another access.
#[derive(Clone, Copy, Debug, PartialEq, Eq)]
pub enum Progress {
    /// It owes one.
    More,
    /// It has made its last.
    Done,
}
