//! What a seat of the cell's table knows. No value of these types is made: they are what contracts see of a seat.
use std::collections::LinkedList;

/// A value that a reader read.
pub struct Note {
    /// The generation at which it was read.
    pub generation: u64,
    /// Its words.
    pub words: LinkedList<u64>,
}

/// What the writer's seat knows.
pub struct WriterView {
    /// The published values, the opening one first.
    pub published: LinkedList<LinkedList<u64>>,
    /// What the spare copy begins with.
    pub pending: LinkedList<u64>,
    /// Notes of readers that it has met.
    pub copies: LinkedList<Note>,
    /// The generation that is known to be reached.
    pub reached: u64,
}

/// What the seat of a reader or of a receipt knows.
pub struct ReaderView {
    /// What was read, the latest last.
    pub notes: LinkedList<Note>,
    /// Notes of readers that it has met.
    pub copies: LinkedList<Note>,
    /// The counters that it loaded.
    pub loads: LinkedList<u64>,
    /// The generation that is known to be reached.
    pub reached: u64,
    /// The counter of the open try.
    pub opened: u64,
    /// The words of the open try.
    pub found: LinkedList<u64>,
}

/// What a seat knows.
pub enum View {
    /// The seat was given up.
    Spent,
    /// The writer's.
    Writer(WriterView),
    /// A reader's, or a receipt's.
    Reader(ReaderView),
}
