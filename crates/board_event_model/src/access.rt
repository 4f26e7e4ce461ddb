//! The accesses to the memory of an event. A call makes one after another, and other calls come between.

/// One access.
#[derive(Clone, Copy, Debug, PartialEq, Eq)]
pub enum EventAccess {
    /// Looks whether the event has its listener.
    Listener,
    /// Makes an id pending.
    Set(u64),
    /// Adds a signal.
    Post,
    /// Adds an id to the queue.
    Push(u64),
    /// Takes a signal, where there is one.
    Signal,
    /// Reads the pending ids of a word.
    Scan(u64),
    /// Takes an id.
    Clear(u64),
    /// Takes all pending ids of a word.
    Swap(u64),
    /// Takes the oldest id of the queue.
    Pop,
}

/// What an access is answered.
#[derive(Clone, Copy, Debug, PartialEq, Eq)]
pub enum EventAnswer {
    /// To a set, a post, a clear, and a push that added its id.
    Done,
    /// To a look or a signal.
    Yes,
    /// To a look or a signal.
    No,
    /// To a scan or a swap: bit i is the word's id i.
    Word(u64),
    /// To a pop.
    Id(u64),
    /// To a pop of an empty queue.
    Empty,
    /// To a push on a queue of 512 ids.
    Full,
    /// To a push where the listener is gone.
    Gone,
}
