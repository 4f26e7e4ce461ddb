//! The kinds of events.

/// How an event keeps the ids that wait.
#[derive(Clone, Copy, Debug, PartialEq, Eq)]
pub enum EventKind {
    /// As a set of ids up to a greatest one, and a count of signals.
    Bits,
    /// As a list, oldest first.
    Queue,
}
