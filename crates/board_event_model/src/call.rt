//! The calls on an event: how long a wait goes on, where a call stands, and what it has come to.
use board_names::NotifierNotifyError;

/// How long a wait goes on.
#[derive(Clone, Copy, Debug, PartialEq, Eq)]
pub enum WaitMode {
    /// It ends where it finds nothing.
    Try,
    /// It looks again until it is let expire.
    Timed,
    /// It looks again without an end.
    Block,
}

/// What a call has come to with an access.
#[derive(Clone, Copy, Debug, PartialEq, Eq)]
pub enum EventProgress {
    /// It goes on.
    More,
    /// It was a waiting look that found nothing.
    Waiting,
    /// A wait took the ids `base + i` for each set bit i of `bits`, and has ended where this was its `last` access.
    Took { base: u64, bits: u64, last: bool },
    /// A wait took this `id`, and has ended where this was its `last` access.
    Id { id: u64, last: bool },
    /// A notify ended well.
    Notified,
    /// A notify was refused.
    Refused(NotifierNotifyError),
    /// A wait ended with no id.
    Nothing,
}

/// The access that a notify owes next.
#[derive(Clone, Copy, Debug, PartialEq, Eq)]
pub enum NotifyStage {
    /// The look at the listener.
    Look,
    /// The id is set.
    Set,
    /// A signal is posted.
    Post,
    /// The one access on a queue.
    Push,
    /// None.
    Finished,
}

/// The access that a wait owes next.
#[derive(Clone, Copy, Debug, PartialEq, Eq)]
pub enum WaitStage {
    /// A signal, until there is none.
    Drain,
    /// The read of a word, by its index, in a wait for one.
    Scan { word: u64 },
    /// The taking of the least id of a word that was read.
    Clear { id: u64 },
    /// The taking of a word, by its index, in a wait for all; and whether an id was taken before.
    Swap { word: u64, some: bool },
    /// The waiting look, after all words were found empty.
    Look,
    /// A pop, after so many ids were taken.
    Pop { taken: u64 },
    /// None.
    Finished,
}
