//! The answers to the lines of a script.
use crate::lists::{Keys, LongName, Names, Words};
use crate::value::{KeyType, ValueType};
use board_cell_model::Access;
use board_names::{
    BlackboardCreateError, BlackboardOpenError, EntryHandleError, EntryHandleMutError,
    ReaderCreateError, WriterCreateError,
};

/// Why a line changes nothing.
#[derive(Clone, Copy, Debug, PartialEq, Eq)]
pub enum Reason {
    /// The party was abandoned.
    Abandoned,
    /// The party's call runs.
    Busy,
    /// The party runs no call.
    Idle,
    /// The party doesn't hold something that the line uses, or it is of another kind.
    Unknown,
    /// The party holds something under the name of what the call is to make.
    Taken,
    /// The key or the value is of another type.
    Type,
    /// The value has no word of that index.
    Index,
    /// Not all words of the loan were put.
    Unfilled,
    /// The party's call isn't a timed wait whose last step was a waiting look that found nothing.
    NotWaiting,
    /// No such board stands.
    NoBoard,
}

/// What is told of a board: its limits, how many entries and attributes it has, and what is taken of it.
#[derive(Drop, Debug)]
pub struct Info {
    /// The board's name.
    pub name: LongName,
    /// The type of its keys.
    pub key_type: KeyType,
    /// How many readers it may have.
    pub max_readers: u64,
    /// How many nodes it may have.
    pub max_nodes: u64,
    /// How many writer slots it has.
    pub max_writers: u64,
    /// How many entries it has.
    pub entries: u64,
    /// How many attributes it has.
    pub attributes: u64,
    /// How many readers are taken.
    pub readers: u64,
    /// How many writer slots are taken.
    pub writers: u64,
    /// How many nodes have a thing of it.
    pub nodes: u64,
}

/// What a finished call is told.
#[derive(Drop, Debug)]
pub enum Reply {
    /// It is done.
    Done,
    /// The number of a board or port, or an entry id.
    Number(u64),
    /// A value was read.
    Got {
        /// Its type.
        value_type: ValueType,
        /// Its words.
        words: Words,
        /// Its generation.
        generation: u64,
    },
    /// Whether a value is the last that was published.
    Fresh(bool),
    /// The keys of a board, in the order of adding.
    Keys(Keys),
    /// The parties with a thing of a board, ascending.
    Nodes(Names),
    /// What a board is, and how much of it is taken.
    Info(Info),
    /// The id of an entry.
    Id(u64),
    /// The generation of an entry.
    Generation(u64),
    /// No board was made.
    CreateError(BlackboardCreateError),
    /// No board was opened.
    OpenError(BlackboardOpenError),
    /// No reader was made.
    ReaderError(ReaderCreateError),
    /// No writer was made.
    WriterError(WriterCreateError),
    /// No read handle was made.
    EntryError(EntryHandleError),
    /// No write handle was made.
    EntryMutError(EntryHandleMutError),
}

/// The answer to a line.
#[derive(Drop, Debug)]
pub enum Answer {
    /// A call has begun.
    Begun,
    /// Nothing was changed, for this reason.
    Refused(Reason),
    /// A call made an access.
    Step {
        /// The access.
        access: Access,
        /// What it was told, where it has ended.
        reply: Option<Reply>,
    },
    /// A thing was given up, or a party abandoned.
    Gone,
    /// The words of a board.
    Words(Words),
}
