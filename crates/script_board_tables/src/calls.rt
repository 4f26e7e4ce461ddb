//! Calls on boards that run.
use crate::tables::LoanWords;
use board_layout::CellShape;
use board_model::{
    AddedEntries, Attributes, BoardName, Key, KeyType, Limits, Name, NewLimits, Requirements,
    ValueType, Words,
};
use script_board_rows::Reading;
use script_things::Held;

/// A call on the tables, which is one step, with the things that it uses.
#[derive(Drop)]
pub enum TableCall {
    /// Makes a board.
    Create {
        /// The name of the factory.
        factory: Name,
        /// The board's name.
        name: BoardName,
        /// The type of its keys.
        key_type: KeyType,
        /// What it is to allow.
        limits: NewLimits,
        /// Its attributes.
        attributes: Attributes,
        /// Its entries, in this order.
        entries: AddedEntries,
    },
    /// Opens one.
    Open {
        /// The name of the factory.
        factory: Name,
        /// The board's name.
        name: BoardName,
        /// The type of its keys.
        key_type: KeyType,
        /// What it is to allow at least.
        limits: Limits,
        /// What is needed of its attributes.
        needs: Requirements,
    },
    /// Makes a reader of a board.
    Reader {
        /// The name of the reader.
        reader: Name,
        /// The factory.
        factory: Held,
    },
    /// Makes a writer of a board.
    Writer {
        /// The name of the writer.
        writer: Name,
        /// The factory.
        factory: Held,
    },
    /// Makes a read handle of an entry.
    Entry {
        /// The name of the handle.
        handle: Name,
        /// The reader.
        reader: Held,
        /// The entry's key.
        key: Key,
        /// The type of its values.
        value_type: ValueType,
    },
    /// Makes a write handle of an entry.
    EntryMut {
        /// The name of the handle.
        handle: Name,
        /// The writer.
        writer: Held,
        /// The entry's key.
        key: Key,
        /// The type of its values.
        value_type: ValueType,
    },
    /// Asks for the keys of a board.
    Keys {
        /// The factory.
        factory: Held,
    },
    /// Asks for the parties that hold things of a board.
    Nodes {
        /// The factory.
        factory: Held,
    },
    /// Asks for the limits of a board, and what is taken of it.
    Info {
        /// The factory.
        factory: Held,
    },
    /// Asks for the number of a reader or writer, or the id of a handle's entry.
    Id {
        /// The reader, writer or handle.
        thing: Held,
    },
    /// Asks how many values of an entry were published.
    Gen {
        /// The write handle.
        handle: Held,
    },
}

/// A read of an entry, with the name for the value read.
#[derive(Clone, Copy)]
pub struct Fetch {
    /// The number of the board.
    pub board: u64,
    /// The place of the entry among those of its board.
    pub entry: u64,
    /// The entry's cell among the words of the board.
    pub shape: CellShape,
    /// The type of the entry's values.
    pub value_type: ValueType,
    /// The name for the value read, if it has one.
    pub value: Option<Name>,
}

/// A look whether a kept value is still the last one.
#[derive(Clone, Copy)]
pub struct Look {
    /// The number of the board.
    pub board: u64,
    /// The place of the entry among those of its board.
    pub entry: u64,
    /// The entry's cell among the words of the board.
    pub shape: CellShape,
    /// How many values of the entry were published when the value was read.
    pub generation: u64,
}

/// Words that are published, of which so many were written.
#[derive(Drop)]
pub struct Publishing {
    /// The number of the board.
    pub board: u64,
    /// The place of the entry among those of its board.
    pub entry: u64,
    /// The entry's cell among the words of the board.
    pub shape: CellShape,
    /// How many values of the entry were published when the call began.
    pub generation: u64,
    /// The words that are published.
    pub words: Words,
    /// How many of them were written.
    pub written: usize,
}

/// A loan: its name as loan and as write handle, and the words that were put.
#[derive(Drop)]
pub struct Lent {
    /// The number of the board.
    pub board: u64,
    /// The place of the entry among those of its board.
    pub entry: u64,
    /// The entry's cell among the words of the board.
    pub shape: CellShape,
    /// How many values of the entry were published when the call began.
    pub generation: u64,
    /// The name as a loan.
    pub loan: Name,
    /// The name as a write handle.
    pub handle: Name,
    /// The words that were put.
    pub words: LoanWords,
}

/// A call that runs.
#[derive(Drop)]
pub enum BoardCall {
    /// A call on the tables.
    Table(TableCall),
    /// A write handle is lent.
    Loan(Lent),
    /// A loan is given back.
    Discard(Lent),
    /// An entry is read.
    Get {
        /// What is read.
        fetch: Fetch,
        /// How far it is.
        reading: Reading,
    },
    /// A look whether a value is the last one.
    Fresh(Look),
    /// A value is published.
    Update(Publishing),
    /// A word of a loan is put.
    Put {
        /// The loan.
        lent: Lent,
        /// The place of the word among those of the value.
        index: u64,
        /// The word.
        word: u64,
    },
    /// The words of a loan are published.
    Publish(Lent),
    /// A value is published through a loan, which is given back.
    Fill {
        /// What is published.
        publishing: Publishing,
        /// The name as a loan.
        loan: Name,
        /// The name as a write handle.
        handle: Name,
    },
}
