//! What the tables of boards and things hold.
use crate::lists::{Attributes, Entries};
use board_layout::{CellPlace, KeyMemory, Text, TypeDetail};

/// An entry of a board: its key's bytes, the type of its values, and where its cell lies.
#[derive(Clone, Copy, Debug)]
pub struct Entry {
    /// Its key's bytes.
    pub key: KeyMemory<64>,
    /// The type of its values.
    pub value: TypeDetail,
    /// Where its cell lies.
    pub cell: CellPlace,
}

/// A board that stands.
#[derive(Drop, Debug)]
pub struct Board {
    /// Its number.
    pub number: u64,
    /// Its name.
    pub name: Text<255>,
    /// The type of its keys.
    pub key: TypeDetail,
    /// How many readers it may have.
    pub max_readers: u64,
    /// How many nodes it may have.
    pub max_nodes: u64,
    /// How many writer slots it has.
    pub max_writers: u64,
    /// Its attributes.
    pub attributes: Attributes,
    /// Its entries, in the order of adding.
    pub entries: Entries,
}

/// How many readers and nodes are asked for.
#[derive(Clone, Copy, Debug, PartialEq, Eq)]
pub struct Limits {
    /// How many readers, where that is said.
    pub max_readers: Option<u64>,
    /// How many nodes, where that is said.
    pub max_nodes: Option<u64>,
}

/// How many readers, nodes and writers a new board is to allow.
#[derive(Clone, Copy, Debug, PartialEq, Eq)]
pub struct NewLimits {
    /// Those that an opener may ask for as well.
    pub shared: Limits,
    /// How many writers, where that is said.
    pub max_writers: Option<u64>,
}

/// What a thing of a board is, and what it keeps: the number of its port, the place of its entry among the board's.
#[derive(Clone, Copy, Debug, PartialEq, Eq)]
pub enum Kind {
    /// What readers and writers of a board are made by.
    Factory,
    /// A reader, with its port.
    Reader { port: u64 },
    /// A writer, with its port.
    Writer { port: u64 },
    /// A read handle of the entry at this place.
    ReadHandle { entry: u64 },
    /// The write handle of the entry at this place, with its writer's port.
    WriteHandle { entry: u64, port: u64 },
}

/// What a thing of a board is.
#[derive(Clone, Copy, Debug, PartialEq, Eq)]
pub enum ThingKind {
    /// What readers and writers of a board are made by.
    Factory,
    /// What makes read handles.
    Reader,
    /// What makes write handles.
    Writer,
    /// What reads an entry.
    ReadHandle,
    /// What publishes values of an entry.
    WriteHandle,
}

/// A thing of a board. Its holder has it under a name.
#[derive(Clone, Copy, Debug, PartialEq, Eq)]
pub struct Thing<H, N> {
    /// Who has it.
    pub holder: H,
    /// The name under which it is had.
    pub name: N,
    /// The number of its board.
    pub board: u64,
    /// What it is.
    pub kind: Kind,
}
