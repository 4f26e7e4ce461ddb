//! The machine: the domain, and the calls that run.
use crate::tasks::PartyTasks;
use crate::value_update::ValueUpdate;
use board_cell::{FreshCall, GetCall, PublishCall, PutCall};
use board_model::{
    AddedEntries, Attributes, BoardName, Key, KeyType, Limits, Name, NewLimits, Requirements,
    ValueType, Words,
};
use board_service::BoardWords;
use script_parties::{Held, PartyDomain};
use script_seats::Seat;
use std::alloc::Global;
use std::collections::HashMap;

/// A call on the tables, with the things that it uses found.
#[derive(Drop, Debug)]
pub(crate) enum TableTask {
    Create {
        factory: Name,
        name: BoardName,
        key_type: KeyType,
        limits: NewLimits,
        attributes: Attributes,
        entries: AddedEntries,
    },
    Open {
        factory: Name,
        name: BoardName,
        key_type: KeyType,
        limits: Limits,
        needs: Requirements,
    },
    Reader {
        reader: Name,
        factory: Held,
    },
    Writer {
        writer: Name,
        factory: Held,
    },
    Entry {
        handle: Name,
        reader: Held,
        key: Key,
        value_type: ValueType,
    },
    EntryMut {
        handle: Name,
        writer: Held,
        key: Key,
        value_type: ValueType,
    },
    /// The write handle becomes a loan of so many words.
    Loan {
        handle: Name,
        loan: Name,
        words: u64,
    },
    Discard {
        loan: Name,
        handle: Name,
    },
    Keys {
        factory: Held,
    },
    Nodes {
        factory: Held,
    },
    Info {
        factory: Held,
    },
    Id {
        thing: Held,
    },
    Gen {
        handle: Held,
    },
}

/// What a call that runs has still to do.
#[derive(Drop, Debug)]
pub(crate) enum Task {
    Table(TableTask),
    /// The value is kept under the name, where there is one.
    Get {
        board: u64,
        call: GetCall,
        value_type: ValueType,
        value: Option<Name>,
    },
    Fresh {
        board: u64,
        call: FreshCall,
    },
    Update {
        board: u64,
        call: ValueUpdate,
    },
    Put {
        board: u64,
        call: PutCall,
        loan: Name,
        index: u64,
        word: u64,
    },
    /// The loan becomes a write handle under the name.
    Publish {
        board: u64,
        call: PublishCall,
        loan: Name,
        handle: Name,
    },
    Fill {
        board: u64,
        call: ValueUpdate,
        loan: Name,
        handle: Name,
    },
    /// Nothing, ever: the party was abandoned.
    Gone,
}

/// A value that a party read and kept under a name.
#[derive(Drop, Debug)]
pub(crate) struct KeptValue {
    pub(crate) value_type: ValueType,
    pub(crate) words: Words,
    pub(crate) generation: u64,
}

/// Runs the lines of one script, one after another. The words of its boards are held by `C`.
#[derive(Drop)]
pub struct BoardMachine<C: BoardWords> {
    pub(crate) alloc: Global,
    /// The boards, their words, and the things that parties hold.
    pub(crate) domain: PartyDomain<C>,
    /// What the call of a party has still to do.
    pub(crate) parties: PartyTasks,
    /// The values that parties keep, by party and name.
    pub(crate) values: HashMap<Seat, KeptValue>,
    /// The words that were put into each loan, by its party and name. A loan is a write handle under the name.
    pub(crate) loans: HashMap<Seat, Vec<Option<u64>>>,
}
