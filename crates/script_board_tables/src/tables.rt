//! What stands of boards, and what parties hold of them.
ghost use Rattle.std.specs.Prelude.{◌≡◌, ◌<◌, Some, IfSome, is_some, option_map, length, slice_get, slice_index};
ghost use Rattle.board_model.specs.Requests as requests;
ghost use Rattle.board_model.specs.Things as held;
ghost use Rattle.board_model.specs.LawfulSession as session;
ghost use Rattle.board_model.specs.Tables as model;
ghost use Rattle.script_board_tables.specs.Tables.{Has, kept_at, kept_in, loan_at, memory_of, published_of, same_seat, standing_of, tables_of};

use crate::boards::Boards;
use board_model::{Board, Entry, Items, Kind, Name, ThingKind, ValueType, Words};
use script_seats::Seat;
use script_things::{Held, NamedThings};
use std::alloc::{AllocError, Global};
use std::collections::HashMap;

/// The words of a loan, none where a word was not put.
pub type LoanWords = Items<Option<u64>>;

/// A value that a party read and kept.
#[derive(Drop)]
pub struct KeptValue {
    /// Its type.
    pub value_type: ValueType,
    /// Its words.
    pub words: Words,
    /// How many values of the entry were published when it was read.
    pub generation: u64,
}

/// The words of a board, and of each of its entries all values that were published.
#[derive(Drop)]
pub(crate) struct BoardRow {
    pub(crate) words: Vec<u64>,
    pub(crate) published: Vec<Vec<Words>>,
}

/// The boards of a script. Contracts see the definitions' standing tables, memory and published lists.
#[derive(Drop)]
pub struct BoardTables {
    pub(crate) alloc: Global,
    pub(crate) boards: Boards,
    pub(crate) things: NamedThings,
    pub(crate) last_port: u64,
    // by the number of the board
    pub(crate) rows: HashMap<u64, BoardRow>,
    pub(crate) loans: HashMap<Seat, LoanWords>,
    pub(crate) values: HashMap<Seat, KeptValue>,
}

impl BoardTables {
    /// Before the first board.
    pub fn new(alloc: Global) -> BoardTables
        ensures { Has result session.start.standing session.start.memory session.start.published }
    {
        BoardTables {
            alloc,
            boards: Boards::new(alloc),
            things: NamedThings::new(alloc),
            last_port: 0,
            rows: HashMap::new(alloc),
            loans: HashMap::new(alloc),
            values: HashMap::new(alloc),
        }
    }

    // The thing of this kind that a party holds under a name.
    pub(crate) fn held(&self, kind: ThingKind, party: &Name, name: &Name) -> Option<Held>
        ensures { result
            ≡ held.held_of_kind (standing_of self.now) kind party.now name.now }
    {
        self.things.of_kind(kind, party, name)
    }

    // The words of a loan.
    pub(crate) fn loan_words(&self, party: &Name, name: &Name) -> Option<&LoanWords>
        ensures { option_map (λ words. words.now) result ≡ loan_at self.now party.now name.now }
    {
        self.loans.get(&Seat {
            party: *party,
            name: *name,
        })
    }

    // A value that a party kept.
    pub(crate) fn kept(&self, party: &Name, name: &Name) -> Option<&KeptValue>
        ensures { option_map (λ v. kept_in v.now) result ≡ kept_at self.now party.now name.now }
    {
        self.values.get(&Seat {
            party: *party,
            name: *name,
        })
    }

    // A write handle that isn't lent.
    pub(crate) fn write_handle(&self, party: &Name, name: &Name) -> Option<Held>
        ensures { result ≡ requests.handle_of (standing_of self.now) party.now name.now }
    {
        if self.loan_words(party, name).is_some() {
            return None;
        }
        self.held(ThingKind::WriteHandle, party, name)
    }

    // A reader or writer, a read handle, or a write handle that isn't lent.
    pub(crate) fn identified(&self, party: &Name, name: &Name) -> Option<Held>
        ensures { result ≡ requests.identified (standing_of self.now) party.now name.now }
    {
        if let Some(thing) = self.held(ThingKind::Reader, party, name) {
            return Some(thing);
        }
        if let Some(thing) = self.held(ThingKind::Writer, party, name) {
            return Some(thing);
        }
        if let Some(thing) = self.held(ThingKind::ReadHandle, party, name) {
            return Some(thing);
        }
        self.write_handle(party, name)
    }

    // The entry of a handle.
    pub(crate) fn entry(&self, thing: &Held) -> Option<&Entry>
        ensures { option_map (λ e. e.now) result
            ≡ requests.handled (standing_of self.now) thing.now }
    {
        self.boards.entry_at(thing.board, thing.kind.entry())
    }

    // The board that stands under a number.
    pub(crate) fn board(&self, number: u64) -> Option<&Board>
        ensures { option_map (λ b. b.now) result ≡ model.board_at (tables_of self.now) number }
    {
        self.boards.at(number)
    }

    /// Whether a party holds a thing or a value under a name.
    pub fn is_held(&self, party: &Name, name: &Name) -> bool
        ensures { result ≡ held.is_held (standing_of self.now) party.now name.now }
    {
        self.things.at(party, name).is_some() || self.kept(party, name).is_some()
    }

    /// Whether the board stands.
    pub fn stands(&self, number: u64) -> bool
        ensures { result ≡ is_some (model.board_at (tables_of self.now) number) }
    {
        self.board(number).is_some()
    }

    /// The words of a board.
    pub fn words(&self, number: u64) -> &[u64]
        ensures { result.now ≡ memory_of self.now number }
    {
        match self.rows.get(&number) {
            Some(row) => row.words.as_slice(),
            None => &[],
        }
    }
}
