//! Things under their parties and names, and what is taken of boards.
ghost use Rattle.std.specs.Prelude.{◌≡◌, ◌++◌, ◌∷◌, [], IfNone, IfOk, OnErr, OnOk, map};
ghost use Rattle.std.specs.List.{list_any};
ghost use Rattle.std.specs.Str.{bytes_eq};
ghost use Rattle.board_model.specs.Replies as replies;
ghost use Rattle.board_model.specs.Tables as tables;
ghost use Rattle.board_model.specs.Things as held;

use crate::lookups::{Held, place_of, rename_all, rename_at, take_place};
use crate::taken::{Taken, lower, raise};
use board_model::{Name, Names, ThingKind};
use script_seats::{Seat, Seats, Sought};
use std::alloc::{AllocError, Global};
use std::collections::HashMap;
use std::marker::Model;

/// The things of a script in the order of their making, with an index by party and name, and with what is taken of each board.
/// A thing's place stays empty when it goes. Contracts see the list of those that stand.
#[derive(Drop)]
pub struct NamedThings {
    alloc: Global,
    places: Vec<Option<Held>>,
    seats: Seats,
    taken: HashMap<u64, Taken>,
}

impl Model for NamedThings {
    ghost use Rattle.std.specs.Prelude.{List};
    ghost use Rattle.board_model.specs.Things as held;
    ghost use Rattle.script_seats.specs.Seats.{IsIndex};
    ghost use Rattle.script_things.specs.Places.{standing, under};
    ghost use Rattle.script_things.specs.Taken.{AreTaken};

    ghost Value = { List held.Held };

    ghost view = { λ d. standing d.places.items };

    ghost invariant = { λ d. IsIndex d.seats (under d.places.items)
        × AreTaken d.taken (standing d.places.items) };
}

impl NamedThings {
    /// No things. Takes no memory.
    pub fn new(alloc: Global) -> NamedThings
        ensures { result ≡ [] }
    {
        NamedThings {
            alloc,
            places: Vec::new(alloc),
            seats: Seats::new(alloc),
            taken: HashMap::new(alloc),
        }
    }

    /// The thing that a party holds under a name.
    pub fn at(&self, party: &Name, name: &Name) -> Option<Held>
        ensures { result ≡ held.thing_of self.now party.now name.now }
    {
        let seat = Seat {
            party: *party,
            name: *name,
        };
        match place_of(&self.seats, &seat, &self.places) {
            Some(place) => self.places[place],
            None => None,
        }
    }

    /// The same, where it is of this kind.
    pub fn of_kind(&self, kind: ThingKind, party: &Name, name: &Name) -> Option<Held>
        ensures { result ≡ held.of_kind kind (held.thing_of self.now party.now name.now) }
    {
        match self.at(party, name) {
            Some(thing) => {
                if thing.kind.is(kind) {
                    Some(thing)
                } else {
                    None
                }
            }
            None => None,
        }
    }

    /// The readers of the board.
    pub fn reader_slots(&self, board: u64) -> u64
        ensures { result ≡ tables.reader_slots board self.now }
    {
        match self.taken.get(&board) {
            Some(taken) => taken.readers,
            None => 0,
        }
    }

    /// The different ports of the board's writers and of the handles made from them.
    pub fn writer_slots(&self, board: u64) -> u64
        ensures { result ≡ tables.writer_slots board self.now }
    {
        match self.taken.get(&board) {
            Some(taken) => taken.ports.len() as u64,
            None => 0,
        }
    }

    /// The different parties with a thing of the board.
    pub fn nodes_taken(&self, board: u64) -> u64
        ensures { result ≡ tables.nodes_taken bytes_eq board self.now }
    {
        match self.taken.get(&board) {
            Some(taken) => taken.nodes.len() as u64,
            None => 0,
        }
    }

    /// Whether the party has a thing of the board.
    pub fn is_node(&self, board: u64, party: &Name) -> bool
        ensures { result ≡ tables.is_node bytes_eq board party.now self.now }
    {
        match self.taken.get(&board) {
            Some(taken) => taken.nodes.contains_key(party),
            None => false,
        }
    }

    /// Whether a thing of the board stands.
    pub fn has_thing(&self, board: u64) -> bool
        ensures { result ≡ list_any (tables.is_of_board board) self.now }
    {
        self.nodes_taken(board) >= 1
    }

    /// Whether a write handle of the entry stands.
    pub fn has_write_handle(&self, board: u64, entry: u64) -> bool
        ensures { result ≡ list_any (tables.is_write_handle board entry) self.now }
    {
        match self.taken.get(&board) {
            Some(taken) => taken.handles.contains_key(&entry),
            None => false,
        }
    }

    /// The parties with a thing of the board, in the order of their bytes.
    pub fn nodes_at(&self, alloc: Global, board: u64) -> Result<Names, AllocError>
        ensures { IfOk result (λ names. names ≡ replies.nodes_of board self.now) }
    {
        match self.taken.get(&board) {
            Some(taken) => Ok(Names::from_vec(taken.nodes.keys().copied().collect(alloc)?)),
            None => Ok(Names::from_vec(Vec::new(alloc))),
        }
    }

    /// Adds a thing behind the others.
    ///
    /// # Errors
    /// `AllocError` where memory is refused. The things stay.
    pub fn push(&mut self, thing: Held) -> Result<(), AllocError>
        ensures ok { OnOk result (self.new ≡ self.old ++ thing ∷ []) }
        ensures err { OnErr result (self.new ≡ self.old) }
    {
        self.places.reserve(1)?;
        self.seats.reserve()?;
        raise(self.alloc, &thing, &mut self.taken)?;
        self.seats.push(&thing, self.places.len() as u64);
        self.places.push_reserved(Some(thing));
        Ok(())
    }

    /// Takes the thing that a party holds under a name out of the others. Takes no memory.
    pub fn take(&mut self, party: &Name, name: &Name) -> Option<Held>
        ensures taken { result ≡ held.thing_of self.old party.now name.now }
        ensures rest { self.new
            ≡ tables.without_first (held.is_held_as party.now name.now) self.old }
        ensures same { IfNone result (self.new ≡ self.old) }
    {
        let seat = Seat {
            party: *party,
            name: *name,
        };
        let place = take_place(&mut self.seats, &seat, &self.places)?;
        let Some(gone) = self.places[place].take() else {
            // A thing stands there.
            unreachable!()
        };
        lower(&gone, &mut self.taken);
        Some(gone)
    }

    /// Gives the party's thing another name.
    ///
    /// # Errors
    /// `AllocError` where memory is refused. The things stay.
    pub fn rename(&mut self, party: &Name, old: &Name, new: &Name) -> Result<(), AllocError>
        ensures ok { OnOk result
            (self.new ≡ map (held.named_anew party.now old.now new.now) self.old) }
        ensures err { OnErr result (self.new ≡ self.old) }
    {
        self.seats.reserve()?;
        match self.seats.rename(party, old, new) {
            Sought::Nothing => {}
            Sought::Only(place) => rename_at(place as usize, new, &mut self.places),
            Sought::Unknown => rename_all(party, old, new, &mut self.places),
        }
        Ok(())
    }
}
