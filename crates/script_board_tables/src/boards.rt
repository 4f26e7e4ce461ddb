//! Boards under their numbers and names, found by indexes.
ghost use Rattle.std.specs.Prelude.{◌≡◌, ◌++◌, ◌∷◌, [], ◌<◌, ℕ, List, None, OnErr, OnOk, Some, find, length, nat_eq, option_map, slice_get};
ghost use Rattle.std.specs.HashMap.{get, spare};
ghost use Rattle.std.specs.Str.{bytes_eq};
ghost use Rattle.board_model.specs.Tables as tables;

use board_layout::Text;
use board_model::{Board, Entry};
use std::alloc::{AllocError, Global};
use std::collections::HashMap;
use std::marker::Model;

/// The boards of a script in the order of their making. A board's place stays empty when it goes, and its number isn't drawn
/// again. Contracts see the boards that stand, and the last number.
#[derive(Drop)]
pub(crate) struct Boards {
    places: Vec<Option<Board>>,
    numbers: HashMap<u64, usize>,
    names: HashMap<Text<255>, usize>,
    last: u64,
}

impl Model for Boards {
    ghost use Rattle.script_board_tables.specs.Boards.{AreIndexed, Numbered};
    ghost use Rattle.script_things.specs.Places.{standing};

    ghost Value = { Numbered };

    ghost view = { λ d. record { boards = standing d.places.items; last = d.last } };

    ghost invariant = { λ d. AreIndexed d.numbers d.names d.last d.places.items };
}

// What stands at the place.
fn board_in(place: usize, places: &[Option<Board>]) -> Option<&Board>
    requires { place < length places.now }
    ensures { slice_get places.now place ≡ Some (option_map (λ b. b.now) result) }
{
    places[place].as_ref()
}

// Makes room for one board more.
fn make_room(
    numbers: &mut HashMap<u64, usize>,
    names: &mut HashMap<Text<255>, usize>,
) -> Result<(), AllocError>
    ensures numbers { (number : ℕ) → get nat_eq numbers.new number ≡ get nat_eq numbers.old number }
    ensures names { (name : List ℕ) → get bytes_eq names.new name ≡ get bytes_eq names.old name }
    ensures number { OnOk result (0 < spare numbers.new) }
    ensures name { OnOk result (0 < spare names.new) }
{
    numbers.reserve(1)?;
    names.reserve(1)
}

impl Boards {
    /// No boards. Takes no memory.
    pub(crate) fn new(alloc: Global) -> Boards
        ensures boards { result.boards ≡ [] }
        ensures last { result.last ≡ 0 }
    {
        Boards {
            places: Vec::new(alloc),
            numbers: HashMap::new(alloc),
            names: HashMap::new(alloc),
            last: 0,
        }
    }

    /// The number of the board that was made last; 0 before the first.
    pub(crate) fn last(&self) -> u64
        ensures { result ≡ self.now.last }
    {
        self.last
    }

    /// The board with the name.
    pub(crate) fn named(&self, name: &Text<255>) -> Option<&Board>
        ensures { option_map (λ b. b.now) result ≡ find (tables.has_name name.now) self.now.boards }
    {
        match self.names.get(name) {
            Some(place) => board_in(*place, &self.places),
            None => None,
        }
    }

    /// The board with the number.
    pub(crate) fn at(&self, number: u64) -> Option<&Board>
        ensures { option_map (λ b. b.now) result ≡ find (tables.is_numbered number) self.now.boards }
    {
        match self.numbers.get(&number) {
            Some(place) => board_in(*place, &self.places),
            None => None,
        }
    }

    /// The entry of a board at a place.
    pub(crate) fn entry_at(&self, number: u64, entry: u64) -> Option<&Entry>
        ensures { option_map (λ e. e.now) result
            ≡ tables.entry_in (find (tables.is_numbered number) self.now.boards) entry }
    {
        match self.at(number) {
            Some(board) => board.entries.as_slice().get(entry as usize),
            None => None,
        }
    }

    /// Adds a board behind the others, under a number above theirs and a name that is free.
    ///
    /// # Errors
    /// `AllocError` where memory is refused. The boards stay.
    pub(crate) fn push(&mut self, board: Board) -> Result<(), AllocError>
        requires above { self.old.last < board.number }
        requires free { find (tables.has_name board.name) self.old.boards ≡ None }
        ensures boards { OnOk result (self.new.boards ≡ self.old.boards ++ board ∷ []) }
        ensures last { OnOk result (self.new.last ≡ board.number) }
        ensures err { OnErr result (self.new ≡ self.old) }
    {
        self.places.reserve(1)?;
        make_room(&mut self.numbers, &mut self.names)?;
        let place = self.places.len();
        let Ok(_) = self.numbers.insert(board.number, place) else {
            // There is room.
            unreachable!()
        };
        let Ok(_) = self.names.insert(board.name, place) else {
            // There is room.
            unreachable!()
        };
        self.last = board.number;
        self.places.push_reserved(Some(board));
        Ok(())
    }

    /// Takes the board with the number out of the others, if it stands. Takes no memory.
    pub(crate) fn take(&mut self, number: u64)
        ensures boards { self.new.boards
            ≡ tables.without_first (tables.is_numbered number) self.old.boards }
        ensures last { self.new.last ≡ self.old.last }
    {
        let Some(place) = self.numbers.remove(&number) else {
            return;
        };
        let Some(gone) = self.places[place].take() else {
            // The board stands there.
            unreachable!()
        };
        let _ = self.names.remove(&gone.name);
    }
}
