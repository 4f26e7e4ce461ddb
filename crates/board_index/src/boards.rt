//! The boards under their numbers and names.
ghost use Rattle.std.specs.Prelude.{◌≡◌, ◌+◌, ◌<◌, ◌^◌, ◌-◌, ◌++◌, ◌∷◌, [], ℕ, List, None, Some, IsSome, OnOk, false, cond, find, option_map, is_some, nat_eq};
ghost use Rattle.std.specs.Borrow.{LendsIf, sem};
ghost use Rattle.std.specs.HashMap.{get, spare};
ghost use Rattle.std.specs.List.{list_any, position_from};
ghost use Rattle.board_index.specs.Boards.{but_at, called, cells_in, rows_under, with_cells_in};
ghost use Rattle.board_index.specs.contracts.boards.Boards.{the_row};
ghost use Rattle.board_model.specs.Tables as tables;

use crate::board_row::BoardRow;
use crate::new_board::NewBoard;
use board_names::ServiceName;
use std::alloc::{AllocError, Global};
use std::collections::HashMap;
use std::marker::Model;

/// The boards of a domain in the order of making, each with its cells. Numbers are drawn from 1 on, and none is drawn again.
#[derive(Drop)]
pub struct Boards<C> {
    rows: HashMap<u64, Box<BoardRow>>,
    cells: HashMap<u64, C>,
    /// The number of the board of a name, which is kept by as many bytes as it has.
    names: HashMap<Vec<u8>, u64>,
    last: u64,
}

impl<C> Model for Boards<C> {
    ghost use Rattle.board_index.specs.Boards.{AreIndexed, Rows, called, rows_under, seen};
    ghost use Rattle.board_numbered.specs.Standing.{under};

    ghost Value = { Rows C };

    ghost view = { λ d. seen d.rows d.cells d.names d.last };

    ghost invariant = { λ d. AreIndexed (rows_under d.rows) (under d.cells) (called d.names) d.last };
}

// Makes room for one board more.
fn make_room<C>(
    rows: &mut HashMap<u64, Box<BoardRow>>,
    cells: &mut HashMap<u64, C>,
    names: &mut HashMap<Vec<u8>, u64>,
) -> Result<(), AllocError>
    ensures rows { (number : ℕ) → rows_under rows.new number ≡ rows_under rows.old number }
    ensures cells { (number : ℕ) → get nat_eq cells.new number ≡ get nat_eq cells.old number }
    ensures names { (name : List ℕ) → called names.new name ≡ called names.old name }
    ensures row { OnOk result (0 < spare rows.new) }
    ensures cell { OnOk result (0 < spare cells.new) }
    ensures name { OnOk result (0 < spare names.new) }
{
    rows.reserve(1)?;
    cells.reserve(1)?;
    names.reserve(1)
}

// The row under a number.
fn row_in(rows: &HashMap<u64, Box<BoardRow>>, number: u64) -> Option<&BoardRow>
    ensures { option_map (λ b. b.now) result ≡ rows_under rows.now number }
{
    match rows.get(&number) {
        Some(row) => Some(&**row),
        None => None,
    }
}

// Puts a row under a number. Takes no memory: there is room.
fn put_row(rows: &mut HashMap<u64, Box<BoardRow>>, number: u64, row: Box<BoardRow>)
    requires { 0 < spare rows.old }
    ensures { (n : ℕ) → rows_under rows.new n
        ≡ cond (nat_eq number n) (Some row.value) (rows_under rows.old n) }
{
    let Ok(_) = rows.insert(number, row) else {
        // There is room.
        unreachable!()
    };
}

// Takes the row under a number out. Takes no memory.
fn take_row(rows: &mut HashMap<u64, Box<BoardRow>>, number: u64) -> Option<Box<BoardRow>>
    ensures value { option_map (λ b. b.value) result ≡ rows_under rows.old number }
    ensures left { (n : ℕ) → rows_under rows.new n
        ≡ cond (nat_eq number n) None (rows_under rows.old n) }
{
    rows.remove(&number)
}

impl<C> Boards<C> {
    /// No boards. Takes no memory.
    pub fn new(alloc: Global) -> Boards<C>
        ensures boards { result.boards ≡ [] }
        ensures cells { result.cells ≡ [] }
        ensures last { result.last ≡ 0 }
    {
        Boards {
            rows: HashMap::new(alloc),
            cells: HashMap::new(alloc),
            names: HashMap::new(alloc),
            last: 0,
        }
    }

    /// The number that was drawn last; 0 before the first.
    pub fn last(&self) -> u64
        ensures { result ≡ self.now.last }
    {
        self.last
    }

    /// The board with the number.
    pub fn at(&self, number: u64) -> Option<&BoardRow>
        ensures { option_map (λ b. b.now) result
            ≡ find (tables.is_numbered number) self.now.boards }
    {
        row_in(&self.rows, number)
    }

    /// The board with the name.
    pub fn named(&self, name: &ServiceName) -> Option<&BoardRow>
        ensures { option_map (λ b. b.now) result
            ≡ find (tables.has_name name.now) self.now.boards }
    {
        match self.names.get(name.as_bytes()) {
            Some(number) => row_in(&self.rows, *number),
            None => None,
        }
    }

    /// Whether a board has the name.
    pub fn has_name(&self, name: &ServiceName) -> bool
        ensures { result ≡ list_any (tables.has_name name.now) self.now.boards }
    {
        self.names.contains_key(name.as_bytes())
    }

    /// The cells of the board with the number: `None` exactly where no such board stands.
    pub fn cells_at(&self, number: u64) -> Option<&C>
        ensures value { option_map (λ c. c.now) result ≡ cells_in self.now number }
        ensures stands { is_some result
            ≡ is_some (find (tables.is_numbered number) self.now.boards) }
    {
        self.cells.get(&number)
    }

    /// The cells of the board with the number, to change: `None` exactly where no such board stands. What is left in them is what the board then has; all else stays.
    pub fn cells_mut(&mut self, number: u64) -> Option<&mut C>
        ensures* lends { sem 𝓛 (LendsIf (the_row C.row) C.row self.entry result
            (with_cells_in self.old number) self.old) }
        ensures value { option_map (λ c. c.now) result ≡ cells_in self.old number }
        ensures stands { is_some result
            ≡ is_some (find (tables.is_numbered number) self.old.boards) }
    {
        self.cells.get_mut(&number)
    }

    /// Makes room for one board more.
    ///
    /// # Errors
    /// `AllocError` where memory is refused. The boards stay.
    pub fn reserve(&mut self) -> Result<(), AllocError>
        ensures boards { self.new.boards ≡ self.old.boards }
        ensures cells { self.new.cells ≡ self.old.cells }
        ensures last { self.new.last ≡ self.old.last }
        ensures room { OnOk result (0 < self.new.room) }
    {
        make_room(&mut self.rows, &mut self.cells, &mut self.names)
    }

    /// Adds a board with its cells, under the next number and a name that is free. Takes no memory: there is room.
    pub fn push_reserved(&mut self, row: NewBoard, cells: C)
        requires next { row.number ≡ self.old.last + 1 }
        requires free { list_any (tables.has_name row.name) self.old.boards ≡ false }
        requires room { 0 < self.old.room }
        ensures boards { self.new.boards ≡ self.old.boards ++ row ∷ [] }
        ensures cells { self.new.cells ≡ self.old.cells ++ cells ∷ [] }
        ensures last { self.new.last ≡ self.old.last + 1 }
    {
        let NewBoard { row, name } = row;
        let number = row.number();
        let Ok(_) = self.names.insert(name, number) else {
            // There is room.
            unreachable!()
        };
        put_row(&mut self.rows, number, row);
        match self.cells.insert(number, cells) {
            Ok(None) => {}
            // No board had the number.
            Ok(Some(_cells)) => unreachable!(),
            // There is room.
            Err(_refused) => unreachable!(),
        }
        self.last = number;
    }

    /// Takes the board with the number out, which stands, and hands its cells back. Its name is free. Takes no memory.
    pub fn take(&mut self, number: u64) -> C
        requires { IsSome (find (tables.is_numbered number) self.old.boards) }
        ensures taken { cells_in self.old number ≡ Some result }
        ensures boards { self.new.boards
            ≡ tables.without_first (tables.is_numbered number) self.old.boards }
        ensures cells { self.new.cells ≡ but_at self.old.cells
            (position_from (tables.is_numbered number) 0 self.old.boards) }
        ensures last { self.new.last ≡ self.old.last }
    {
        let Some(gone) = take_row(&mut self.rows, number) else {
            // The board stands.
            unreachable!()
        };
        let _ = self.names.remove(gone.name_bytes());
        match self.cells.remove(&number) {
            Some(cells) => cells,
            // A board that stands has its cells.
            None => unreachable!(),
        }
    }
}
