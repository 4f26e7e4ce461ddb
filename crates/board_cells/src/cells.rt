//! The cells of a board that threads share.
ghost use Rattle.std.specs.Prelude.{◌≡◌, ◌<◌, ◌↔◌, [], length, None, IfOk, OnErr, IfSome, option_map};
ghost use Rattle.std.specs.Arc.{arc_value};
ghost use Rattle.board_cells.specs.Cells as cells;
ghost use Rattle.board_cells.specs.Ends.{HasCell, IsUnread, end_seen};

use crate::ends::{ReadEnd, WriteEnd};
use crate::place::Place;
use board_cell::CellError;
use std::marker::Model;

/// The cells of a board, one for each entry, in the order of adding. The write end of a cell is parked at its entry where no write handle has it.
///
/// Clauses see a list of the cells, each with the write end that is parked there.
#[derive(Drop)]
pub struct BoardCells {
    pub(crate) places: Vec<Place>,
}

impl Model for BoardCells {
    ghost use Rattle.std.specs.Prelude.{List};
    ghost use Rattle.board_cells.specs.Cells.{PlaceSeen};
    ghost use Rattle.board_cells.specs.Places.{places_seen};

    ghost Value = { List PlaceSeen };

    ghost view = { λ b. places_seen b.places.items };
}

impl BoardCells {
    /// Whether there is such an entry, and its values have this many words.
    pub fn has_cell(&self, entry: u64, words: u64) -> bool
        ensures { result ≡ cells.has_cell self.now entry words }
    {
        if entry >= self.places.len() as u64 {
            return false;
        }
        let place = &self.places[entry as usize];
        place.read.cell.words() == words
    }

    /// Whether a write end is parked at the entry that publishes values of this many words.
    pub fn has_parked(&self, entry: u64, words: u64) -> bool
        ensures { result ≡ cells.has_parked self.now entry words }
    {
        if entry >= self.places.len() as u64 {
            return false;
        }
        let place = &self.places[entry as usize];
        match &place.parked {
            Some(end) => end.cell.words() == words,
            None => false,
        }
    }

    /// A read end of the entry's cell, whose reader has read nothing. Nothing where there is no such entry.
    ///
    /// # Errors
    /// `OutOfMemory` where there is such an entry, and one more owner of its cell is refused.
    pub fn read_end(&mut self, entry: u64) -> Result<Option<ReadEnd>, CellError>
        ensures same { self.new ≡ self.old }
        ensures memory { OnErr result (entry < length self.old) }
        ensures cell { IfOk result (λ end. HasCell end (cells.cell_at self.old entry)) }
        ensures fresh { IfOk result (λ end. IfSome end (λ e. IsUnread e.pass)) }
    {
        if entry >= self.places.len() as u64 {
            return Ok(None);
        }
        let place = &mut self.places[entry as usize];
        Ok(Some(place.read.share()?))
    }

    /// Takes the write end that is parked at the entry. Nothing where none is.
    pub fn take_write(&mut self, entry: u64) -> Option<WriteEnd>
        ensures end { option_map end_seen result ≡ cells.parked_at self.old entry }
        ensures after { self.new ≡ cells.without_end self.old entry }
    {
        if entry >= self.places.len() as u64 {
            return None;
        }
        let place = &mut self.places[entry as usize];
        place.parked.take()
    }

    /// Parks a write end at the entry. Hands it back where there is no such entry, or an end is parked there.
    pub fn park(&mut self, entry: u64, end: WriteEnd) -> Option<WriteEnd>
        ensures free { (result ≡ None) ↔ cells.IsFree self.old entry }
        ensures back { IfSome result (λ e. e ≡ end) }
        ensures after { self.new ≡ cells.with_end self.old entry (end_seen end) }
    {
        if entry >= self.places.len() as u64 {
            return Some(end);
        }
        let place = &mut self.places[entry as usize];
        if place.parked.is_some() {
            return Some(end);
        }
        place.parked = Some(end);
        None
    }
}
