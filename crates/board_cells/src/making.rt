//! New cells of a board.
ghost use Rattle.std.specs.Prelude.{None, map, IfOk};
ghost use Rattle.board_service.specs.Entries.{as_added};
ghost use Rattle.board_cells.specs.Cells.{AreFor, AreNew, IsNew};
ghost use Rattle.board_cells.specs.NewCells.{new_ones};
ghost use Rattle.board_cells.specs.Places.{place_seen, places_seen};

use crate::cells::BoardCells;
use crate::ends::{ReadEnd, WriteEnd};
use crate::place::Place;
use board_cell::{CellError, ThreadedCell};
use board_layout::Plan;
use board_service::{Cells, NewEntry};
use std::alloc::Global;
use std::sync::Arc;

// A new cell of the entry's words, with both of its ends.
fn new_place(alloc: Global, entry: &NewEntry) -> Result<Place, CellError>
    ensures { IfOk result (λ p. IsNew (as_added entry.now) (place_seen p)) }
{
    let (cell, writer, reader) = ThreadedCell::new(alloc, &entry.words)?;
    let cell = Arc::new(alloc, cell)?;
    let other = Arc::try_clone(&cell)?;
    Ok(Place {
        read: ReadEnd { cell, pass: reader },
        parked: Some(WriteEnd {
            cell: other,
            pass: writer,
        }),
    })
}

fn new_places(alloc: Global, entries: &[NewEntry]) -> Result<Vec<Place>, CellError>
    ensures { IfOk result (λ v. AreNew (map as_added entries.now) (places_seen v.items)) }
{
    let mut places = Vec::new(alloc);
    for entry in entries {
        places.push(new_place(alloc, entry)?)?;
    }
    Ok(places)
}

impl Cells for BoardCells {
    ghost words = { λ b. None };

    ghost opened = { λ places entries b. AreNew entries b };

    ghost suit = { λ entries b. AreFor entries b };

    fn make(alloc: Global, _plan: &Plan, entries: &Vec<NewEntry>) -> Result<BoardCells, CellError> {
        let places = new_places(alloc, entries)?;
        Ok(BoardCells { places })
    }

    ghost new_ones_suit = { λ entries b new. new_ones entries b new };
}
