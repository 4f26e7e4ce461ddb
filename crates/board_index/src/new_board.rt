//! A board that is to be added.
ghost use Rattle.std.specs.Prelude.{◌≡◌, IfOk};

use crate::board_row::{BoardParts, BoardRow};
use std::alloc::{AllocError, Global};
use std::marker::Model;

/// A board that is to be added, with all the memory that its row and its name take. Contracts see the definitions' board.
#[derive(Drop)]
pub struct NewBoard {
    pub(crate) row: Box<BoardRow>,
    /// The bytes of its name.
    pub(crate) name: Vec<u8>,
}

impl Model for NewBoard {
    ghost use Rattle.std.specs.Prelude.{◌≡◌};
    ghost use Rattle.board_model.specs.declared.tables.Board.{Board};

    ghost Value = { Board };

    ghost view = { λ b. b.row.value };

    ghost invariant = { λ b. b.name.items ≡ b.row.value.name };
}

impl NewBoard {
    /// Takes the memory for a board.
    ///
    /// # Errors
    /// `AllocError` where memory is refused.
    pub fn new(alloc: Global, parts: BoardParts) -> Result<NewBoard, AllocError>
        ensures { IfOk result (λ b. b ≡ parts) }
    {
        let row = BoardRow::of(alloc, parts)?;
        let name = Vec::from_slice(alloc, row.name_bytes())?;
        let row = Box::new(alloc, row)?;
        Ok(NewBoard { row, name })
    }
}
