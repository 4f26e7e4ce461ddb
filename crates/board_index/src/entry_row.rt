//! An entry of a board, as the domain keeps it.

use crate::kept_type::KeptType;
use board_layout::{CellPlace, KeyMemory};
use std::marker::Model;

/// An entry of a board: its key's bytes, the type of its values by as many bytes as its name has, and where its cell lies. Contracts see the definitions' entry.
#[derive(Drop, Debug)]
pub struct EntryRow {
    /// Its key's bytes.
    pub key: KeyMemory<64>,
    /// The type of its values.
    pub value: KeptType,
    /// Where its cell lies.
    pub cell: CellPlace,
}

impl Model for EntryRow {
    ghost use Rattle.board_model.specs.declared.tables.Entry.{Entry};

    ghost Value = { Entry };

    ghost view = { λ e. record {
      key = e.key;
      value = e.value;
      cell = e.cell;
    } };
}
