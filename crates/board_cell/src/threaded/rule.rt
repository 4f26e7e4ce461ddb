//! The rule of a cell's table, and what each kind of step tells.
ghost use Rattle.std.specs.Prelude.{length};
ghost use Rattle.board_cell.specs.Rule.{Kept, opening_view};
ghost use Rattle.board_cell.specs.Views.{newcomer, joined_view, puts, publishes, opens, reads, closes, glances, looks};
ghost use Rattle.board_cell.specs.declared.threaded.view.View.TheVariants.{Spent};

use crate::threaded::view::View;
use atomic_table::{Join, Play, Split, TableRule};

/// The words are those of a cell with two copies, and each seat's view is true of them.
pub struct CellRule;

impl TableRule<(), View, Vec<u64>> for CellRule {
    ghost holds = { λ k. Kept (length k.items) };

    ghost first = { λ k. opening_view k.items };
}

// The writer stores a word of the spare copy.
pub(crate) struct Put;

impl Play<(), View> for Put {
    ghost then = { puts };
}

// The writer raises the counter.
pub(crate) struct Publish;

impl Play<(), View> for Publish {
    ghost then = { publishes };
}

// A reader loads the counter and opens a try.
pub(crate) struct Open;

impl Play<(), View> for Open {
    ghost then = { opens };
}

// A reader loads a word of the copy.
pub(crate) struct Read;

impl Play<(), View> for Read {
    ghost then = { reads };
}

// A reader loads the counter and closes the try.
pub(crate) struct Close;

impl Play<(), View> for Close {
    ghost then = { closes };
}

// A reader loads the counter.
pub(crate) struct Glance;

impl Play<(), View> for Glance {
    ghost then = { glances };
}

// The writer loads the counter.
pub(crate) struct Look;

impl Play<(), View> for Look {
    ghost then = { looks };
}

// A seat is split in two, and one is joined into another.
pub(crate) struct Parts;

impl Split<View> for Parts {
    ghost left = { λ v. v };

    ghost right = { newcomer };
}

impl Join<View> for Parts {
    ghost both = { joined_view };

    ghost spent = { Spent };
}
