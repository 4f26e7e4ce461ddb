//! The ends of one entry of a number.
ghost use Rattle.std.specs.Prelude.{IfOk, All, map};
ghost use Rattle.board_layout.specs.Layout.{IsShape};
ghost use Rattle.board_model.specs.Tables.{shapes_of};
ghost use Rattle.board_service.specs.Entries.{as_added};

use board_cells::BoardCells;
use board_concepts::AttributeSet;
use board_model::Limits;
use board_names::ServiceName;
use board_service::{DomainCore, Made, NewEntry, NodeId, ThingKind};
use std::alloc::Global;
use std::test::*;

const ANY: Limits = Limits {
    max_readers: None,
    max_nodes: None,
};

// One entry of a number, under the key 1.
fn one_number(alloc: Global, value: u64) -> Result<Vec<NewEntry>, Fail>
    ensures { IfOk result (λ v. All IsShape (shapes_of (map as_added v.items))) }
{
    let entry = NewEntry::of(alloc, &1u64, &value)?;
    Ok(vec![in alloc; entry]?)
}

// A domain with one board of one number, and the board's factory and number.
fn one_board(alloc: Global, value: u64) -> Result<(DomainCore<BoardCells>, Made), Fail> {
    let mut core: DomainCore<BoardCells> = DomainCore::new(alloc);
    let entries = one_number(alloc, value)?;
    let name = ServiceName::new("board")?;
    let none = AttributeSet::new(alloc);
    let made = core.create::<u64>(NodeId(1), &name, ANY, None, none, entries)?;
    Ok((core, made))
}

/// The cells of a board of one number, which came back with the board's last thing.
pub(super) fn one_cell(alloc: Global, value: u64) -> Result<BoardCells, Fail> {
    let (mut core, made) = one_board(alloc, value)?;
    if !core.is_held::<u64>(made.thing, ThingKind::Factory) {
        return Err("the factory stands")?;
    }
    let cells = core.release(made.thing);
    Ok(cells.ok_or("the board had no other thing")?)
}
