//! What a caller knows of a domain that it is lent, whatever that went through.
ghost use Rattle.std.specs.Prelude.{◌≡◌, ◌+◌, ◌<◌, ◌≤◌, true, find, is_some, length, IfOk, IfSome, None};
ghost use Rattle.std.specs.Bool.{OnTrue};
ghost use Rattle.board_layout.specs.Bytes.{details};
ghost use Rattle.board_model.specs.Tables.{board_at, reader_slots};
ghost use Rattle.board_service.specs.Domain.{Stands, is_thing, stands_as};
ghost use Rattle.board_service.specs.Entries.{HaveShapes};
ghost use Rattle.board_service.specs.Facts.{IsHeldAs};

use board_concepts::AttributeSet;
use board_layout::{BoardKey, TypeDetail};
use board_model::{Limits, ThingKind};
use board_names::BlackboardCreateError;
use board_service::{Cells, DomainCore, Found, Made, NewEntry, NodeId, ThingId};

/// Limits that ask nothing.
pub(super) const ANY: Limits = Limits {
    max_readers: None,
    max_nodes: None,
};

/// The cells of a thing's board. They are there where the thing is held.
pub(super) fn cells_of<K: BoardKey, C: Cells>(
    core: &DomainCore<C>,
    thing: ThingId,
    kind: ThingKind,
) -> Option<&C>
    ensures { is_some result
        ≡ stands_as core.now (details K.type_bytes K.SIZE K.ALIGNMENT) thing kind }
{
    if !core.is_held::<K>(thing, kind) {
        return None;
    }
    core.cells(core.board_of(thing))
}

/// How many more readers the board may have. No more stand than it may have, so the difference is one.
pub(super) fn free_readers<C: Cells>(core: &mut DomainCore<C>, board: u64) -> u64
    ensures { IfSome (board_at core.old.tables board)
        (λ b. result + reader_slots b.number core.old.tables.things ≡ b.max_readers) }
{
    core.facts();
    let Some(config) = core.config_of(board) else {
        return 0;
    };
    match core.use_of(board) {
        Some(used) => config.max_readers - used.readers,
        None => 0,
    }
}

/// How many bytes of an entry's 64 the keys of the board leave. They take no more, so the difference is one.
pub(super) fn spare_key_bytes<C: Cells>(core: &DomainCore<C>, board: u64) -> u64
    ensures { IfSome (board_at core.now.tables board) (λ b. result + b.key.size ≡ 64) }
{
    core.facts();
    match core.config_of(board) {
        Some(config) => 64 - config.type_details.size as u64,
        None => 0,
    }
}

/// Whether two entries of the board have one place. Only an entry and itself have.
pub(super) fn have_one_place<C: Cells>(core: &DomainCore<C>, board: u64, i: u64, j: u64) -> bool
    ensures { OnTrue result (i ≡ j) }
{
    core.facts();
    let Some(entries) = core.entries_of(board) else {
        return false;
    };
    let Some(one) = entries.get(i as usize) else {
        return false;
    };
    let Some(other) = entries.get(j as usize) else {
        return false;
    };
    one.cell.place == other.cell.place
}

/// A read handle and a write handle, made by who holds a factory. Nothing is asked in between.
pub(super) fn both_handles<K: BoardKey, C: Cells>(
    core: &mut DomainCore<C>,
    factory: ThingId,
    key: &K,
    value: &TypeDetail,
) -> Option<(Found, Found)>
    requires { IsHeldAs core.old (details K.type_bytes K.SIZE K.ALIGNMENT)
        factory ThingKind.Factory }
    ensures { let keys = details K.type_bytes K.SIZE K.ALIGNMENT in
        IfSome result (λ r. stands_as core.new keys r.0.thing ThingKind.ReadHandle ≡ true) }
{
    let Ok(reader) = core.reader(factory) else {
        return None;
    };
    let Ok(read) = core.entry::<K>(reader.thing, key, value) else {
        return None;
    };
    let Ok(writer) = core.writer(factory) else {
        return None;
    };
    match core.entry_mut::<K>(writer.thing, key, value) {
        Ok(write) => Some((read, write)),
        Err(_) => None,
    }
}

/// A new reader of who holds a factory. Its number was nobody's before, whatever the domain went through.
pub(super) fn new_reader<C: Cells>(core: &mut DomainCore<C>, factory: ThingId) -> Option<ThingId>
    requires { Stands core.old factory }
    ensures { IfSome result (λ thing. find (is_thing thing) core.old.tables.things ≡ None) }
{
    core.facts();
    match core.reader(factory) {
        Ok(made) => Some(made.thing),
        Err(_) => None,
    }
}

/// Lets a thing go, and where it was its board's last, makes a board of the same name. That name is free then, whatever the domain went through.
pub(super) fn replaced<K: BoardKey, C: Cells + Drop>(
    core: &mut DomainCore<C>,
    last: ThingId,
    node: NodeId,
    attributes: AttributeSet,
    entries: Vec<NewEntry>,
) -> Option<Result<Made, BlackboardCreateError>>
    requires stands { Stands core.old last }
    requires size { 0 < length entries.items → K.SIZE ≤ 64 }
    requires shapes { HaveShapes entries.items }
{
    let name = core.name_of(core.board_of(last))?;
    if core.release(last).is_none() {
        return None;
    }
    match core.create::<K>(node, &name, ANY, None, attributes, entries) {
        // The name is free.
        Err(BlackboardCreateError::AlreadyExists) => unreachable!(),
        told => Some(told),
    }
}
