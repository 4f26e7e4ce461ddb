//! What is told of a board, and callers of a domain that they are lent.
ghost use Rattle.std.specs.Prelude.{IfOk};
ghost use Rattle.board_service.specs.Entries.{HaveShapes};

use super::lent::{
    ANY, both_handles, cells_of, free_readers, have_one_place, new_reader, replaced,
    spare_key_bytes,
};
use crate::same::same;
use board_cell::PlainWords;
use board_concepts::{AttributeSet, AttributeVerifier};
use board_layout::{TypeDetail, TypeVariant};
use board_model::ThingKind;
use board_names::ServiceName;
use board_service::{DomainCore, NewEntry, NodeId, ThingId};
use std::alloc::Global;
use std::test::Fail;

// A number under the key 5, and one under 7.
fn two_entries(alloc: Global) -> Result<Vec<NewEntry>, Fail>
    ensures { IfOk result (λ v. HaveShapes v.items) }
{
    let first = NewEntry::of(alloc, &5u64, &5u64)?;
    let second = NewEntry::of(alloc, &7u64, &7u64)?;
    Ok(vec![in alloc; first, second]?)
}

// A domain with the board `f`, which node 9 made. Its factory is thing 1.
fn one_board(alloc: Global) -> Result<DomainCore<PlainWords>, Fail> {
    let mut core: DomainCore<PlainWords> = DomainCore::new(alloc);
    let entries = two_entries(alloc)?;
    let name = ServiceName::new("f")?;
    let none = AttributeSet::new(alloc);
    core.create::<u64>(NodeId(9), &name, ANY, None, none, entries)?;
    Ok(core)
}

#[test]
fn a_board_is_opened(rt: HostRuntime) -> Result<(), Fail> {
    let mut core = one_board(rt.alloc())?;
    let name = ServiceName::new("f")?;
    let needs = AttributeVerifier::new(rt.alloc());
    let opened = core.open::<u64>(NodeId(2), &name, ANY, &needs)?;
    same(&rt, &(opened.thing.0, opened.number), &(2, 1));
    same(
        &rt,
        &[core.node_at(1, 0), core.node_at(1, 1), core.node_at(1, 2)],
        &[Some(NodeId(2)), Some(NodeId(9)), None],
    );
    Ok(())
}

#[test]
fn handles_are_made_by_who_holds_a_factory(rt: HostRuntime) -> Result<(), Fail> {
    let number = TypeDetail::new::<u64>(TypeVariant::FixedSize);
    let mut core = one_board(rt.alloc())?;
    same(&rt, &free_readers(&mut core, 1), &8);
    if !core.is_held::<u64>(ThingId(1), ThingKind::Factory) {
        return Err(Fail::new("no factory"));
    }
    same(&rt, &new_reader(&mut core, ThingId(1)), &Some(ThingId(2)));
    if !core.is_held::<u64>(ThingId(1), ThingKind::Factory) {
        return Err(Fail::new("no factory any more"));
    }
    let made = both_handles::<u64, PlainWords>(&mut core, ThingId(1), &7, &number);
    same(&rt, &made.map(|m| (m.0.entry, m.1.entry)), &Some((1, 1)));
    same(&rt, &free_readers(&mut core, 1), &6);
    Ok(())
}

#[test]
fn the_name_of_a_board_that_went_is_free(rt: HostRuntime) -> Result<(), Fail> {
    let alloc = rt.alloc();
    let mut core = one_board(alloc)?;
    if !core.is_held::<u64>(ThingId(1), ThingKind::Factory) {
        return Err(Fail::new("no factory"));
    }
    let attributes = AttributeSet::new(alloc);
    let entries = two_entries(alloc)?;
    match replaced::<u64, PlainWords>(&mut core, ThingId(1), NodeId(2), attributes, entries) {
        Some(Ok(made)) => same(&rt, &(made.thing.0, made.number), &(2, 2)),
        _ => return Err(Fail::new("no second board")),
    }
    Ok(())
}

#[test]
fn a_board_is_told(rt: HostRuntime) -> Result<(), Fail> {
    let core = one_board(rt.alloc())?;
    assert!(rt; core.stands(1) && !core.stands(2));
    same(&rt, &spare_key_bytes(&core, 1), &56);
    assert!(rt; have_one_place(&core, 1, 1, 1));
    assert!(rt; !have_one_place(&core, 1, 0, 1) && !have_one_place(&core, 1, 2, 2));
    assert!(rt; cells_of::<u64, PlainWords>(&core, ThingId(1), ThingKind::Factory).is_some());
    assert!(rt; cells_of::<u64, PlainWords>(&core, ThingId(1), ThingKind::Reader).is_none());
    same(&rt, &core.key_at(1, 1).map(|k| k.bytes[0]), &Some(7));
    same(&rt, &core.key_at(1, 2).is_none(), &true);
    Ok(())
}

#[test]
fn a_description_is_fourteen_bytes(rt: HostRuntime) -> Result<(), Fail> {
    let core = one_board(rt.alloc())?;
    let bytes = [
        0x02, 0x01, 0x66, 0x00, 0x03, 0x75, 0x36, 0x34, 0x08, 0x08, 0x08, 0x14, 0x01, 0x00,
    ];
    assert_eq!(rt; core.description_of(1), Some(bytes.as_slice()));
    assert_eq!(rt; core.description_of(2), None);
    Ok(())
}
