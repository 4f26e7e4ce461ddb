//! Names of listeners and notifiers are held by kind.
use board_event_model::EventKind;
use board_layout::Text;
use script_event_tables::EventTable;
use std::test::Fail;

#[test]
fn names_are_held_by_kind(rt: HostRuntime) -> Result<(), Fail> {
    let name: Text<255> = Text::of(b"door");
    let party: Text<16> = Text::of(b"a");
    let mut table = EventTable::new(rt.alloc());
    assert!(rt; table.listen(&party, EventKind::Bits, &name, 63)? == Some(1));
    assert!(rt; table.listen(&party, EventKind::Bits, &name, 9)? == None);
    table.abandon(&party);
    assert!(rt; table.listen(&party, EventKind::Queue, &name, 0)? == Some(2));
    Ok(())
}
