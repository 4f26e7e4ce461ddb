//! Things of a session: what is taken of a board.
use board_layout::Text;
use board_model::{Attributes, Board, Entries, KeyType, Kind, Name, key_detail};
use script_things::{Held, NamedThings, info_of};
use std::alloc::Global;
use std::test::Fail;

fn name(text: &[u8]) -> Name {
    if text.len() <= 16 {
        Text::of(text)
    } else {
        Text::of(b"long")
    }
}

fn held(holder: &[u8], called: &[u8], board: u64, kind: Kind) -> Held {
    Held {
        holder: name(holder),
        name: name(called),
        board,
        kind,
    }
}

fn a_board(alloc: Global, number: u64, called: &Text<255>) -> Board {
    Board {
        number,
        name: *called,
        key: key_detail(KeyType::U64),
        max_readers: 8,
        max_nodes: 20,
        max_writers: 1,
        attributes: Attributes::from_vec(Vec::new(alloc)),
        entries: Entries::from_vec(Vec::new(alloc)),
    }
}

// What is taken of board 1: readers, writer slots and nodes.
fn taken(things: &NamedThings) -> (u64, u64, u64) {
    (
        things.reader_slots(1),
        things.writer_slots(1),
        things.nodes_taken(1),
    )
}

#[test]
fn what_is_taken_of_a_board(rt: HostRuntime) -> Result<(), Fail> {
    let handle = Kind::WriteHandle { entry: 0, port: 2 };
    let rows = [
        (held(b"b", b"f", 1, Kind::Factory), (0, 0, 1)),
        (held(b"a", b"f", 1, Kind::Factory), (0, 0, 2)),
        (held(b"b", b"r", 1, Kind::Reader { port: 1 }), (1, 0, 2)),
        (held(b"b", b"w", 1, Kind::Writer { port: 2 }), (1, 1, 2)),
        (held(b"b", b"m", 1, handle), (1, 1, 2)),
        (held(b"c", b"f", 2, Kind::Factory), (1, 1, 2)),
    ];
    let mut things = NamedThings::new(rt.alloc());
    for (thing, after) in rows {
        things.push(thing)?;
        assert!(rt; taken(&things) == after);
    }
    assert!(rt; things.has_write_handle(1, 0) && !things.has_write_handle(1, 1));
    assert!(rt; things.has_thing(2) && !things.has_thing(3));
    assert!(rt; things.is_node(1, &name(b"a")) && !things.is_node(2, &name(b"a")));
    let nodes = things.nodes_at(rt.alloc(), 1)?;
    assert!(rt; nodes.as_slice() == [name(b"a"), name(b"b")].as_slice());
    let info = info_of(
        rt.alloc(),
        &a_board(rt.alloc(), 1, &Text::of(b"door")),
        &things,
    )?;
    assert!(rt; (info.readers, info.writers, info.nodes) == (1, 1, 2));
    assert!(rt; handle.entry() == 0 && handle.port() == 2);

    // The writer's slot is free again when its handle is gone too, and the node when all its things are.
    let gone: [(&[u8], &[u8], (u64, u64, u64)); 5] = [
        (b"b", b"w", (1, 1, 2)),
        (b"b", b"m", (1, 0, 2)),
        (b"b", b"r", (0, 0, 2)),
        (b"b", b"f", (0, 0, 1)),
        (b"a", b"f", (0, 0, 0)),
    ];
    for (party, called, after) in gone {
        assert!(rt; things.take(&name(party), &name(called)).is_some() && taken(&things) == after);
    }
    assert!(rt; !things.has_thing(1) && things.has_thing(2) && !things.has_write_handle(1, 0));
    Ok(())
}
