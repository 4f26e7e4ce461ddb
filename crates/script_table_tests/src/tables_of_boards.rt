//! Boards of a session: how long each stands.
use board_layout::Text;
use board_model::{
    AddedEntries, AddedEntry, Attributes, Key, KeyType, Limits, LongName, Name, NewLimits, Reply,
    Value,
};
use script_board_tables::{BoardCall, BoardTables, Stepped, TableCall};
use std::alloc::{AllocError, Global};
use std::test::Fail;

// A board with one entry, a number under the key 7.
fn a_board(alloc: Global, factory: Name) -> Result<TableCall, AllocError> {
    let mut entries = Vec::new(alloc);
    entries.push(AddedEntry {
        key: Key::U64(7),
        value: Value::U64(5),
    })?;
    Ok(TableCall::Create {
        factory,
        name: LongName::new(alloc, Text::of(b"door"))?,
        key_type: KeyType::U64,
        limits: NewLimits {
            shared: Limits {
                max_readers: None,
                max_nodes: None,
            },
            max_writers: None,
        },
        attributes: Attributes::from_vec(Vec::new(alloc)),
        entries: AddedEntries::from_vec(entries),
    })
}

#[test]
fn a_board_stands_until_its_factory_goes(rt: HostRuntime) -> Result<(), Fail> {
    let (party, factory): (Name, Name) = (Text::of(b"a"), Text::of(b"f"));
    let mut tables = BoardTables::new(rt.alloc());
    let call = a_board(rt.alloc(), factory)?;
    let stepped = tables.step(&party, BoardCall::Table(call))?;
    let told = matches!(
        &stepped,
        Stepped::Ends {
            access: _,
            reply: Reply::Number(1)
        }
    );
    assert!(rt; told && tables.stands(1) && tables.is_held(&party, &factory));
    let first = tables.words(1).first().copied();
    assert!(rt; first == Some(1) && tables.words(2).is_empty());
    tables.release(&party, &factory);
    assert!(rt; !tables.stands(1) && !tables.is_held(&party, &factory));
    Ok(())
}
