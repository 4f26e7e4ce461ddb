//! A new board: its keys and its first values.
use board_layout::Text;
use board_model::{AddedEntry, Key, Value, ValueType, value_detail};
use script_board_rows::{find, open};
use std::test::Fail;

fn f8(text: &[u8]) -> Key {
    let mut key = Text::of(b"");
    if text.len() <= 8 {
        key = Text::of(text);
    }
    Key::F8(key)
}

fn added() -> [AddedEntry; 2] {
    let door = AddedEntry {
        key: f8(b"door"),
        value: Value::U64(5),
    };
    let wall = AddedEntry {
        key: f8(b"wall"),
        value: Value::Bool(true),
    };
    [door, wall]
}

#[test]
fn a_new_board_begins_with_its_values(rt: HostRuntime) -> Result<(), Fail> {
    let added = added();
    let Some(opening) = open(rt.alloc(), &added)? else {
        return Err(Fail::new("no board"));
    };
    let words: [u64; 8] = [1, 0, 5, 0, 1, 0, 1, 0];
    assert!(rt; opening.words.as_slice() == words.as_slice());
    assert!(rt; opening.published.len() == 2);
    let (whole, truth) = (value_detail(ValueType::U64), value_detail(ValueType::Bool));
    assert!(rt; find(&f8(b"DOOR"), &whole, &opening.entries) == Some(0));
    assert!(rt; find(&f8(b"wall"), &truth, &opening.entries) == Some(1));
    assert!(rt; find(&f8(b"wall"), &whole, &opening.entries) == None);
    Ok(())
}
