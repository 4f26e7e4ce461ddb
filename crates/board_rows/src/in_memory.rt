//! A script is run in memory, from its words to its status.
use board_script::{ScriptError, run_in_memory};
use std::test::Fail;

#[test]
fn a_script_is_run_in_memory(rt: HostRuntime) -> Result<(), Fail> {
    let script = Vec::from_slice(
        rt.alloc(),
        b"begin a create f b u64 add u64:1 u64:5\nstep a\n",
    )?;
    let sink = run_in_memory(rt.alloc(), script, 4096)?;
    assert_eq!(rt; sink.held(), b"ok\ntable = ok 1\n".as_slice());
    Ok(())
}

// An answer that the room doesn't hold is a fault, and nothing behind it is looked at.
#[test]
fn a_room_is_never_outgrown(rt: HostRuntime) -> Result<(), Fail> {
    let rooms: [(&[u8], usize, Option<ScriptError>); 5] = [
        (b"words 1\n\n", 3, Some(ScriptError::WriteFault)),
        (b"words 1\n\n", 15, Some(ScriptError::WriteFault)),
        (b"words 1\n\n", 16, Some(ScriptError::BadLine(2))),
        (b"words 1\n", 15, Some(ScriptError::WriteFault)),
        (b"words 1\n", 16, None),
    ];
    for (script, room, error) in rooms {
        let script = Vec::from_slice(rt.alloc(), script)?;
        assert_eq!(rt; run_in_memory(rt.alloc(), script, room).err(), error);
    }
    Ok(())
}
