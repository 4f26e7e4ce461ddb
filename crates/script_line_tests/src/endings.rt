//! The status and the note of each ending.
use script_endings::end_with;
use script_loop::{MemorySink, ScriptError};
use std::test::Fail;

#[test]
fn each_answer_has_its_status_and_note(rt: HostRuntime) -> Result<(), Fail> {
    let alloc = rt.alloc();
    let cases: [(Result<(), ScriptError>, u8, &'static str); 7] = [
        (Ok(()), 0, ""),
        (Err(ScriptError::ReadFault), 3, "read fault\n"),
        (Err(ScriptError::WriteFault), 4, "write fault\n"),
        (
            Err(ScriptError::BadLine(1)),
            5,
            "line 1: not in the grammar\n",
        ),
        (
            Err(ScriptError::BadLine(4294967295)),
            5,
            "line 4294967295: not in the grammar\n",
        ),
        (Err(ScriptError::TooLong), 6, "too long\n"),
        (Err(ScriptError::OutOfMemory), 7, "out of memory\n"),
    ];
    for (answer, status, note) in cases {
        let mut notes = MemorySink::new(alloc, 100, 0, Vec::new(alloc))?;
        assert_eq!(rt; end_with(answer, &mut notes), status, "{note}");
        assert_eq!(rt; notes.held(), note.as_bytes(), "{note}");
    }
    Ok(())
}
