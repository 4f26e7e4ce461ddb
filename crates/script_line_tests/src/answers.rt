//! Texts that are answers and texts that are none.
use script_answers::is_answer;
use std::test::Fail;

#[test]
fn texts_that_are_answers(rt: HostRuntime) -> Result<(), Fail> {
    let cases: [&[u8]; 34] = [
        b"ok",
        b"gone",
        b"= none",
        b"refused notwaiting",
        b"words",
        b"words 1 0 18446744073709551615",
        b"table",
        b"table = ok",
        b"table = ok 1",
        b"table = id 32",
        b"table = gen 0",
        b"table = keys",
        b"table = keys u64:5 f8:=a",
        b"table = nodes a b1",
        b"table = info = f8 readers 8 nodes 20 writers 1 entries 2 attrs 1 taken 3 1 4",
        b"table = EntryHandleMutError::HandleAlreadyExists",
        b"table = NotifierCreateError::DoesNotExist",
        b"read 1:20 0",
        b"read 1:0 2 = u64:9 gen 2",
        b"read 1:0 2 = bool:true gen 2",
        b"read 1:0 2 = q4:1,2,3,4 gen 2",
        b"read 1:0 2 = false",
        b"write 1:0 2 = ok",
        b"listener bits:door no = NotifierNotifyError::TriggerIdOutOfBounds",
        b"set bits:door 7",
        b"post bits:door = ok",
        b"push queue:= = ok",
        b"signal bits:a:b yes",
        b"scan bits:door 1 128",
        b"clear bits:door 7 = id 7",
        b"swap bits:door 0 3 = ids 3 1 65535",
        b"swap bits:door 0 0 = ids",
        b"pop queue:door none = none",
        b"pop queue:door 7",
    ];
    for text in cases {
        assert!(rt; is_answer(1, text));
    }
    Ok(())
}

#[test]
fn texts_that_are_none(rt: HostRuntime) -> Result<(), Fail> {
    let cases: [&[u8]; 24] = [
        b"",
        b"ok ",
        b"ok 1",
        b"refused",
        b"refused sleepy",
        b"words ",
        b"words 01",
        b"words 18446744073709551616",
        b"table =",
        b"table = ",
        b"table = ok 1 2",
        b"table = OutOfMemory",
        b"table = BlackboardCreateError::OutOfMemory",
        b"table = keys u64:5 ",
        b"table = nodes A",
        b"read 1:20",
        b"read 1 20",
        b"read 1:2:3 4",
        b"read 1:0 2 = u64:9",
        b"read 1:0 2 = q4:1,2,3 gen 2",
        b"push bits:door",
        b"set queue:door 1",
        b"signal bits:. yes",
        b"signal bits:door maybe",
    ];
    for text in cases {
        assert!(rt; !is_answer(1, text));
    }
    Ok(())
}
