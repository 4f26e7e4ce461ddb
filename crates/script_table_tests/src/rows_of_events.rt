//! Waits of a session that expire.
use board_event_model::{EventAnswer, EventKind, WaitMode};
use board_layout::Text;
use script_event_rows::{EventCall, EventRow, Took};
use std::test::Fail;

fn may_expire(took: &Took) -> bool {
    match took {
        Took::Ended(_) => false,
        Took::GoesOn(call) => call.may_expire(),
    }
}

#[test]
fn a_timed_wait_may_expire_after_it_found_nothing(rt: HostRuntime) -> Result<(), Fail> {
    let alloc = rt.alloc();
    let row = EventRow::new(alloc, EventKind::Queue, Text::of(b"door"), 0)?;
    let timed = EventCall::wait(alloc, &row, true, WaitMode::Timed);
    assert!(rt; !timed.may_expire());
    assert!(rt; may_expire(&timed.took(EventAnswer::Empty)?));
    let blocking = EventCall::wait(alloc, &row, true, WaitMode::Block);
    assert!(rt; !may_expire(&blocking.took(EventAnswer::Empty)?));
    Ok(())
}
