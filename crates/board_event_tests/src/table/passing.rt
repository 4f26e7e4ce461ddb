//! Words without ids, which a wait passes over.
use super::{Deed, Told, full_name, notify_is, tell, wait_is};
use crate::same::same;
use board_event_core::{
    EventAccess as A, EventAnswer as B, EventKind, EventProgress as P, Events, NotifyCall,
    WaitCall, WaitMode, pass_empty_words,
};
use std::process::Abort;

/// An event of four words. The third has id 130, as its bit 2.
fn made<R: Abort>(rt: &R, events: &mut Events) {
    let listened = tell(
        events,
        &full_name(rt, b"ev"),
        Deed::Listen(EventKind::Bits, 255),
    );
    same(rt, &listened, &Told::Number(1));
    let mut notify = NotifyCall::bits(130, 255);
    let rows = [
        (A::Listener, B::Yes, P::More),
        (A::Set(130), B::Done, P::More),
        (A::Post, B::Done, P::Notified),
    ];
    notify_is(rt, events, 1, &mut notify, &rows);
}

#[test]
fn a_wait_passes_over_empty_words(rt: HostRuntime) {
    let mut events = Events::new(rt.alloc());
    made(&rt, &mut events);
    let mut wait = WaitCall::bits(4, true, WaitMode::Try);
    // It looks at no word before its drain.
    pass_empty_words(&events, 1, &mut wait);
    let drained = [(A::Signal, B::Yes, P::More), (A::Signal, B::No, P::More)];
    wait_is(&rt, &mut events, 1, &mut wait, &drained);
    same(&rt, &wait.word(), &Some(0));
    pass_empty_words(&events, 1, &mut wait);
    let (third, end) = (
        P::Took {
            base: 128,
            bits: 4,
            last: false,
        },
        P::Took {
            base: 192,
            bits: 0,
            last: true,
        },
    );
    let third = [(A::Swap(2), B::Word(4), third)];
    wait_is(&rt, &mut events, 1, &mut wait, &third);
    pass_empty_words(&events, 1, &mut wait);
    wait_is(
        &rt,
        &mut events,
        1,
        &mut wait,
        &[(A::Swap(3), B::Word(0), end)],
    );
    // It ended, and looks at no word.
    pass_empty_words(&events, 1, &mut wait);
    assert!(rt; wait.is_done());
}

#[test]
fn a_wait_of_an_empty_set_looks_at_its_last_word_alone(rt: HostRuntime) {
    let mut events = Events::new(rt.alloc());
    let name = full_name(&rt, b"ev");
    same(&rt, &events.listen(EventKind::Bits, &name, 255), &Ok(1));
    let mut wait = WaitCall::bits(4, false, WaitMode::Try);
    wait_is(
        &rt,
        &mut events,
        1,
        &mut wait,
        &[(A::Signal, B::No, P::More)],
    );
    pass_empty_words(&events, 1, &mut wait);
    wait_is(
        &rt,
        &mut events,
        1,
        &mut wait,
        &[(A::Scan(3), B::Word(0), P::Nothing)],
    );
}
