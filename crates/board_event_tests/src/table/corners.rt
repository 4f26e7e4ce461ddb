//! Corners: names that stand side by side, names that are freed, and waits for all.
use super::{Deed, Told, deeds_are, full_name, notify_is, tell, wait_is};
use crate::same::same;
use board_event_core::{
    EventAccess as A, EventAnswer as B, EventKind, EventProgress as P, Events, ListenerCreateError,
    NotifierCreateError, NotifierNotifyError, NotifyCall, WaitCall, WaitMode, table_stands,
};
use std::process::Abort;

#[test]
fn names_and_their_holders(rt: HostRuntime) {
    let name = full_name(&rt, b"ev");
    let mut events = Events::new(rt.alloc());
    let taken = Told::NoListener(ListenerCreateError::AlreadyExists);
    let absent = Told::NoNotifier(NotifierCreateError::DoesNotExist);
    let (bits, queue) = (EventKind::Bits, EventKind::Queue);
    let rows = [
        // Names of the two kinds are apart.
        (Deed::Notifier(bits), absent),
        (Deed::Listen(bits, 63), Told::Number(1)),
        (Deed::Notifier(queue), absent),
        (Deed::Listen(queue, 0), Told::Number(2)),
        (Deed::Listen(bits, 63), taken),
        (Deed::Listen(queue, 0), taken),
        // A bits name is held by its notifiers too.
        (Deed::Notifier(bits), Told::Number(1)),
        (Deed::Notifier(bits), Told::Number(1)),
        (Deed::ReleaseListener(1), Told::Done),
        (Deed::ReleaseListener(1), Told::NotAllowed),
        (Deed::Listen(bits, 63), taken),
        (Deed::ReleaseNotifier(1), Told::Done),
        (Deed::Holds(bits), Told::Is(true)),
        (Deed::ReleaseNotifier(1), Told::Done),
        (Deed::Holds(bits), Told::Is(false)),
        (Deed::ReleaseNotifier(1), Told::NotAllowed),
        (Deed::Listen(bits, 127), Told::Number(3)),
        (Deed::MaxOf(3), Told::Number(127)),
        // A queue's name goes with its listener; its notifiers stay with the old event.
        (Deed::Notifier(queue), Told::Number(2)),
        (Deed::ReleaseListener(2), Told::Done),
        (Deed::Holds(queue), Told::Is(false)),
        (Deed::Listen(queue, 0), Told::Number(4)),
        (Deed::ReleaseNotifier(2), Told::Done),
        (Deed::Holds(queue), Told::Is(true)),
        // A removed name is free, and its event goes on.
        (Deed::Remove(queue), Told::Is(true)),
        (Deed::Remove(queue), Told::Is(false)),
        (Deed::Listen(queue, 0), Told::Number(5)),
        (Deed::MaxOf(4), Told::Number(0)),
        (Deed::ReleaseListener(4), Told::Done),
        (Deed::Holds(queue), Told::Is(true)),
        (Deed::Notifier(queue), Told::Number(5)),
    ];
    deeds_are(&rt, &mut events, &name, &rows);
}

#[test]
fn names_are_listed_in_order(rt: HostRuntime) {
    let (a, b) = (full_name(&rt, b"a"), full_name(&rt, b"b"));
    let mut events = Events::new(rt.alloc());
    same(&rt, &events.listen(EventKind::Queue, &b, 0), &Ok(1));
    same(&rt, &events.listen(EventKind::Queue, &a, 0), &Ok(2));
    table_stands(&events);
    same(&rt, &events.name_at(EventKind::Queue, 0), &Some(a));
    same(&rt, &events.name_at(EventKind::Queue, 1), &Some(b));
    same(&rt, &events.name_at(EventKind::Queue, 2), &None);
    same(&rt, &events.name_at(EventKind::Bits, 0), &None);
}

fn listened<R: Abort>(rt: &R, events: &mut Events, kind: EventKind) -> Told {
    tell(events, &full_name(rt, b"ev"), Deed::Listen(kind, 127))
}

#[test]
fn waits_for_all_of_a_set(rt: HostRuntime) {
    let mut events = Events::new(rt.alloc());
    same(
        &rt,
        &listened(&rt, &mut events, EventKind::Bits),
        &Told::Number(1),
    );
    let mut empty = WaitCall::bits(2, true, WaitMode::Try);
    let none = [
        (A::Signal, B::No, P::More),
        (A::Swap(0), B::Word(0), P::More),
        (A::Swap(1), B::Word(0), P::Nothing),
    ];
    wait_is(&rt, &mut events, 1, &mut empty, &none);
    // A blocking one looks, and an id without its signal lets it wait.
    let mut blocking = WaitCall::bits(2, true, WaitMode::Block);
    let looks = [
        (A::Signal, B::No, P::More),
        (A::Swap(0), B::Word(0), P::More),
        (A::Swap(1), B::Word(0), P::More),
        (A::Signal, B::No, P::Waiting),
    ];
    wait_is(&rt, &mut events, 1, &mut blocking, &looks);
    let mut notify = NotifyCall::bits(63, 127);
    let notified = [
        (A::Listener, B::Yes, P::More),
        (A::Set(63), B::Done, P::More),
        (A::Post, B::Done, P::Notified),
    ];
    notify_is(&rt, &mut events, 1, &mut notify, &notified);
    // The last word is empty: the wait ends there with what it took before.
    let (first, last) = (
        P::Took {
            base: 0,
            bits: 9223372036854775808,
            last: false,
        },
        P::Took {
            base: 64,
            bits: 0,
            last: true,
        },
    );
    let takes = [
        (A::Signal, B::Yes, P::More),
        (A::Signal, B::No, P::More),
        (A::Swap(0), B::Word(9223372036854775808), first),
        (A::Swap(1), B::Word(0), last),
    ];
    wait_is(&rt, &mut events, 1, &mut blocking, &takes);
}

#[test]
fn waits_on_a_queue(rt: HostRuntime) {
    let mut events = Events::new(rt.alloc());
    same(
        &rt,
        &listened(&rt, &mut events, EventKind::Queue),
        &Told::Number(1),
    );
    let mut once = WaitCall::queue(false, WaitMode::Try);
    wait_is(
        &rt,
        &mut events,
        1,
        &mut once,
        &[(A::Pop, B::Empty, P::Nothing)],
    );
    let mut timed = WaitCall::queue(true, WaitMode::Timed);
    let looks = [
        (A::Pop, B::Empty, P::Waiting),
        (A::Pop, B::Empty, P::Waiting),
    ];
    wait_is(&rt, &mut events, 1, &mut timed, &looks);
    for _ in 0..2 {
        let mut notify = NotifyCall::queue(7);
        notify_is(
            &rt,
            &mut events,
            1,
            &mut notify,
            &[(A::Push(7), B::Done, P::Notified)],
        );
    }
    let end = P::Took {
        base: 0,
        bits: 0,
        last: true,
    };
    let takes = [
        (A::Pop, B::Id(7), P::Id { id: 7, last: false }),
        (A::Pop, B::Id(7), P::Id { id: 7, last: false }),
        (A::Pop, B::Empty, end),
    ];
    wait_is(&rt, &mut events, 1, &mut timed, &takes);
    full_and_gone(&rt, &mut events);
}

/// On a full queue whose listener is gone, that it is gone is told.
fn full_and_gone<R: Abort>(rt: &R, events: &mut Events) {
    for id in 0..512 {
        let mut notify = NotifyCall::queue(id);
        notify_is(
            rt,
            events,
            1,
            &mut notify,
            &[(A::Push(id), B::Done, P::Notified)],
        );
    }
    if events.has_listener(1) {
        events.mark_gone(1);
    }
    let gone = P::Refused(NotifierNotifyError::Disconnected);
    let mut notify = NotifyCall::queue(9);
    notify_is(rt, events, 1, &mut notify, &[(A::Push(9), B::Gone, gone)]);
}
