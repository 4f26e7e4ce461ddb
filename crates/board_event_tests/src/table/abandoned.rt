//! Each call abandoned at each step: what a later wait for all still finds.
use super::{full_name, notifies, waits};
use crate::same::same;
use board_event_core::{
    EventKind, EventProgress, Events, ListenerCreateError, NotifyCall, WaitCall, WaitMode,
};
use std::process::Abort;

/// The call that is abandoned. Before a wait, a notify has handed in 5, and on bits another one 70.
#[derive(Clone, Copy, Debug, PartialEq, Eq)]
enum Cut {
    NotifyBits,
    NotifyQueue,
    OneOfBits,
    AllOfBits,
    OneOfQueue,
    AllOfQueue,
}

/// What a later wait for all has found: the words of a set of two, or how many ids of a queue.
#[derive(Clone, Copy, Debug, PartialEq, Eq)]
enum Left {
    Words(u64, u64),
    Ids(u64),
}

fn made<R: Abort>(
    rt: &R,
    events: &mut Events,
    kind: EventKind,
) -> Result<u64, ListenerCreateError> {
    events.listen(kind, &full_name(rt, b"cut"), 127)
}

fn notified(events: &mut Events, event: u64, call: NotifyCall, steps: u64) {
    let mut call = call;
    for _ in 0..steps {
        let _ = notifies(events, event, &mut call);
    }
}

fn waited(events: &mut Events, event: u64, call: WaitCall, steps: u64) {
    let mut call = call;
    for _ in 0..steps {
        let _ = waits(events, event, &mut call);
    }
}

/// What a wait for all of a set of two words takes.
fn words_left(events: &mut Events, event: u64) -> Left {
    let mut call = WaitCall::bits(2, true, WaitMode::Try);
    let (mut low, mut high) = (0, 0);
    for _ in 0..8 {
        match waits(events, event, &mut call) {
            Some(step) => match step.progress {
                EventProgress::Took { base: 0, bits, .. } => low = bits,
                EventProgress::Took { base: 64, bits, .. } => high = bits,
                _ => {}
            },
            None => {}
        }
    }
    Left::Words(low, high)
}

/// How many ids a wait for all of a queue takes.
fn ids_left(events: &mut Events, event: u64) -> Left {
    let mut call = WaitCall::queue(true, WaitMode::Try);
    let mut found = 0u64;
    for _ in 0..4 {
        match waits(events, event, &mut call) {
            Some(step) => match step.progress {
                EventProgress::Id { .. } => found = found.saturating_add(1),
                _ => {}
            },
            None => {}
        }
    }
    Left::Ids(found)
}

fn cut_bits(events: &mut Events, event: u64, cut: Cut, steps: u64) -> Left {
    if cut == Cut::NotifyBits {
        notified(events, event, NotifyCall::bits(5, 127), steps);
        return words_left(events, event);
    }
    notified(events, event, NotifyCall::bits(5, 127), 3);
    notified(events, event, NotifyCall::bits(70, 127), 3);
    let wait = WaitCall::bits(2, cut == Cut::AllOfBits, WaitMode::Block);
    waited(events, event, wait, steps);
    words_left(events, event)
}

fn cut_queue(events: &mut Events, event: u64, cut: Cut, steps: u64) -> Left {
    if cut == Cut::NotifyQueue {
        notified(events, event, NotifyCall::queue(5), steps);
        return ids_left(events, event);
    }
    notified(events, event, NotifyCall::queue(5), 1);
    notified(events, event, NotifyCall::queue(70), 1);
    let wait = WaitCall::queue(cut == Cut::AllOfQueue, WaitMode::Block);
    waited(events, event, wait, steps);
    ids_left(events, event)
}

#[test]
fn each_call_abandoned_at_each_step(rt: HostRuntime) {
    // Bit 5 of word 0 is id 5, bit 6 of word 1 is id 70.
    let bits = [
        (
            Cut::NotifyBits,
            [(0, 0), (0, 0), (32, 0), (32, 0), (32, 0), (32, 0)],
        ),
        // two signals, none, word 0, and 5 is cleared
        (
            Cut::OneOfBits,
            [(32, 64), (32, 64), (32, 64), (32, 64), (32, 64), (0, 64)],
        ),
        // two signals, none, word 0 and word 1 are taken
        (
            Cut::AllOfBits,
            [(32, 64), (32, 64), (32, 64), (32, 64), (0, 64), (0, 0)],
        ),
    ];
    for (cut, left) in bits {
        for (steps, (low, high)) in left.into_iter().enumerate() {
            let mut events = Events::new(rt.alloc());
            same(&rt, &made(&rt, &mut events, EventKind::Bits), &Ok(1));
            let found = cut_bits(&mut events, 1, cut, steps as u64);
            assert_eq!(rt; found, Left::Words(low, high), "{cut:?} {steps}");
        }
    }
    let queues = [
        (Cut::NotifyQueue, [0, 1, 1, 1]),
        (Cut::OneOfQueue, [2, 1, 1, 1]),
        (Cut::AllOfQueue, [2, 1, 0, 0]),
    ];
    for (cut, left) in queues {
        for (steps, count) in left.into_iter().enumerate() {
            let mut events = Events::new(rt.alloc());
            same(&rt, &made(&rt, &mut events, EventKind::Queue), &Ok(1));
            let found = cut_queue(&mut events, 1, cut, steps as u64);
            assert_eq!(rt; found, Left::Ids(count), "{cut:?} {steps}");
        }
    }
}
