//! Waits that end when their time is up.
use super::typed::{Ends, make_ends};
use super::with_id;
use crate::same::same;
use board_event::{KindOfEvents, Listener, Notifier, QueueOfIds, SetOfIds, TriggerId};
use std::process::Abort;
use std::sync::Wait;
use std::time::{Clock, Duration, Instant};

fn short() -> Duration {
    Duration::from_millis(20)
}

pub(super) fn long() -> Duration {
    Duration::from_secs(100)
}

// The one id that came in this time.
fn one<R: Wait + Clock, L: Listener>(rt: &R, listener: &L, timeout: Duration) -> Option<usize> {
    match listener.timed_wait_one(rt, timeout) {
        Ok(Some(id)) => Some(id.as_value()),
        _ => None,
    }
}

// The number of all ids that came in this time.
fn all<R: Wait + Clock, L: Listener>(rt: &R, listener: &L, timeout: Duration) -> usize {
    let mut seen = 0usize;
    let _ = listener.timed_wait_all(rt, |id| seen = with_id(seen, id), timeout);
    seen
}

// Whether a clock went on by at least this time.
pub(super) fn is_past<R: Clock>(rt: &R, start: Option<Instant>, time: Duration) -> bool {
    match start.map(|start| start.elapsed(rt)) {
        Some(Ok(passed)) => passed >= time,
        _ => false,
    }
}

// Nothing is notified, so both waits end with their time.
fn ends_with_its_time<R: Wait + Abort + Clock, L: Listener>(rt: &R, listener: &L) {
    let start = Instant::now(rt).ok();
    same(rt, &one(rt, listener, short()), &None);
    assert!(rt; is_past(rt, start, short()));
    same(rt, &all(rt, listener, short()), &0);
    assert!(rt; is_past(rt, start, Duration::from_millis(40)));
}

// What waits already is taken, long before the time is up.
fn takes_what_waits<R: Wait + Abort + Clock, K: KindOfEvents + Drop>(rt: &R, ends: &Ends<K>) {
    let start = Instant::now(rt).ok();
    for id in [5, 7, 8] {
        same(rt, &ends.notifier.notify(rt, TriggerId::new(id)), &Ok(()));
    }
    same(rt, &one(rt, &ends.listener, long()), &Some(5));
    same(rt, &all(rt, &ends.listener, long()), &7008);
    assert!(rt; !is_past(rt, start, long()));
}

#[test]
fn timed_waits_on_a_set_end(rt: HostRuntime) {
    let ends: Ends<SetOfIds> = make_ends(&rt, rt.alloc(), 127);
    ends_with_its_time(&rt, &ends.listener);
    takes_what_waits(&rt, &ends);
    ends_with_its_time(&rt, &ends.listener);
}

#[test]
fn timed_waits_on_a_queue_end(rt: HostRuntime) {
    let ends: Ends<QueueOfIds> = make_ends(&rt, rt.alloc(), 0);
    ends_with_its_time(&rt, &ends.listener);
    takes_what_waits(&rt, &ends);
    ends_with_its_time(&rt, &ends.listener);
}
