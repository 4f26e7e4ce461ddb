//! A notifier and a listener in two threads.
use super::typed::{Ends, make_ends};
use crate::same::same;
use board_event::{
    KindOfEvents, Listener, Notifier, NotifierNotifyError, QueueOfIds, SetOfIds, TriggerId,
};
use std::process::Abort;
use std::sync::Wait;
use std::thread;
use std::thread::Threads;

/// Notifies of the numbers from one to the last, each until it is delivered.
fn counts<R: Wait, N: Notifier>(rt: &R, notifier: &N, last: usize) {
    let mut id = 1usize;
    for _ in rt.forever() {
        if id > last {
            return;
        }
        match notifier.notify(rt, TriggerId::new(id)) {
            Ok(()) => id = id.saturating_add(1),
            Err(_) => thread::yield_now(),
        }
    }
}

/// The three ids that are waited for, as the digits of a number.
fn three<R: Wait, L: Listener>(rt: &R, listener: L) -> usize {
    let mut digits = 0usize;
    for _ in 0..3 {
        if let Ok(Some(id)) = listener.blocking_wait_one(rt) {
            digits = digits.wrapping_mul(10).wrapping_add(id.as_value());
        }
    }
    listener.release(rt);
    digits
}

/// The listener goes to another thread, which takes the three ids that this one notifies.
fn three_between<R: Threads + Wait + Abort + Sync, K: KindOfEvents + Drop + Send + Sync + 'static>(
    rt: &R,
    ends: Ends<K>,
) -> usize {
    let Ends {
        listener,
        notifier,
        ..
    } = ends;
    let (digits, ()) = thread::join(rt, move || three(rt, listener), || counts(rt, &notifier, 3));
    digits
}

#[test]
fn three_ids_of_a_set_come_from_another_thread(rt: HostRuntime) {
    let ends: Ends<SetOfIds> = make_ends(&rt, rt.alloc(), 127);
    let digits = three_between(&rt, ends);
    // The least first, of those that are there: 1 comes before 2 and 3, whatever comes when.
    same(&rt, &digits, &123);
}

#[test]
fn three_ids_of_a_queue_come_from_another_thread(rt: HostRuntime) {
    let ends: Ends<QueueOfIds> = make_ends(&rt, rt.alloc(), 0);
    same(&rt, &three_between(&rt, ends), &123);
}

/// Hands each id on to the other thread and waits until it is back. Tells how many were.
fn sends<R: Wait, N: Notifier, L: Listener>(rt: &R, there: &N, back: &L, count: usize) -> usize {
    let mut right = 0usize;
    for number in 0..count {
        let id = TriggerId::new(number);
        if there.notify(rt, id).is_ok() && back.blocking_wait_one(rt) == Ok(Some(id)) {
            right = right.saturating_add(1);
        }
    }
    right
}

/// Hands back each id that comes.
fn returns<R: Wait, N: Notifier, L: Listener>(rt: &R, here: L, back: N, count: usize) {
    for _ in 0..count {
        if let Ok(Some(id)) = here.blocking_wait_one(rt) {
            let _ = back.notify(rt, id);
        }
    }
    here.release(rt);
    back.release(rt);
}

/// An id goes to another thread by one event and comes back by another, so one thread always waits for the other.
fn back_between<R: Threads + Wait + Abort + Sync, K: KindOfEvents + Drop + Send + Sync + 'static>(
    rt: &R,
    there: Ends<K>,
    back: Ends<K>,
    count: usize,
) -> usize {
    let (here, returner) = (there.listener, back.notifier);
    let (sender, end) = (there.notifier, back.listener);
    let ((), right) = thread::join(
        rt,
        move || returns(rt, here, returner, count),
        || sends(rt, &sender, &end, count),
    );
    right
}

#[test]
fn a_hundred_ids_of_sets_come_back(rt: HostRuntime) {
    let there: Ends<SetOfIds> = make_ends(&rt, rt.alloc(), 127);
    let back: Ends<SetOfIds> = make_ends(&rt, rt.alloc(), 127);
    same(&rt, &back_between(&rt, there, back, 100), &100);
}

#[test]
fn a_hundred_ids_of_queues_come_back(rt: HostRuntime) {
    let there: Ends<QueueOfIds> = make_ends(&rt, rt.alloc(), 0);
    let back: Ends<QueueOfIds> = make_ends(&rt, rt.alloc(), 0);
    same(&rt, &back_between(&rt, there, back, 100), &100);
}

/// How many ids came in their order, until as many came as were sent. It stops where a wait comes back without an id.
fn in_order<R: Wait, L: Listener>(rt: &R, listener: &L, last: usize) -> usize {
    let (mut came, mut right) = (0usize, 0usize);
    for _ in rt.forever() {
        if came >= last {
            break;
        }
        let before = came;
        let _ = listener.blocking_wait_all(rt, |id| {
            came = came.saturating_add(1);
            if id.as_value() == came {
                right = right.saturating_add(1);
            }
        });
        if came == before {
            break;
        }
    }
    right
}

fn right_between<R: Threads + Wait + Abort + Sync, K: KindOfEvents + Drop + Send + Sync + 'static>(
    rt: &R,
    ends: &Ends<K>,
    last: usize,
) -> usize {
    let notifier = &ends.notifier;
    let (_, right) = thread::join(
        rt,
        || counts(rt, notifier, last),
        || in_order(rt, &ends.listener, last),
    );
    right
}

#[test]
fn a_thousand_ids_come_once_each(rt: HostRuntime) {
    let ends: Ends<QueueOfIds> = make_ends(&rt, rt.alloc(), 0);
    same(&rt, &right_between(&rt, &ends, 1000), &1000);
    same(&rt, &ends.listener.try_wait_one(&rt), &Ok(None));
}

#[test]
fn sixty_ids_of_a_set_come_once_each(rt: HostRuntime) {
    // Of one word, so that a wait for all takes them in the order in which they were set.
    let ends: Ends<SetOfIds> = make_ends(&rt, rt.alloc(), 63);
    same(&rt, &right_between(&rt, &ends, 60), &60);
    same(&rt, &ends.listener.try_wait_one(&rt), &Ok(None));
}

/// Notifies until the listener is gone, and tells the last answer.
fn until_gone<R: Wait, N: Notifier>(rt: &R, notifier: &N) -> Result<(), NotifierNotifyError> {
    let mut answer = Ok(());
    for _ in rt.forever() {
        answer = notifier.notify(rt, TriggerId::new(1));
        if answer == Err(NotifierNotifyError::Disconnected) {
            break;
        }
        thread::yield_now();
    }
    answer
}

/// Takes an id, and goes.
pub(super) fn leaves<R: Wait, L: Listener>(rt: &R, listener: L) -> Option<TriggerId> {
    let id = listener.blocking_wait_one(rt);
    listener.release(rt);
    id.ok().flatten()
}

fn leaves_between<R: Threads + Wait + Abort + Sync>(
    rt: &R,
    ends: Ends<QueueOfIds>,
) -> (Result<(), NotifierNotifyError>, Option<TriggerId>) {
    let Ends {
        listener,
        notifier,
        ..
    } = ends;
    thread::join(
        rt,
        || until_gone(rt, &notifier),
        move || leaves(rt, listener),
    )
}

#[test]
fn a_notifier_finds_its_listener_gone(rt: HostRuntime) {
    let ends: Ends<QueueOfIds> = make_ends(&rt, rt.alloc(), 0);
    let (answer, id) = leaves_between(&rt, ends);
    same(&rt, &answer, &Err(NotifierNotifyError::Disconnected));
    same(&rt, &id, &Some(TriggerId::new(1)));
}
