//! Two events of one registry: ids of the one aren't the other's, and a notify wakes who waits for it, whoever else sleeps.
use super::threads::leaves;
use super::timed::{is_past, long};
use super::{listens, opens};
use crate::same::same;
use board_event::{
    EventListener, EventNotifier, EventRegistry, KindOfEvents, Listener, ListenerBuilder, Notifier,
    NotifierBuilder, NotifierNotifyError, QueueOfIds, SetOfIds, TriggerId,
};
use std::alloc::Global;
use std::process::Abort;
use std::sync::Wait;
use std::thread;
use std::thread::Threads;
use std::time::{Clock, Duration, Instant};

/// The events `x` and `y` of one registry. Their notifiers were opened over one more owner of it.
#[derive(Drop)]
struct Pair<K> {
    registry: EventRegistry<K>,
    x: EventListener<K>,
    y: EventListener<K>,
    to_x: EventNotifier<K>,
    to_y: EventNotifier<K>,
}

fn listener<R: Wait + Abort, K: KindOfEvents + Drop>(
    rt: &R,
    alloc: Global,
    registry: &EventRegistry<K>,
    name: &[u8],
) -> EventListener<K> {
    let builder = listens(rt, name, registry).trigger_id_max(TriggerId::new(127));
    builder.create(rt, alloc).expect(rt, "a free name")
}

fn make_pair<R: Wait + Abort, K: KindOfEvents + Drop>(rt: &R, alloc: Global) -> Pair<K> {
    let registry = EventRegistry::<K>::new(alloc).expect(rt, "memory");
    let shared = registry.share().expect(rt, "memory");
    let x = listener(rt, alloc, &registry, b"x");
    let y = listener(rt, alloc, &registry, b"y");
    let to_x = opens(rt, b"x", &shared).open(rt).expect(rt, "a held name");
    let to_y = opens(rt, b"y", &shared).open(rt).expect(rt, "a held name");
    Pair {
        registry,
        x,
        y,
        to_x,
        to_y,
    }
}

fn stay_apart<R: Wait + Abort, K: KindOfEvents + Drop>(rt: &R, pair: &Pair<K>) {
    same(rt, &pair.to_y.notify(rt, TriggerId::new(5)), &Ok(()));
    same(rt, &pair.x.try_wait_one(rt), &Ok(None));
    same(rt, &pair.to_x.notify(rt, TriggerId::new(6)), &Ok(()));
    same(rt, &pair.y.try_wait_one(rt), &Ok(Some(TriggerId::new(5))));
    same(rt, &pair.y.try_wait_one(rt), &Ok(None));
    same(rt, &pair.x.try_wait_one(rt), &Ok(Some(TriggerId::new(6))));
}

#[test]
fn events_of_one_registry_stay_apart(rt: HostRuntime) {
    stay_apart::<HostRuntime, SetOfIds>(&rt, &make_pair(&rt, rt.alloc()));
    stay_apart::<HostRuntime, QueueOfIds>(&rt, &make_pair(&rt, rt.alloc()));
}

/// Notifies the first of 1 and the second of 2, each once the others had time to fall asleep.
fn tells<R: Wait + Clock, N: Notifier>(rt: &R, first: &N, second: &N) {
    thread::sleep(rt, Duration::from_millis(20));
    let _ = first.notify(rt, TriggerId::new(1));
    thread::sleep(rt, Duration::from_millis(20));
    let _ = second.notify(rt, TriggerId::new(2));
}

/// Waits for an id of the listener, while another thread notifies both.
fn waits_beside<
    R: Threads + Wait + Clock + Abort + Sync,
    K: KindOfEvents + Drop + Send + Sync + 'static,
>(
    rt: &R,
    listener: EventListener<K>,
    first: EventNotifier<K>,
    second: EventNotifier<K>,
) -> Option<TriggerId> {
    let (id, ()) = thread::join(
        rt,
        move || leaves(rt, listener),
        move || tells(rt, &first, &second),
    );
    id
}

/// Two threads wait for one event each, and both come back with their ids. `x` is notified first, or last.
fn both_come_back<
    R: Threads + Wait + Clock + Abort + Sync,
    K: KindOfEvents + Drop + Send + Sync + 'static,
>(rt: &R, alloc: Global, x_first: bool) -> (Option<TriggerId>, Option<TriggerId>) {
    let Pair {
        x,
        y,
        to_x,
        to_y,
        ..
    } = make_pair::<R, K>(rt, alloc);
    let (first, second) = if x_first { (to_x, to_y) } else { (to_y, to_x) };
    thread::join(
        rt,
        move || leaves(rt, x),
        move || waits_beside(rt, y, first, second),
    )
}

/// Whether `x` came back with the one id and `y` with the other.
fn are<R: Abort>(rt: &R, came: (Option<TriggerId>, Option<TriggerId>), x: usize, y: usize) {
    same(rt, &came.0, &Some(TriggerId::new(x)));
    same(rt, &came.1, &Some(TriggerId::new(y)));
}

#[test]
fn each_sleeper_of_a_registry_is_woken(rt: HostRuntime) {
    for _ in 0..2 {
        let sets = both_come_back::<HostRuntime, SetOfIds>(&rt, rt.alloc(), true);
        are(&rt, sets, 1, 2);
        let queues = both_come_back::<HostRuntime, QueueOfIds>(&rt, rt.alloc(), false);
        are(&rt, queues, 2, 1);
    }
}

/// Takes an id, or all, that come before a long time is up, and goes. Tells the last one.
fn leaves_in_time<R: Wait + Clock, L: Listener>(
    rt: &R,
    listener: L,
    many: bool,
) -> Option<TriggerId> {
    let mut last = None;
    if many {
        let _ = listener.timed_wait_all(rt, |id| last = Some(id), long());
    } else if let Ok(one) = listener.timed_wait_one(rt, long()) {
        last = one;
    }
    listener.release(rt);
    last
}

/// A thread waits for an id of `x`, or all, up to a long time, while another one notifies `y`, which wakes it too, and then
/// `x`. Tells what came, which was before that time was up.
fn comes_in_time<
    R: Threads + Wait + Clock + Abort + Sync,
    K: KindOfEvents + Drop + Send + Sync + 'static,
>(rt: &R, alloc: Global, many: bool) -> Option<TriggerId> {
    let Pair { x, to_x, to_y, .. } = make_pair::<R, K>(rt, alloc);
    let start = Instant::now(rt).ok();
    let (came, ()) = thread::join(
        rt,
        move || leaves_in_time(rt, x, many),
        move || tells(rt, &to_y, &to_x),
    );
    assert!(rt; !is_past(rt, start, long()));
    came
}

#[test]
fn a_timed_wait_goes_on_until_its_id_comes(rt: HostRuntime) {
    for many in [false, true] {
        let set = comes_in_time::<HostRuntime, SetOfIds>(&rt, rt.alloc(), many);
        same(&rt, &set, &Some(TriggerId::new(2)));
        let queue = comes_in_time::<HostRuntime, QueueOfIds>(&rt, rt.alloc(), many);
        same(&rt, &queue, &Some(TriggerId::new(2)));
    }
}

/// Notifies by the lent form, over the events behind the registry's lock.
fn tells_lent<R: Wait + Clock, K: KindOfEvents + Drop>(
    rt: &R,
    registry: &EventRegistry<K>,
    notifier: &EventNotifier<K>,
) -> Result<(), NotifierNotifyError> {
    thread::sleep(rt, Duration::from_millis(20));
    let mut state = registry.lock(rt);
    notifier.notify_in(&mut state, TriggerId::new(5))
}

/// Another thread waits while this one lends the events and notifies. Tells what came, and what the notify was answered.
fn comes_of_lent<
    R: Threads + Wait + Clock + Abort + Sync,
    K: KindOfEvents + Drop + Send + Sync + 'static,
>(rt: &R, alloc: Global) -> (Option<TriggerId>, Result<(), NotifierNotifyError>) {
    let Pair {
        registry,
        x,
        to_x,
        ..
    } = make_pair::<R, K>(rt, alloc);
    thread::join(
        rt,
        move || leaves(rt, x),
        move || tells_lent(rt, &registry, &to_x),
    )
}

#[test]
fn a_lent_notify_wakes_who_sleeps(rt: HostRuntime) {
    let (id, answer) = comes_of_lent::<HostRuntime, SetOfIds>(&rt, rt.alloc());
    same(&rt, &id, &Some(TriggerId::new(5)));
    same(&rt, &answer, &Ok(()));
    let (id, answer) = comes_of_lent::<HostRuntime, QueueOfIds>(&rt, rt.alloc());
    same(&rt, &id, &Some(TriggerId::new(5)));
    same(&rt, &answer, &Ok(()));
}

/// A listener that is made over the events behind the registry's lock.
fn listener_lent<R: Wait + Abort, K: KindOfEvents + Drop>(
    rt: &R,
    alloc: Global,
    registry: &EventRegistry<K>,
) -> EventListener<K> {
    let builder = listens(rt, b"lent", registry).trigger_id_max(TriggerId::new(127));
    let mut state = registry.lock(rt);
    builder
        .create_in(&mut state, alloc)
        .expect(rt, "a free name")
}

/// Notifies, once the other thread had time to fall asleep.
fn tells_one<R: Wait + Clock, N: Notifier>(
    rt: &R,
    notifier: &N,
) -> Result<(), NotifierNotifyError> {
    thread::sleep(rt, Duration::from_millis(20));
    notifier.notify(rt, TriggerId::new(5))
}

/// A listener that was made over lent events waits while another thread notifies. Tells what came, and what the notify
/// was answered.
fn comes_to_lent<
    R: Threads + Wait + Clock + Abort + Sync,
    K: KindOfEvents + Drop + Send + Sync + 'static,
>(rt: &R, alloc: Global) -> (Option<TriggerId>, Result<(), NotifierNotifyError>) {
    let registry = EventRegistry::<K>::new(alloc).expect(rt, "memory");
    let listener = listener_lent(rt, alloc, &registry);
    let notifier = opens(rt, b"lent", &registry)
        .open(rt)
        .expect(rt, "a held name");
    thread::join(
        rt,
        move || leaves(rt, listener),
        move || tells_one(rt, &notifier),
    )
}

#[test]
fn a_listener_of_lent_events_is_woken(rt: HostRuntime) {
    let (id, answer) = comes_to_lent::<HostRuntime, SetOfIds>(&rt, rt.alloc());
    same(&rt, &id, &Some(TriggerId::new(5)));
    same(&rt, &answer, &Ok(()));
    let (id, answer) = comes_to_lent::<HostRuntime, QueueOfIds>(&rt, rt.alloc());
    same(&rt, &id, &Some(TriggerId::new(5)));
    same(&rt, &answer, &Ok(()));
}
