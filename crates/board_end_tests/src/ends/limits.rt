//! Typed calls at their limits: the greatest id, a full queue, ends that go.
use super::typed::{Ends, make_ends, row_is};
use super::{Deed, Told, file_name, listens, opens};
use crate::same::same;
use board_event::{
    BitEvent, BitRegistry, Event, EventRegistry, KindOfEvents, Listener, ListenerBuilder, Notifier,
    NotifierBuilder, NotifierCreateError, NotifierNotifyError, QUEUE_CAPACITY, QueueEvent,
    QueueOfIds, SetOfIds, TriggerId,
};
use board_names::NamedConcept;
use std::alloc::Global;
use std::process::Abort;
use std::sync::Wait;
use std::time::Duration;

#[test]
fn the_kinds_differ_in_their_greatest_id(rt: HostRuntime) {
    assert!(rt; BitEvent::has_trigger_id_limit());
    assert!(rt; !QueueEvent::has_trigger_id_limit());
    same(&rt, &BitEvent::default_suffix(), &file_name(&rt, b".event"));
    same(
        &rt,
        &QueueEvent::default_suffix(),
        &file_name(&rt, b".event"),
    );
    let sets: Ends<SetOfIds> = make_ends(&rt, rt.alloc(), 200);
    same(&rt, sets.listener.name(), &file_name(&rt, b"e"));
    same(&rt, sets.notifier.name(), &file_name(&rt, b"e"));
    same(&rt, &sets.notifier.trigger_id_max(), &TriggerId::new(200));
    let queues: Ends<QueueOfIds> = make_ends(&rt, rt.alloc(), 200);
    same(
        &rt,
        &queues.notifier.trigger_id_max(),
        &TriggerId::new(usize::MAX),
    );
}

#[test]
fn a_set_goes_up_to_65535_unless_told_otherwise(rt: HostRuntime) {
    let registry = BitRegistry::new(rt.alloc()).expect(&rt, "memory");
    let listener = listens(&rt, b"d", &registry).create(&rt, rt.alloc());
    assert!(rt; listener.is_ok());
    let builder = opens(&rt, b"d", &registry).timeout(Duration::from_millis(5));
    let notifier = builder.open(&rt).expect(&rt, "a held name");
    same(&rt, &notifier.trigger_id_max(), &TriggerId::new(65535));
}

#[test]
fn a_set_gives_the_least_first_and_none_above_its_greatest(rt: HostRuntime) {
    let ends: Ends<SetOfIds> = make_ends(&rt, rt.alloc(), 200);
    let out = Err(NotifierNotifyError::TriggerIdOutOfBounds);
    let row = [
        (Deed::Notify(200), Told::Notified(Ok(()))),
        (Deed::Notify(70), Told::Notified(Ok(()))),
        (Deed::Notify(3), Told::Notified(Ok(()))),
        (Deed::Notify(3), Told::Notified(Ok(()))),
        (Deed::Notify(201), Told::Notified(out)),
        (Deed::TakeOne, Told::One(Some(3))),
        (Deed::TakeAll, Told::All(70200)),
        (Deed::TakeOne, Told::One(None)),
    ];
    row_is(&rt, &ends, &row);
}

/// How many ids a queue takes before it refuses one, and with what.
fn fills<R: Wait, N: Notifier>(rt: &R, notifier: &N) -> (usize, Result<(), NotifierNotifyError>) {
    for count in 0..1000 {
        let answer = notifier.notify(rt, TriggerId::new(count));
        if answer.is_err() {
            return (count, answer);
        }
    }
    (1000, Ok(()))
}

#[test]
fn a_queue_holds_512_ids(rt: HostRuntime) {
    let ends: Ends<QueueOfIds> = make_ends(&rt, rt.alloc(), 0);
    let full = Err(NotifierNotifyError::FailedToDeliverSignal);
    same(&rt, &fills(&rt, &ends.notifier), &(QUEUE_CAPACITY, full));
    row_is(&rt, &ends, &[(Deed::TakeOne, Told::One(Some(0)))]);
    row_is(&rt, &ends, &[(Deed::Notify(9), Told::Notified(Ok(())))]);
}

/// Whether a listener of the name can be made anew, and has no ids then.
fn is_free<R: Wait + Abort, K: KindOfEvents + Drop>(
    rt: &R,
    alloc: Global,
    registry: &EventRegistry<K>,
) -> bool {
    match listens(rt, b"e", registry).create(rt, alloc) {
        Ok(listener) => listener.try_wait_one(rt) == Ok(None),
        Err(_) => false,
    }
}

/// The listener goes, the notifier notifies of an id above a set's greatest, and goes. Tells what it was answered, and
/// whether the name was free before and after it went.
fn goes<R: Wait + Abort, K: KindOfEvents + Drop>(
    rt: &R,
    ends: Ends<K>,
) -> (Result<(), NotifierNotifyError>, bool, bool) {
    ends.listener.release(rt);
    let before = is_free(rt, ends.alloc, &ends.registry);
    let answer = ends.notifier.notify(rt, TriggerId::new(200));
    ends.notifier.release(rt);
    (answer, before, is_free(rt, ends.alloc, &ends.registry))
}

#[test]
fn names_are_free_with_their_holders(rt: HostRuntime) {
    let gone = Err(NotifierNotifyError::Disconnected);
    let sets: Ends<SetOfIds> = make_ends(&rt, rt.alloc(), 127);
    same(&rt, &goes(&rt, sets), &(gone, false, true));
    let queues: Ends<QueueOfIds> = make_ends(&rt, rt.alloc(), 127);
    // The listener that was made anew is dropped without a release, so its name stays held.
    same(&rt, &goes(&rt, queues), &(gone, true, false));
}

/// The listener goes, and then two notifiers. Tells why none was opened between, and whether the name was free after the
/// first went and after the second.
fn go_in_turn<R: Wait + Abort>(
    rt: &R,
    ends: Ends<SetOfIds>,
) -> (Option<NotifierCreateError>, bool, bool) {
    let second = opens(rt, b"e", &ends.registry)
        .open(rt)
        .expect(rt, "a held name");
    ends.listener.release(rt);
    let late = opens(rt, b"e", &ends.registry).open(rt).err();
    ends.notifier.release(rt);
    let before = is_free(rt, ends.alloc, &ends.registry);
    second.release(rt);
    (late, before, is_free(rt, ends.alloc, &ends.registry))
}

#[test]
fn a_set_holds_its_name_until_its_last_notifier_goes(rt: HostRuntime) {
    let ends: Ends<SetOfIds> = make_ends(&rt, rt.alloc(), 127);
    let late = Some(NotifierCreateError::DoesNotExist);
    same(&rt, &go_in_turn(&rt, ends), &(late, false, true));
}
