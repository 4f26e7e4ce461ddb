//! One text over both kinds, which knows the traits alone.
use super::{configuration, file_name, with_id};
use crate::same::same;
use board_event::{
    BitEvent, BitRegistry, Event, Listener, ListenerBuilder, Notifier, NotifierBuilder,
    NotifierNotifyError, QueueEvent, QueueRegistry, TriggerId,
};
use board_names::{NamedConceptBuilder, NamedConceptMgmt};
use std::alloc::Global;
use std::process::Abort;
use std::sync::Wait;

fn listener<E: Event, R: Wait + Abort>(
    rt: &R,
    alloc: Global,
    registry: &E::Registry,
) -> E::Listener {
    let builder = E::ListenerBuilder::new(&file_name(rt, b"e"), registry).expect(rt, "memory");
    builder.create(rt, alloc).expect(rt, "a free name")
}

fn notifier<E: Event, R: Wait + Abort>(rt: &R, registry: &E::Registry) -> E::Notifier {
    let builder = E::NotifierBuilder::new(&file_name(rt, b"e"), registry).expect(rt, "memory");
    builder.open(rt).expect(rt, "a held name")
}

/// Whether a name of the kind is held.
fn is_held<E: Event, R: Wait + Abort>(rt: &R, registry: &E::Registry) -> bool {
    E::does_exist_cfg(rt, registry, &file_name(rt, b"e"), &configuration()) == Ok(true)
}

/// All ids that wait, as a number.
fn all<R: Wait, L: Listener>(rt: &R, listener: &L) -> usize {
    let mut seen = 0usize;
    let _ = listener.try_wait_all(rt, |id| seen = with_id(seen, id));
    seen
}

/// Three ids are handed over, one is taken, and then all.
fn takes_three<R: Wait + Abort, L: Listener, N: Notifier>(rt: &R, listener: &L, notifier: &N) {
    for id in [3, 5, 7] {
        same(rt, &notifier.notify(rt, TriggerId::new(id)), &Ok(()));
    }
    same(rt, &listener.try_wait_one(rt), &Ok(Some(TriggerId::new(3))));
    same(rt, &all(rt, listener), &5007);
    same(rt, &listener.try_wait_one(rt), &Ok(None));
}

/// What both kinds answer alike, from the first end to the last.
fn row_of_both<E: Event, R: Wait + Abort>(rt: &R, alloc: Global, registry: &E::Registry) {
    let listener = listener::<E, R>(rt, alloc, registry);
    let notifier = notifier::<E, R>(rt, registry);
    takes_three(rt, &listener, &notifier);
    assert!(rt; is_held::<E, R>(rt, registry));
    listener.release(rt);
    let gone = notifier.notify(rt, TriggerId::new(9));
    same(rt, &gone, &Err(NotifierNotifyError::Disconnected));
    notifier.release(rt);
    assert!(rt; !is_held::<E, R>(rt, registry));
}

#[test]
fn both_kinds_by_one_text(rt: HostRuntime) {
    let sets = BitRegistry::new(rt.alloc()).expect(&rt, "memory");
    row_of_both::<BitEvent, HostRuntime>(&rt, rt.alloc(), &sets);
    let queues = QueueRegistry::new(rt.alloc()).expect(&rt, "memory");
    row_of_both::<QueueEvent, HostRuntime>(&rt, rt.alloc(), &queues);
}
