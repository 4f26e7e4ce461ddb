//! One name under two configurations.
use super::{configuration, file_name, listens, opens};
use crate::same::same;
use board_event::{
    EventListener, EventNotifier, EventRegistry, KindOfEvents, Listener, ListenerBuilder,
    LocalEvent, Notifier, NotifierBuilder, QueueOfIds, SetOfIds, TriggerId,
};
use board_names::{
    Configuration, NamedConceptBuilder, NamedConceptConfiguration, NamedConceptMgmt, Path,
};
use std::alloc::Global;
use std::process::Abort;
use std::sync::Wait;

/// The usual configuration with one other part.
fn others<R: Abort>(rt: &R) -> [Configuration; 3] {
    let (other, folder) = (file_name(rt, b"other_"), Path::new(b"/other"));
    [
        configuration().prefix(&other),
        configuration().suffix(&other),
        configuration().path_hint(&folder.expect(rt, "a path")),
    ]
}

fn listener<R: Wait + Abort, K: KindOfEvents + Drop>(
    rt: &R,
    alloc: Global,
    registry: &EventRegistry<K>,
    names: &Configuration,
) -> EventListener<K> {
    let builder = listens(rt, b"e", registry).config(names);
    builder.create(rt, alloc).expect(rt, "a free name")
}

fn notifier<R: Wait + Abort, K: KindOfEvents + Drop>(
    rt: &R,
    registry: &EventRegistry<K>,
    names: &Configuration,
) -> EventNotifier<K> {
    let builder = opens(rt, b"e", registry).config(names);
    builder.open(rt).expect(rt, "a held name")
}

fn is_held<R: Wait + Abort, K: KindOfEvents + Drop>(
    rt: &R,
    registry: &EventRegistry<K>,
    names: &Configuration,
) -> bool {
    LocalEvent::<K>::does_exist_cfg(rt, registry, &file_name(rt, b"e"), names) == Ok(true)
}

/// An id that is sent under the other configuration reaches the listener under that one alone.
fn reaches_its_own<R: Wait + Abort, K: KindOfEvents + Drop>(
    rt: &R,
    alloc: Global,
    registry: &EventRegistry<K>,
    other: &Configuration,
) {
    let usual = listener(rt, alloc, registry, &configuration());
    let own = listener(rt, alloc, registry, other);
    let answer = notifier(rt, registry, other).notify(rt, TriggerId::new(5));
    same(rt, &answer, &Ok(()));
    same(rt, &usual.try_wait_one(rt), &Ok(None));
    same(rt, &own.try_wait_one(rt), &Ok(Some(TriggerId::new(5))));
}

/// The name under the other configuration goes, and that under the usual one stays.
fn goes_alone<R: Wait + Abort, K: KindOfEvents + Drop>(
    rt: &R,
    registry: &EventRegistry<K>,
    other: &Configuration,
) {
    assert!(rt; is_held(rt, registry, other));
    let was_held = LocalEvent::<K>::remove_cfg(rt, registry, &file_name(rt, b"e"), other);
    same(rt, &was_held, &Ok(true));
    assert!(rt; !is_held(rt, registry, other));
    assert!(rt; is_held(rt, registry, &configuration()));
}

fn stay_apart<R: Wait + Abort, K: KindOfEvents + Drop>(rt: &R, alloc: Global) {
    for other in &others(rt) {
        let registry = EventRegistry::<K>::new(alloc).expect(rt, "memory");
        reaches_its_own(rt, alloc, &registry, other);
        goes_alone(rt, &registry, other);
    }
}

#[test]
fn one_name_under_two_configurations_is_of_two_events(rt: HostRuntime) {
    stay_apart::<HostRuntime, SetOfIds>(&rt, rt.alloc());
    stay_apart::<HostRuntime, QueueOfIds>(&rt, rt.alloc());
}
