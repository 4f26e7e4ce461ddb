//! The rows by typed calls.
use super::{
    Deed, Told, configuration, file_name, is_told, list_told, listens, one_told, opens,
    row_of_names, row_of_queues, row_of_sets, with_id,
};
use crate::same::same;
use board_event::{
    EventListener, EventNotifier, EventRegistry, KindOfEvents, Listener, ListenerBuilder,
    LocalEvent, Notifier, NotifierBuilder, QueueOfIds, SetOfIds, TriggerId,
};
use board_names::NamedConceptMgmt;
use std::alloc::Global;
use std::process::Abort;
use std::sync::Wait;

/// The ends of an event, and the registry that knows it.
#[derive(Drop)]
pub(super) struct Ends<K> {
    pub(super) registry: EventRegistry<K>,
    pub(super) listener: EventListener<K>,
    pub(super) notifier: EventNotifier<K>,
    pub(super) alloc: Global,
}

pub(super) fn make_ends<R: Wait + Abort, K: KindOfEvents + Drop>(
    rt: &R,
    alloc: Global,
    max: usize,
) -> Ends<K> {
    let registry = EventRegistry::<K>::new(alloc).expect(rt, "memory");
    let listener = listener(rt, alloc, &registry, max);
    let notifier = notifier(rt, &registry);
    Ends {
        registry,
        listener,
        notifier,
        alloc,
    }
}

fn listener<R: Wait + Abort, K: KindOfEvents + Drop>(
    rt: &R,
    alloc: Global,
    registry: &EventRegistry<K>,
    max: usize,
) -> EventListener<K> {
    assert!(rt; max < usize::MAX);
    let builder = listens(rt, b"e", registry).trigger_id_max(TriggerId::new(max));
    builder.create(rt, alloc).expect(rt, "a free name")
}

fn notifier<R: Wait + Abort, K: KindOfEvents + Drop>(
    rt: &R,
    registry: &EventRegistry<K>,
) -> EventNotifier<K> {
    opens(rt, b"e", registry).open(rt).expect(rt, "a held name")
}

fn all<R: Wait, L: Listener>(rt: &R, listener: &L) -> Told {
    let mut seen = 0usize;
    match listener.try_wait_all(rt, |id| seen = with_id(seen, id)) {
        Ok(()) => Told::All(seen),
        Err(_) => Told::Refused,
    }
}

fn names<R: Wait + Abort, K: KindOfEvents + Drop>(rt: &R, ends: &Ends<K>, deed: Deed) -> Told {
    let (name, names) = (file_name(rt, b"e"), configuration());
    match deed {
        Deed::Exists => is_told(LocalEvent::<K>::does_exist_cfg(rt, &ends.registry, &name, &names)),
        Deed::Remove => is_told(LocalEvent::<K>::remove_cfg(rt, &ends.registry, &name, &names)),
        _ => list_told(LocalEvent::<K>::list_cfg(rt, ends.alloc, &ends.registry, &names)),
    }
}

fn listed_by_share<R: Wait + Abort, K: KindOfEvents + Drop>(rt: &R, ends: &Ends<K>) -> Told {
    let shared = ends.registry.share().expect(rt, "memory");
    list_told(LocalEvent::<K>::list_cfg(rt, ends.alloc, &shared, &configuration()))
}

fn made_again<R: Wait + Abort, K: KindOfEvents + Drop>(rt: &R, ends: &Ends<K>) -> Told {
    let again = listens(rt, b"e", &ends.registry).create(rt, ends.alloc);
    Told::Listened(again.err())
}

fn opened_absent<R: Wait + Abort, K: KindOfEvents + Drop>(rt: &R, ends: &Ends<K>) -> Told {
    let absent = opens(rt, b"absent", &ends.registry).open(rt);
    Told::Opened(absent.err())
}

fn tell<R: Wait + Abort, K: KindOfEvents + Drop>(rt: &R, ends: &Ends<K>, deed: Deed) -> Told {
    match deed {
        Deed::Notify(id) => Told::Notified(ends.notifier.notify(rt, TriggerId::new(id))),
        Deed::TakeOne => one_told(ends.listener.try_wait_one(rt)),
        Deed::TakeAll => all(rt, &ends.listener),
        Deed::ListenAgain => made_again(rt, ends),
        Deed::OpenAbsent => opened_absent(rt, ends),
        Deed::ListShared => listed_by_share(rt, ends),
        Deed::Exists | Deed::List | Deed::Remove => names(rt, ends, deed),
    }
}

pub(super) fn row_is<R: Wait + Abort, K: KindOfEvents + Drop>(
    rt: &R,
    ends: &Ends<K>,
    row: &[(Deed, Told)],
) {
    for (deed, told) in row {
        same(rt, &tell(rt, ends, *deed), told);
    }
}

#[test]
fn a_callback_that_is_lent_is_called_on_what_waits(rt: HostRuntime) {
    let ends: Ends<SetOfIds> = make_ends(&rt, rt.alloc(), 127);
    row_is(&rt, &ends, &[(Deed::Notify(8), Told::Notified(Ok(())))]);
    row_is(&rt, &ends, &[(Deed::Notify(2), Told::Notified(Ok(())))]);
    let mut seen = 0usize;
    ends.listener
        .take_all(&rt, &mut |id| seen = with_id(seen, id));
    same(&rt, &seen, &2008);
}

#[test]
fn sets_by_typed_calls(rt: HostRuntime) {
    let ends: Ends<SetOfIds> = make_ends(&rt, rt.alloc(), 127);
    row_is(&rt, &ends, &row_of_sets());
    row_is(&rt, &ends, &row_of_names(&rt));
    // The ends go on without the name.
    row_is(&rt, &ends, &row_of_sets());
}

#[test]
fn queues_by_typed_calls(rt: HostRuntime) {
    let ends: Ends<QueueOfIds> = make_ends(&rt, rt.alloc(), 127);
    row_is(&rt, &ends, &row_of_queues());
    row_is(&rt, &ends, &row_of_names(&rt));
    // The ends go on without the name.
    row_is(&rt, &ends, &row_of_queues());
}
