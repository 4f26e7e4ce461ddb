//! The rows by lent forms.
ghost use Rattle.std.specs.Prelude.{◌≡◌, None};

use super::{
    Deed, Told, configuration, file_name, is_told, list_told, listens, one_told, opens,
    row_of_names, row_of_queues, row_of_sets, with_id,
};
use crate::same::same;
use board_event::{
    EventListener, EventListenerBuilder, EventNotifier, EventRegistry, EventsOf, KindOfEvents,
    ListenerBuilder, LocalEvent, NotifierNotifyError, QueueOfIds, SetOfIds, TriggerId,
};
use board_names::{NameTable, NamedConceptMgmt};
use std::alloc::Global;
use std::process::Abort;

/// The ends of an event, and the events themselves.
#[derive(Drop)]
struct Lent<K> {
    registry: EventRegistry<K>,
    state: EventsOf<K>,
    listener: EventListener<K>,
    notifier: EventNotifier<K>,
    alloc: Global,
}

fn make_lent<R: Abort, K: KindOfEvents + Drop>(rt: &R, alloc: Global) -> Lent<K> {
    let registry = EventRegistry::<K>::new(alloc).expect(rt, "memory");
    let mut state = EventsOf::<K>::new(alloc);
    let builder = listens(rt, b"e", &registry).trigger_id_max(TriggerId::new(127));
    let listener = builder
        .create_in(&mut state, alloc)
        .expect(rt, "a free name");
    let notifier = opens(rt, b"e", &registry)
        .open_in(&mut state)
        .expect(rt, "a held name");
    Lent {
        registry,
        state,
        listener,
        notifier,
        alloc,
    }
}

fn all<K: KindOfEvents + Drop>(lent: &mut Lent<K>) -> Told {
    let mut seen = 0usize;
    let answer = lent
        .listener
        .try_wait_all_in(&mut lent.state, |id| seen = with_id(seen, id));
    match answer {
        Ok(()) => Told::All(seen),
        Err(_) => Told::Refused,
    }
}

fn names<R: Abort, K: KindOfEvents + Drop>(rt: &R, lent: &mut Lent<K>, deed: Deed) -> Told {
    let (name, names) = (file_name(rt, b"e"), configuration());
    match deed {
        Deed::Exists => is_told(LocalEvent::<K>::does_exist_cfg_in(&mut lent.state, &name, &names)),
        Deed::Remove => is_told(LocalEvent::<K>::remove_cfg_in(&mut lent.state, &name, &names)),
        _ => list_told(LocalEvent::<K>::list_cfg_in(&mut lent.state, lent.alloc, &names)),
    }
}

fn made_again<R: Abort, K: KindOfEvents + Drop>(rt: &R, lent: &mut Lent<K>) -> Told {
    let builder = listens(rt, b"e", &lent.registry);
    Told::Listened(builder.create_in(&mut lent.state, lent.alloc).err())
}

fn opened_absent<R: Abort, K: KindOfEvents + Drop>(rt: &R, lent: &mut Lent<K>) -> Told {
    let builder = opens(rt, b"absent", &lent.registry);
    Told::Opened(builder.open_in(&mut lent.state).err())
}

fn tell<R: Abort, K: KindOfEvents + Drop>(rt: &R, lent: &mut Lent<K>, deed: Deed) -> Told {
    match deed {
        Deed::Notify(id) => {
            Told::Notified(lent.notifier.notify_in(&mut lent.state, TriggerId::new(id)))
        }
        Deed::TakeOne => one_told(lent.listener.try_wait_one_in(&mut lent.state)),
        Deed::TakeAll => all(lent),
        Deed::ListenAgain => made_again(rt, lent),
        Deed::OpenAbsent => opened_absent(rt, lent),
        Deed::Exists | Deed::List | Deed::ListShared | Deed::Remove => names(rt, lent, deed),
    }
}

fn row_is<R: Abort, K: KindOfEvents + Drop>(rt: &R, lent: &mut Lent<K>, row: &[(Deed, Told)]) {
    for (deed, told) in row {
        same(rt, &tell(rt, lent, *deed), told);
    }
}

#[test]
fn sets_by_lent_forms(rt: HostRuntime) {
    let mut lent: Lent<SetOfIds> = make_lent(&rt, rt.alloc());
    row_is(&rt, &mut lent, &row_of_sets());
    row_is(&rt, &mut lent, &row_of_names(&rt));
}

#[test]
fn queues_by_lent_forms(rt: HostRuntime) {
    let mut lent: Lent<QueueOfIds> = make_lent(&rt, rt.alloc());
    row_is(&rt, &mut lent, &row_of_queues());
    row_is(&rt, &mut lent, &row_of_names(&rt));
}

/// The listener goes, and then the notifier. Tells what a notify between them was answered.
fn released<K: KindOfEvents + Drop>(
    state: &mut EventsOf<K>,
    listener: EventListener<K>,
    notifier: EventNotifier<K>,
) -> Result<(), NotifierNotifyError> {
    listener.release_in(state);
    let answer = notifier.notify_in(state, TriggerId::new(3));
    notifier.release_in(state);
    answer
}

#[test]
fn a_lent_event_goes_with_its_last_end(rt: HostRuntime) {
    let Lent {
        mut state,
        listener,
        notifier,
        ..
    } = make_lent::<HostRuntime, SetOfIds>(&rt, rt.alloc());
    let answer = released(&mut state, listener, notifier);
    same(&rt, &answer, &Err(NotifierNotifyError::Disconnected));
    same(&rt, &state.name_at(0), &None);
    assert!(rt; !state.events().has_listener(1));
    assert!(rt; !state.events().has_notifier(1));
}

/// What the first wait on a new event gives, whatever the events were before: nothing. No one tests it here.
fn first_wait<K: KindOfEvents + Drop>(
    state: &mut EventsOf<K>,
    builder: EventListenerBuilder<K>,
    alloc: Global,
) -> Option<TriggerId>
    ensures { result ≡ None }
{
    let Ok(listener) = builder.create_in(state, alloc) else {
        return None;
    };
    match listener.try_wait_one_in(state) {
        Ok(one) => one,
        Err(_) => None,
    }
}
