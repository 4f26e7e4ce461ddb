//! Events of this process, in one text over both kinds.
ghost use Rattle.std.specs.Prelude.{◌≡◌, Ok};
ghost use Rattle.std.specs.Sync.Mutex.{mutex_guard_value};
ghost use Rattle.board_names.specs.Configuration.{full_name};
ghost use Rattle.board_names.specs.Table.{IsFree};
ghost use Rattle.board_event_model.specs.EventMemory.{is_bits};
ghost use Rattle.board_event_core.specs.EventTable.{IsEventTable, names_of, without_name};
ghost use Rattle.board_event.specs.Ends.{is_held};

use crate::event::Event;
use crate::events_of::{EventsOf, KindOfEvents, QueueOfIds, SetOfIds};
use crate::listener::EventListener;
use crate::listener_builder::EventListenerBuilder;
use crate::notifier::EventNotifier;
use crate::notifier_builder::EventNotifierBuilder;
use crate::registry::EventRegistry;
use board_event_core::EventKind;
use board_names::{
    Configuration, FileName, NamedConceptConfiguration, NamedConceptMgmt, NamedConceptRemoveError,
};
use std::marker::PhantomData;
use std::sync::{MutexGuard, Wait};

/// Events of one kind in this process.
#[derive(Clone, Copy, Debug, PartialEq, Eq)]
pub struct LocalEvent<K> {
    kind: PhantomData<K>,
}

/// Events whose ids wait as a set, up to a greatest one.
pub type BitEvent = LocalEvent<SetOfIds>;

/// Events whose ids wait in a queue of 512. Any id may be handed over.
pub type QueueEvent = LocalEvent<QueueOfIds>;

impl<K: KindOfEvents + Drop> NamedConceptMgmt for LocalEvent<K> {
    type Names = EventsOf<K>;

    type Registry = EventRegistry<K>;

    fn lock<'a, R: Wait>(rt: &R, registry: &'a EventRegistry<K>) -> MutexGuard<'a, EventsOf<K>>
        ensures table { IsEventTable (mutex_guard_value result) }
    {
        registry.lock(rt)
    }

    fn remove_cfg_in(
        state: &mut EventsOf<K>,
        name: &FileName,
        cfg: &Configuration,
    ) -> Result<bool, NamedConceptRemoveError>
        ensures answer { result ≡ Ok (is_held K.which state.old (full_name cfg.now name.now)) }
        ensures after { state.new ≡ without_name K.which state.old (full_name cfg.now name.now) }
        ensures gone { IsFree (names_of K.which state.new) (full_name cfg.now name.now) }
    {
        Ok(state.remove_name(&cfg.path_for(name)))
    }
}

impl<K: KindOfEvents + Drop> Event for LocalEvent<K> {
    type Notifier = EventNotifier<K>;

    type NotifierBuilder = EventNotifierBuilder<K>;

    type Listener = EventListener<K>;

    type ListenerBuilder = EventListenerBuilder<K>;

    ghost is_limited = { is_bits K.which };

    fn default_suffix() -> FileName {
        FileName::from_valid(b".event")
    }

    fn has_trigger_id_limit() -> bool {
        matches!(K::kind(), EventKind::Bits)
    }
}
