//! How a listener and its event are made.
ghost use Rattle.std.specs.Prelude.{◌≡◌, ◌<◌, ◌-◌, ◌^◌, ℕ, List, codes, IfOk, OnOk, OnErr};
ghost use Rattle.board_layout.specs.Answer.{Answers, Refuses};
ghost use Rattle.board_names.specs.Concept.{starting};
ghost use Rattle.board_names.specs.declared.errors.event.ListenerCreateError.TheVariants.{OutOfMemory};
ghost use Rattle.board_event.specs.Ends.{IsMade, create_answer, created, end_of, listener_asked};
ghost use Rattle.board_event.specs.TypedCalls.{MayCreate};

use crate::event::ListenerBuilder;
use crate::events_of::{EventsOf, KindOfEvents};
use crate::listener::EventListener;
use crate::registry::{EventRegistry, share_signal};
use board_event_core::{ListenerCreateError, TriggerId};
use board_names::{Configuration, FileName, NameRequest, NamedConceptBuilder, RegistryError};
use std::alloc::Global;
use std::marker::Model;
use std::sync::{Arc, Condvar, Wait};

/// The greatest id of a set, unless its builder is told otherwise.
pub const DEFAULT_TRIGGER_ID_MAX: usize = 65535;

/// A builder of a listener and its event. Clauses see the name, the configuration and the greatest id.
#[derive(Drop)]
pub struct EventListenerBuilder<K> {
    request: NameRequest<EventsOf<K>>,
    arrived: Arc<Condvar, Global>,
    max: u64,
}

impl<K> Model for EventListenerBuilder<K> {
    ghost use Rattle.board_event.specs.Ends.{ListenerAsked};

    ghost Value = { ListenerAsked };

    ghost view = { λ b. record { named = b.request; max = b.max } };
}

impl<K: KindOfEvents + Drop> EventListenerBuilder<K> {
    /// `create` over the events themselves. The listener belongs to them: its typed calls go to the builder's registry.
    ///
    /// # Errors
    /// `AlreadyExists` where the name is held; `NumbersSpent` where all event numbers were drawn; `OutOfMemory`. The
    /// events stay as they were.
    pub fn create_in(
        self,
        state: &mut EventsOf<K>,
        alloc: Global,
    ) -> Result<EventListener<K>, ListenerCreateError>
        ensures answer { Answers result OutOfMemory (create_answer K.which self state.old) }
        ensures refused { Refuses result (create_answer K.which self state.old) }
        ensures ok { OnOk result (state.new ≡ created K.which self state.old) }
        ensures stands { IfOk result (IsMade K.which self state.new) }
        ensures err { OnErr result (state.new ≡ state.old) }
    {
        let _ = alloc;
        let path = self.request.path();
        let event = state.events.listen(K::kind(), &path, self.max)?;
        Ok(EventListener::at(self.request.place(), self.arrived, event, self.max))
    }

    /// Makes the event.
    fn make<R: Wait>(&self, rt: &R) -> Result<u64, ListenerCreateError>
        ensures { MayCreate result }
    {
        let mut state = self.request.lock(rt);
        state
            .events
            .listen(K::kind(), &self.request.path(), self.max)
    }
}

impl<K: KindOfEvents + Drop> NamedConceptBuilder for EventListenerBuilder<K> {
    type Registry = EventRegistry<K>;

    ghost named = { λ b. b.named };

    ghost Told = { ℕ };

    ghost told = { λ b. b.max };

    ghost untold = { 65535 };

    fn new(
        name: &FileName,
        registry: &EventRegistry<K>,
    ) -> Result<EventListenerBuilder<K>, RegistryError>
        ensures { IfOk result (λ b. b ≡ listener_asked name.now) }
    {
        let suffix = FileName::from_valid(b".event");
        let request = NameRequest::new(name, &suffix, &registry.names)?;
        let arrived = share_signal(&registry.arrived)?;
        Ok(EventListenerBuilder {
            request,
            arrived,
            max: DEFAULT_TRIGGER_ID_MAX as u64,
        })
    }

    fn config(mut self, config: &Configuration) -> EventListenerBuilder<K>
        ensures { result ≡ record self { named = record self.named { config = config.now } } }
    {
        self.request = self.request.with(config);
        self
    }
}

impl<K: KindOfEvents + Drop> ListenerBuilder for EventListenerBuilder<K> {
    type Listener = EventListener<K>;

    ghost asked_max = { λ b. b.max };

    ghost max_as_told = { λ x y h. h };

    ghost max_untold = { λ x h. h };

    fn trigger_id_max(mut self, id: TriggerId) -> EventListenerBuilder<K>
        ensures { result ≡ record self { max = id } }
    {
        self.max = id.as_value() as u64;
        self
    }

    fn create<R: Wait>(self, rt: &R, alloc: Global) -> Result<EventListener<K>, ListenerCreateError>
        ensures end { IfOk result (λ end. end ≡ end_of self.named self.max end.event) }
        ensures refused { MayCreate result }
    {
        let _ = alloc;
        let event = self.make(rt)?;
        Ok(EventListener::at(self.request.place(), self.arrived, event, self.max))
    }
}
