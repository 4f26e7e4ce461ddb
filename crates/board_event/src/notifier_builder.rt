//! How a notifier is opened.
ghost use Rattle.std.specs.Prelude.{◌≡◌, ℕ, List, codes, IfOk, IsSome, IsSomeAnd, OnErr};
ghost use Rattle.board_event_model.specs.EventMemory.{with_notifier};
ghost use Rattle.board_names.specs.Concept.{starting};
ghost use Rattle.board_event_core.specs.EventTable.{changed, event_at};
ghost use Rattle.board_event.specs.Ends.{HasNotifier, IsNotifierOf, IsOpened, greatest_of};
ghost use Rattle.board_event.specs.TypedCalls.{IsOpenedAs, MayOpen, TakesAnyOfQueue};

use crate::event::NotifierBuilder;
use crate::events_of::{EventsOf, KindOfEvents};
use crate::notifier::EventNotifier;
use crate::registry::{EventRegistry, share_signal};
use board_event_core::{EventKind, Events, NotifierCreateError};
use board_names::{
    Configuration, FileName, FilePath, NameRequest, NamedConceptBuilder, RegistryError,
};
use std::alloc::Global;
use std::marker::Model;
use std::sync::{Arc, Condvar, Wait};
use std::time::Duration;

/// A builder of a notifier. Clauses see the name and the configuration.
#[derive(Drop)]
pub struct EventNotifierBuilder<K> {
    request: NameRequest<EventsOf<K>>,
    arrived: Arc<Condvar, Global>,
}

impl<K> Model for EventNotifierBuilder<K> {
    ghost use Rattle.board_names.specs.Concept.{Named};

    ghost Value = { Named };

    ghost view = { λ b. b.request };
}

impl<K: KindOfEvents + Drop> EventNotifierBuilder<K> {
    /// `open` over the events themselves. The notifier belongs to them: its typed calls go to the builder's registry.
    ///
    /// # Errors
    /// `DoesNotExist` where the name isn't held, or its listener is gone; `NumbersSpent` where the event has 2^64 - 2
    /// notifiers. The events stay as they were.
    pub fn open_in(self, state: &mut EventsOf<K>) -> Result<EventNotifier<K>, NotifierCreateError>
        ensures answer { IsOpened K.which self state.old result }
        ensures end { IfOk result (IsNotifierOf K.which self state.old) }
        ensures ok { IfOk result (λ end. state.new ≡ changed state.old end.event with_notifier) }
        ensures stands { IfOk result (λ end. HasNotifier end state.new) }
        ensures err { OnErr result (state.new ≡ state.old) }
    {
        let path = self.request.path();
        let event = state.events.notifier(K::kind(), &path)?;
        let max = greatest_id(K::kind(), &state.events, event);
        Ok(EventNotifier::at(self.request.place(), self.arrived, event, max))
    }

    /// Opens a notifier, and answers the event's number and the greatest id.
    fn join<R: Wait>(&self, rt: &R) -> Result<(u64, u64), NotifierCreateError>
        ensures any_id { IfOk result (λ found. TakesAnyOfQueue K.which found.1) }
        ensures refused { MayOpen result }
    {
        let mut state = self.request.lock(rt);
        open_event(&mut state.events, K::kind(), &self.request.path())
    }
}

/// Makes a notifier, and answers the event's number and the greatest id.
fn open_event(
    events: &mut Events,
    kind: EventKind,
    name: &FilePath,
) -> Result<(u64, u64), NotifierCreateError>
    ensures any_id { IfOk result (λ found. TakesAnyOfQueue kind found.1) }
    ensures refused { MayOpen result }
{
    let event = events.notifier(kind, name)?;
    let max = greatest_id(kind, events, event);
    Ok((event, max))
}

/// The greatest id of an event that a notifier hands over: a queue takes any.
fn greatest_id(kind: EventKind, events: &Events, event: u64) -> u64
    requires { IsSome (event_at events.now event) }
    ensures { IsSomeAnd (event_at events.now event) (λ e. result ≡ greatest_of kind e) }
{
    let max = events.max_of(event);
    match kind {
        EventKind::Bits => max,
        EventKind::Queue => u64::MAX,
    }
}

impl<K: KindOfEvents + Drop> NamedConceptBuilder for EventNotifierBuilder<K> {
    type Registry = EventRegistry<K>;

    ghost named = { λ b. b };

    ghost told = { λ _. tt };

    ghost untold = { tt };

    fn new(
        name: &FileName,
        registry: &EventRegistry<K>,
    ) -> Result<EventNotifierBuilder<K>, RegistryError>
        ensures { IfOk result (λ b. b ≡ starting name.now (codes ".event")) }
    {
        let suffix = FileName::from_valid(b".event");
        let request = NameRequest::new(name, &suffix, &registry.names)?;
        let arrived = share_signal(&registry.arrived)?;
        Ok(EventNotifierBuilder { request, arrived })
    }

    fn config(mut self, config: &Configuration) -> EventNotifierBuilder<K> {
        self.request = self.request.with(config);
        self
    }
}

impl<K: KindOfEvents + Drop> NotifierBuilder for EventNotifierBuilder<K> {
    type Notifier = EventNotifier<K>;

    fn timeout(self, timeout: Duration) -> EventNotifierBuilder<K>
        ensures { result ≡ self }
    {
        let _ = timeout;
        self
    }

    fn open<R: Wait>(self, rt: &R) -> Result<EventNotifier<K>, NotifierCreateError>
        ensures end { IfOk result (IsOpenedAs K.which self) }
        ensures refused { MayOpen result }
    {
        let (event, max) = self.join(rt)?;
        Ok(EventNotifier::at(self.request.place(), self.arrived, event, max))
    }
}
