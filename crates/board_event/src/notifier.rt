//! The end of an event that hands ids over.
ghost use Rattle.std.specs.Prelude.{◌≡◌, ◌≢◌, ℕ, List, Err};
ghost use Rattle.board_names.specs.declared.errors.event.NotifierNotifyError.TheVariants.{Disconnected};
ghost use Rattle.board_event.specs.Ends.{DropsNotifiersEvent, FreesNotifiersName, HasNotifier, IsGone, notifier_gone};
ghost use Rattle.board_event.specs.Accesses.{IsNotifyHold};
ghost use Rattle.board_event.specs.TypedCalls.{IsNotifyAnswer, MayNotify};
ghost use Rattle.board_event.specs.LentForms.{AnswersNotify, Notifies};

use crate::accesses::notify_access;
use crate::event::Notifier;
use crate::events_of::{EventsOf, KindOfEvents};
use crate::taking::{notify_call, notify_once};
use board_event_core::{EventProgress, NotifierNotifyError, NotifyCall, NotifyStage, TriggerId};
use board_names::{FileName, NamePlace, NamedConcept};
use std::alloc::Global;
use std::marker::Model;
use std::sync::{Arc, Condvar, Wait};

/// The end of an event that hands ids over.
///
/// Clauses see the name, the event's number and the greatest id. A call asks the table whether the event stands and can
/// take the access: where it can't take a post, that is left out, and where it can't take another, the listener is gone.
#[derive(Drop)]
pub struct EventNotifier<K> {
    place: NamePlace<EventsOf<K>>,
    arrived: Arc<Condvar, Global>,
    event: u64,
    max: u64,
}

impl<K> Model for EventNotifier<K> {
    ghost use Rattle.board_event.specs.Ends.{End};

    ghost Value = { End };

    ghost view = { λ n. record { place = n.place; event = n.event; max = n.max } };
}

impl<K: KindOfEvents + Drop> EventNotifier<K> {
    pub(crate) fn at(
        place: NamePlace<EventsOf<K>>,
        arrived: Arc<Condvar, Global>,
        event: u64,
        max: u64,
    ) -> EventNotifier<K>
        ensures { result ≡ record { place = place; event = event; max = max } }
    {
        EventNotifier {
            place,
            arrived,
            event,
            max,
        }
    }

    /// `notify` over the events themselves.
    ///
    /// # Errors
    /// `Disconnected` where the listener is gone; `TriggerIdOutOfBounds` where the id is above the greatest of a set;
    /// `FailedToDeliverSignal` where 512 ids wait in a queue. The event stays as it was.
    ///
    /// It wakes all that wait, in case the events are those behind the registry's lock.
    pub fn notify_in(
        &self,
        state: &mut EventsOf<K>,
        id: TriggerId,
    ) -> Result<(), NotifierNotifyError>
        ensures answer { AnswersNotify K.which self.now state.old id result }
        ensures after { Notifies K.which self.now state.old state.new id }
        ensures gone { IsGone K.which self.now state.old → result ≡ Err Disconnected }
        ensures stays { IsGone K.which self.now state.old → state.new ≡ state.old }
    {
        let id = id.as_value() as u64;
        let answer = notify_once(&mut state.events, self.event, K::kind(), self.max, id);
        self.arrived.notify_all();
        answer
    }

    /// `release` over the events themselves, which are those that the notifier was made in, also where other calls on it were
    /// typed ones. Events that have no such notifier are left as they are.
    pub fn release_in(self, state: &mut EventsOf<K>)
        ensures gone { HasNotifier self state.old → state.new ≡ notifier_gone state.old self }
        ensures stays { (¬ HasNotifier self state.old) → state.new ≡ state.old }
        ensures free { FreesNotifiersName self state.old state.new }
        ensures dropped { DropsNotifiersEvent self state.old state.new }
    {
        self.give_up(state);
    }

    /// Lets go of a notifier of the event.
    fn give_up(&self, state: &mut EventsOf<K>)
        ensures gone { HasNotifier self.now state.old → state.new ≡ notifier_gone state.old self.now }
        ensures stays { (¬ HasNotifier self.now state.old) → state.new ≡ state.old }
        ensures free { FreesNotifiersName self.now state.old state.new }
        ensures dropped { DropsNotifiersEvent self.now state.old state.new }
    {
        if state.events.has_notifier(self.event) {
            state.events.release_notifier(self.event);
        }
    }

    /// Drives a notify to its end.
    fn drive<R: Wait>(&self, rt: &R, id: u64) -> Result<(), NotifierNotifyError>
        ensures { MayNotify K.which self.now id result }
    {
        let mut call = notify_call(K::kind(), self.max, id);
        for _ in rt.forever() {
            match self.access(rt, &mut call) {
                EventProgress::More => {}
                EventProgress::Refused(why) => return Err(why),
                _ => return Ok(()),
            }
        }
        unreachable!()
    }

    /// One access of a notify, under one hold of the lock.
    fn access<R: Wait>(&self, rt: &R, call: &mut NotifyCall) -> EventProgress
        requires { call.old.stage ≢ NotifyStage.Finished }
        ensures { IsNotifyHold self.now.event call.old call.new result }
    {
        let mut state = self.place.lock(rt);
        notify_access(&mut state.events, self.event, call)
    }
}

impl<K: KindOfEvents + Drop> NamedConcept for EventNotifier<K> {
    ghost name_of = { λ n. n.place.name };

    fn name(&self) -> &FileName {
        self.place.name()
    }
}

impl<K: KindOfEvents + Drop> Notifier for EventNotifier<K> {
    ghost greatest = { λ n. n.max };

    fn trigger_id_max(&self) -> TriggerId {
        TriggerId::new(self.max as usize)
    }

    fn notify<R: Wait>(&self, rt: &R, id: TriggerId) -> Result<(), NotifierNotifyError>
        ensures may { MayNotify K.which self.now id result }
        ensures answer { IsNotifyAnswer self.now.max id result }
    {
        let answer = self.drive(rt, id.as_value() as u64);
        self.arrived.notify_all();
        answer
    }

    fn release<R: Wait>(self, rt: &R) {
        let mut state = self.place.lock(rt);
        self.give_up(&mut state);
    }
}
