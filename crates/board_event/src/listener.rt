//! The end of an event that takes ids.
ghost use Rattle.std.specs.Prelude.{◌≡◌, ◌≢◌, ℕ, List, None, Ok, IfOk, IfSome, IsOk};
ghost use Rattle.board_event.specs.Ends.{DropsListenersEvent, FreesListenersName, HasListener, IsGone, listener_gone};
ghost use Rattle.board_event.specs.Accesses.{IsHoldBehind};
ghost use Rattle.board_event.specs.TypedCalls.{CallsOnHanded, GivesId};
ghost use Rattle.board_event.specs.LentForms.{CallsOnAll, CallsOnReached, Changes, GivesNext, GivesNone, HandsOver, HandsOverReached, KeepsRestAt, Leaves, OnEvent, OnKind, after_one, all_taken, reached_taken, within};

use crate::accesses::{hand_over, wait_access};
use crate::event::Listener;
use crate::events_of::{EventsOf, KindOfEvents};
use crate::patience::{Forever, Patience, Until};
use crate::taking::{take_all, take_one, wait_call};
use board_event_core::{
    EventProgress, ListenerWaitError, TriggerId, WaitCall, WaitMode, WaitStage, pass_empty_words,
    table_stands,
};
use board_names::{FileName, NamePlace, NamedConcept};
use std::alloc::Global;
use std::cell::Cell;
use std::marker::{Model, PhantomData};
use std::sync::{Arc, Condvar, Wait};
use std::time::{Clock, Duration};

/// The end of an event that takes ids. It may go to another thread, and isn't shared between threads.
///
/// Clauses see the name, the event's number and its greatest id. They say what a callback was called on where it is lent
/// (`take_all`, `take_all_in`): one that a call is given is gone when the call returns. A call asks the table whether the event stands and can
/// take the access: where it doesn't, a wait takes nothing and gives none, and a release changes nothing.
#[derive(Drop)]
pub struct EventListener<K> {
    place: NamePlace<EventsOf<K>>,
    arrived: Arc<Condvar, Global>,
    event: u64,
    max: u64,
    alone: PhantomData<Cell<()>>,
}

impl<K> Model for EventListener<K> {
    ghost use Rattle.board_event.specs.Ends.{End};

    ghost Value = { End };

    ghost view = { λ l. record { place = l.place; event = l.event; max = l.max } };
}

impl<K: KindOfEvents + Drop> EventListener<K> {
    pub(crate) fn at(
        place: NamePlace<EventsOf<K>>,
        arrived: Arc<Condvar, Global>,
        event: u64,
        max: u64,
    ) -> EventListener<K>
        ensures { result ≡ record { place = place; event = event; max = max } }
    {
        EventListener {
            place,
            arrived,
            event,
            max,
            alone: PhantomData,
        }
    }

    /// `try_wait_one` over the events themselves.
    ///
    /// # Errors
    /// None: it is never refused.
    pub fn try_wait_one_in(
        &self,
        state: &mut EventsOf<K>,
    ) -> Result<Option<TriggerId>, ListenerWaitError>
        ensures ok { IsOk result }
        ensures id { OnKind K.which self.now state.old (GivesNext K.which result) }
        ensures none { OnEvent K.which self.now state.old (GivesNone result) }
        ensures reached { OnKind K.which self.now state.old (λ e. GivesNone result (within self.now.max e)) }
        ensures after { Leaves K.which self.now state.old state.new (after_one K.which result) }
        ensures rest { KeepsRestAt self.now.event state.old state.new }
        ensures gone { IsGone K.which self.now state.old → result ≡ Ok None }
        ensures stays { IsGone K.which self.now state.old → state.new ≡ state.old }
    {
        let Some(id) = take_one(&mut state.events, self.event, K::kind(), self.max) else {
            return Ok(None);
        };
        Ok(Some(TriggerId::new(id as usize)))
    }

    /// `try_wait_all` over the events themselves.
    ///
    /// # Errors
    /// None: it is never refused.
    pub fn try_wait_all_in<F: FnMut(TriggerId)>(
        &self,
        state: &mut EventsOf<K>,
        mut callback: F,
    ) -> Result<(), ListenerWaitError>
        requires { F.IsAlwaysCallable callback }
        ensures ok { result ≡ Ok tt }
        ensures calls { HandsOver F.step callback K.which self.now state.old }
        ensures after { Changes K.which self.now state.old state.new (all_taken K.which) }
        ensures reached { HandsOverReached F.step callback K.which self.now state.old }
        ensures left { Leaves K.which self.now state.old state.new (reached_taken K.which self.now.max) }
        ensures rest { KeepsRestAt self.now.event state.old state.new }
        ensures stays { IsGone K.which self.now state.old → state.new ≡ state.old }
    {
        self.take_all_in(state, &mut callback);
        Ok(())
    }

    /// `try_wait_all` with a callback that is lent, so that clauses can say what it was called on.
    pub fn take_all<R: Wait, F: FnMut(TriggerId)>(&self, rt: &R, callback: &mut F)
        requires { F.IsAlwaysCallable callback.old }
        ensures callable { F.IsAlwaysCallable callback.new }
        ensures calls { CallsOnHanded F.step callback.old callback.new K.which self.now }
    {
        self.all(rt, WaitMode::Try, &Forever, callback);
    }

    /// `take_all` over the events themselves.
    pub fn take_all_in<F: FnMut(TriggerId)>(&self, state: &mut EventsOf<K>, callback: &mut F)
        requires { F.IsAlwaysCallable callback.old }
        ensures callable { F.IsAlwaysCallable callback.new }
        ensures calls { OnEvent K.which self.now state.old (CallsOnAll F.step callback.old callback.new K.which) }
        ensures after { Changes K.which self.now state.old state.new (all_taken K.which) }
        ensures reached { CallsOnReached F.step callback.old callback.new K.which self.now state.old }
        ensures left { Leaves K.which self.now state.old state.new (reached_taken K.which self.now.max) }
        ensures rest { KeepsRestAt self.now.event state.old state.new }
        ensures stays { IsGone K.which self.now state.old → state.new ≡ state.old }
        ensures uncalled { IsGone K.which self.now state.old → callback.new ≡ callback.old }
    {
        take_all(&mut state.events, self.event, K::kind(), self.max, callback);
    }

    /// `release` over the events themselves, which are those that the listener was made in, also where other calls on it were
    /// typed ones. Events that have no such listener are left as they are.
    pub fn release_in(self, state: &mut EventsOf<K>)
        ensures gone { HasListener self state.old → state.new ≡ listener_gone state.old self }
        ensures stays { (¬ HasListener self state.old) → state.new ≡ state.old }
        ensures free { FreesListenersName self state.old state.new }
        ensures dropped { DropsListenersEvent self state.old state.new }
    {
        self.give_up(state);
    }

    /// Lets go of the listener of the event.
    fn give_up(&self, state: &mut EventsOf<K>)
        ensures gone { HasListener self.now state.old → state.new ≡ listener_gone state.old self.now }
        ensures stays { (¬ HasListener self.now state.old) → state.new ≡ state.old }
        ensures free { FreesListenersName self.now state.old state.new }
        ensures dropped { DropsListenersEvent self.now state.old state.new }
    {
        if state.events.has_listener(self.event) {
            state.events.release_listener(self.event);
        }
    }

    /// One access of a wait, under one hold of the lock. Looks at words without ids are left out under the same hold. A
    /// look that found nothing sleeps before it lets go of the lock, so no notify comes between the look and the sleep.
    fn access<R: Wait, P: Patience<R>>(
        &self,
        rt: &R,
        call: &mut WaitCall,
        patience: &P,
    ) -> Option<EventProgress>
        requires { call.old.stage ≢ WaitStage.Finished }
        ensures { IfSome result (IsHoldBehind self.now.event call.old call.new) }
    {
        let mut state = self.place.lock(rt);
        table_stands(&state.events);
        pass_empty_words(&state.events, self.event, call);
        let progress = wait_access(&mut state.events, self.event, call)?;
        if progress == EventProgress::Waiting && !patience.sleep(rt, &self.arrived, state) {
            return None;
        }
        Some(progress)
    }

    /// Drives a wait for one id.
    fn one<R: Wait, P: Patience<R>>(
        &self,
        rt: &R,
        mode: WaitMode,
        patience: &P,
    ) -> Option<TriggerId>
        ensures { GivesId K.which self.now result }
    {
        let mut call = wait_call(K::kind(), self.max, false, mode);
        for _ in rt.forever() {
            if call.is_done() {
                break;
            }
            let progress = self.access(rt, &mut call, patience)?;
            if let EventProgress::Id { id, last: _ } = progress {
                return Some(TriggerId::new(id as usize));
            }
        }
        None
    }

    /// Drives a wait for all ids. No lock is held while the callback runs.
    fn all<R: Wait, P: Patience<R>, F: FnMut(TriggerId)>(
        &self,
        rt: &R,
        mode: WaitMode,
        patience: &P,
        callback: &mut F,
    )
        requires { F.IsAlwaysCallable callback.old }
        ensures callable { F.IsAlwaysCallable callback.new }
        ensures calls { CallsOnHanded F.step callback.old callback.new K.which self.now }
    {
        let mut call = wait_call(K::kind(), self.max, true, mode);
        for _ in rt.forever() {
            if call.is_done() {
                break;
            }
            let Some(progress) = self.access(rt, &mut call, patience) else {
                break;
            };
            hand_over(callback, progress);
        }
    }
}

impl<K: KindOfEvents + Drop> NamedConcept for EventListener<K> {
    ghost name_of = { λ l. l.place.name };

    fn name(&self) -> &FileName {
        self.place.name()
    }
}

impl<K: KindOfEvents + Drop> Listener for EventListener<K> {
    fn try_wait_one<R: Wait>(&self, rt: &R) -> Result<Option<TriggerId>, ListenerWaitError>
        ensures ok { IsOk result }
        ensures id { IfOk result (GivesId K.which self.now) }
    {
        Ok(self.one(rt, WaitMode::Try, &Forever))
    }

    fn timed_wait_one<R: Wait + Clock>(
        &self,
        rt: &R,
        timeout: Duration,
    ) -> Result<Option<TriggerId>, ListenerWaitError>
        ensures ok { IsOk result }
        ensures id { IfOk result (GivesId K.which self.now) }
    {
        Ok(self.one(rt, WaitMode::Timed, &Until::after(rt, timeout)))
    }

    fn blocking_wait_one<R: Wait>(&self, rt: &R) -> Result<Option<TriggerId>, ListenerWaitError>
        ensures ok { IsOk result }
        ensures id { IfOk result (GivesId K.which self.now) }
    {
        Ok(self.one(rt, WaitMode::Block, &Forever))
    }

    fn try_wait_all<R: Wait, F: FnMut(TriggerId)>(
        &self,
        rt: &R,
        mut callback: F,
    ) -> Result<(), ListenerWaitError> {
        self.take_all(rt, &mut callback);
        Ok(())
    }

    fn timed_wait_all<R: Wait + Clock, F: FnMut(TriggerId)>(
        &self,
        rt: &R,
        mut callback: F,
        timeout: Duration,
    ) -> Result<(), ListenerWaitError> {
        self.all(
            rt,
            WaitMode::Timed,
            &Until::after(rt, timeout),
            &mut callback,
        );
        Ok(())
    }

    fn blocking_wait_all<R: Wait, F: FnMut(TriggerId)>(
        &self,
        rt: &R,
        mut callback: F,
    ) -> Result<(), ListenerWaitError> {
        self.all(rt, WaitMode::Block, &Forever, &mut callback);
        Ok(())
    }

    fn release<R: Wait>(self, rt: &R) {
        let mut state = self.place.lock(rt);
        self.give_up(&mut state);
    }
}
