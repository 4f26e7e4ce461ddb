//! What an event does: a notifier hands ids to a listener, which takes them one by one or all at once.
ghost use Rattle.std.specs.Prelude.{◌≡◌, ℕ, Bool, List, ◌<◌, ◌-◌, ◌^◌, codes, IfOk, IsOk};
ghost use Rattle.board_event.specs.TypedCalls.{IsNotifyAnswer, MayCreate, MayOpen};

use board_names::{
    FileName, ListenerCreateError, ListenerWaitError, NamedConcept, NamedConceptBuilder,
    NamedConceptMgmt, NotifierCreateError, NotifierNotifyError, TriggerId,
};
use std::alloc::Global;
use std::sync::Wait;
use std::time::{Clock, Duration};

/// The events of this process.
pub type Local = crate::local_event::QueueEvent;

/// Events of one kind.
pub trait Event: NamedConceptMgmt + Sized {
    /// What hands ids over.
    type Notifier: Notifier;

    /// What opens a notifier.
    type NotifierBuilder: NotifierBuilder<Notifier = Self::Notifier, Registry = Self::Registry>;

    /// What takes ids.
    type Listener: Listener;

    /// What makes a listener, and with it the event.
    type ListenerBuilder: ListenerBuilder<Listener = Self::Listener, Registry = Self::Registry>;

    /// The suffix that a builder starts with.
    fn default_suffix() -> FileName
        ensures { result ≡ codes ".event" };

    ghost is_limited: { Bool };

    /// Whether ids above a greatest one are refused.
    fn has_trigger_id_limit() -> bool
        ensures { result ≡ is_limited };
}

/// The end that hands ids over.
pub trait Notifier: NamedConcept + Sized {
    ghost greatest: { Self → ℕ };

    /// The greatest id that it hands over.
    fn trigger_id_max(&self) -> TriggerId
        ensures { result ≡ greatest self.now };

    /// Hands an id to the listener, and wakes all that wait.
    ///
    /// # Errors
    /// `Disconnected` where the listener is gone; `TriggerIdOutOfBounds` where the id is above the greatest;
    /// `FailedToDeliverSignal` where as many ids wait as a queue holds.
    fn notify<R: Wait>(&self, rt: &R, id: TriggerId) -> Result<(), NotifierNotifyError>
        ensures answer { IsNotifyAnswer (greatest self.now) id result };

    /// Gives this end up, in the registry that its builder was handed. The event goes with its last end. An end that a lent
    /// form made over other events is given up by `release_in` over those.
    fn release<R: Wait>(self, rt: &R);
}

/// A builder of a notifier.
pub trait NotifierBuilder: NamedConceptBuilder {
    /// What it opens.
    type Notifier: Notifier;

    /// Ignored: a notifier is opened at once or not at all.
    fn timeout(self, timeout: Duration) -> Self
        ensures named { Self.named result ≡ Self.named self }
        ensures told { Self.told result ≡ Self.told self };

    /// A notifier of the event under the name.
    ///
    /// # Errors
    /// `DoesNotExist` where the name isn't held, or its listener is gone; `NumbersSpent` where the event has 2^64 - 2
    /// notifiers.
    fn open<R: Wait>(self, rt: &R) -> Result<Self::Notifier, NotifierCreateError>
        ensures name { IfOk result (λ end. Self.Notifier.name_of end ≡ (Self.named self).name) }
        ensures refused { MayOpen result };
}

/// The end that takes ids. It may go to another thread, and isn't shared between threads.
pub trait Listener: NamedConcept + Sized {
    /// Takes the next id, where one waits.
    ///
    /// # Errors
    /// None: it is never refused.
    fn try_wait_one<R: Wait>(&self, rt: &R) -> Result<Option<TriggerId>, ListenerWaitError>
        ensures { IsOk result };

    /// Takes the next id, and waits up to `timeout` for one. After that it takes none, and where the clock can't be read it
    /// doesn't wait.
    ///
    /// # Errors
    /// None: it is never refused.
    fn timed_wait_one<R: Wait + Clock>(
        &self,
        rt: &R,
        timeout: Duration,
    ) -> Result<Option<TriggerId>, ListenerWaitError>
        ensures { IsOk result };

    /// Takes the next id, and waits for one as long as the event stands.
    ///
    /// # Errors
    /// None: it is never refused.
    fn blocking_wait_one<R: Wait>(&self, rt: &R) -> Result<Option<TriggerId>, ListenerWaitError>
        ensures { IsOk result };

    /// Takes all ids that wait, and hands each to the callback.
    ///
    /// # Errors
    /// None: it is never refused.
    fn try_wait_all<R: Wait, F: FnMut(TriggerId)>(
        &self,
        rt: &R,
        callback: F,
    ) -> Result<(), ListenerWaitError>
        requires { F.IsAlwaysCallable callback }
        ensures { IsOk result };

    /// Takes all ids, once there are some, and hands each to the callback. It waits up to `timeout` for the first, and not at
    /// all where the clock can't be read.
    ///
    /// # Errors
    /// None: it is never refused.
    fn timed_wait_all<R: Wait + Clock, F: FnMut(TriggerId)>(
        &self,
        rt: &R,
        callback: F,
        timeout: Duration,
    ) -> Result<(), ListenerWaitError>
        requires { F.IsAlwaysCallable callback }
        ensures { IsOk result };

    /// Takes all ids, once there are some, and hands each to the callback. It waits for the first as long as the event
    /// stands.
    ///
    /// # Errors
    /// None: it is never refused.
    fn blocking_wait_all<R: Wait, F: FnMut(TriggerId)>(
        &self,
        rt: &R,
        callback: F,
    ) -> Result<(), ListenerWaitError>
        requires { F.IsAlwaysCallable callback }
        ensures { IsOk result };

    /// Gives this end up, in the registry that its builder was handed: notifiers find it gone from then on. A queue's name is
    /// free at once, a set's with the last notifier. An end that a lent form made over other events is given up by
    /// `release_in` over those.
    fn release<R: Wait>(self, rt: &R);
}

/// A builder of a listener and its event.
pub trait ListenerBuilder: NamedConceptBuilder {
    /// What it makes.
    type Listener: Listener;

    ghost asked_max: { Self → ℕ };

    /// The greatest id that a notifier may hand over, below `usize::MAX`. A queue takes any id.
    fn trigger_id_max(self, id: TriggerId) -> Self
        requires { id < 2 ^ 64 - 1 }
        ensures max { asked_max result ≡ id }
        ensures named { Self.named result ≡ Self.named self };

    /// The event, and its listener.
    ///
    /// # Errors
    /// `AlreadyExists` where the name is held; `NumbersSpent` where all event numbers were drawn; `OutOfMemory`.
    fn create<R: Wait>(self, rt: &R, alloc: Global) -> Result<Self::Listener, ListenerCreateError>
        ensures name { IfOk result (λ end. Self.Listener.name_of end ≡ (Self.named self).name) }
        ensures refused { MayCreate result };

    /// The greatest id is part of what a builder was told.
    ghost max_as_told: { (x y : Self) → Self.told x ≡ Self.told y → asked_max x ≡ asked_max y };

    /// A builder that was told nothing asks for this one.
    ghost max_untold: { (x : Self) → Self.told x ≡ Self.untold → asked_max x ≡ 65535 };
}
