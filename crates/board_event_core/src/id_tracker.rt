//! What keeps ids until a listener takes them.
ghost use Rattle.std.specs.Prelude.{◌≡◌, ◌<◌, ◌↔◌, IsErrOf, OnOk, OnErr, IsOkUnless};
ghost use Rattle.std.specs.FinSet as set;
ghost use Rattle.board_names.specs.declared.errors.event.NotifierNotifyError.TheVariants.{TriggerIdOutOfBounds};
ghost use Rattle.board_event_core.specs.IdSets.{IdSet, IsAcquired, IsCalledOnEach, with_id};

use board_names::{NotifierNotifyError, TriggerId};

/// Keeps ids up to a greatest one until they are taken. Clauses see them as a set.
pub trait IdTracker {
    ghost set_of: { Self → IdSet };

    /// The greatest id.
    fn trigger_id_max(&self) -> TriggerId
        ensures { result ≡ (set_of self.now).max };

    /// Adds an id.
    ///
    /// # Errors
    /// `TriggerIdOutOfBounds` where it is above the greatest.
    fn add(&mut self, id: TriggerId) -> Result<(), NotifierNotifyError>
        ensures out { IsErrOf result TriggerIdOutOfBounds ↔ ((set_of self.old).max < id) }
        ensures only { IsOkUnless result TriggerIdOutOfBounds }
        ensures ok { OnOk result (set_of self.new ≡ with_id (set_of self.old) id) }
        ensures err { OnErr result (set_of self.new ≡ set_of self.old) };

    /// Takes the least id.
    fn acquire(&mut self) -> Option<TriggerId>
        ensures { IsAcquired (set_of self.old) (set_of self.new) result };

    /// Takes all ids, and hands them to the callback, the least first.
    fn acquire_all<F: FnMut(TriggerId)>(&mut self, callback: F)
        requires { F.IsAlwaysCallable callback }
        ensures calls { IsCalledOnEach (λ p x q. F.step p x tt q) callback (set_of self.old).ids }
        ensures left { set_of self.new ≡ record (set_of self.old) { ids = set.empty } };
}
