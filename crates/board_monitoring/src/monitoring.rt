//! What monitoring does: who takes a name holds its token, others see whether the token lives, and one of them may clean up.
ghost use Rattle.std.specs.Prelude.{◌≡◌, ℕ, List, codes, IfOk, IsOk};
ghost use Rattle.board_monitoring.specs.TypedCalls.{MayClaim, MayTake};

use board_names::{
    FileName, MonitoringCreateCleanerError, MonitoringCreateMonitorError,
    MonitoringCreateTokenError, MonitoringStateError, NamedConcept, NamedConceptBuilder,
    NamedConceptMgmt,
};
use std::alloc::Global;
use std::sync::Wait;

/// The monitoring of this process.
pub type Local = crate::process_local_monitoring::ProcessLocalMonitoring;

/// What a monitor sees of a name.
#[derive(Clone, Copy, Debug, PartialEq, Eq)]
pub enum State {
    /// Its token is held.
    Alive,
    /// Its token was abandoned. A cleaner may own the name.
    Dead,
    /// It isn't held.
    DoesNotExist,
}

/// The monitoring of names.
pub trait Monitoring: NamedConceptMgmt + Sized {
    /// The holder of a name.
    type Token: MonitoringToken;

    /// One who watches a name.
    type Monitor: MonitoringMonitor;

    /// One who cleans up after a dead name.
    type Cleaner: MonitoringCleaner;

    /// What makes them.
    type Builder: MonitoringBuilder<
        Token = Self::Token,
        Monitor = Self::Monitor,
        Cleaner = Self::Cleaner,
        Registry = Self::Registry,
    >;

    /// The suffix that a builder starts with.
    fn default_suffix() -> FileName
        ensures { result ≡ codes ".monitor" };
}

/// A builder of a token, a monitor or a cleaner of a name.
pub trait MonitoringBuilder: NamedConceptBuilder {
    /// The holder of the name.
    type Token: MonitoringToken;

    /// One who watches the name.
    type Monitor: MonitoringMonitor;

    /// One who cleans up after the name.
    type Cleaner: MonitoringCleaner;

    /// Takes the name.
    ///
    /// # Errors
    /// `AlreadyExists` where it is held; `OutOfMemory`.
    fn token<R: Wait>(
        self,
        rt: &R,
        alloc: Global,
    ) -> Result<Self::Token, MonitoringCreateTokenError>
        ensures name { IfOk result (λ t. Self.Token.name_of t ≡ (Self.named self).name) }
        ensures refused { MayTake result };

    /// Watches the name, whether or not it is held.
    ///
    /// # Errors
    /// None: it is never refused.
    fn monitor(self) -> Result<Self::Monitor, MonitoringCreateMonitorError>
        ensures accepted { IsOk result }
        ensures name { IfOk result (λ m. Self.Monitor.name_of m ≡ (Self.named self).name) };

    /// Takes a dead name, to clean up after it.
    ///
    /// # Errors
    /// `InstanceStillAlive` where its token is held; `AlreadyOwnedByAnotherInstance` where it has a cleaner;
    /// `DoesNotExist` where it isn't held.
    fn cleaner<R: Wait>(self, rt: &R) -> Result<Self::Cleaner, MonitoringCreateCleanerError>
        ensures name { IfOk result (λ c. Self.Cleaner.name_of c ≡ (Self.named self).name) }
        ensures refused { MayClaim result };
}

/// The holder of a name.
pub trait MonitoringToken: NamedConcept + Sized {
    /// Leaves the name dead, where it is still held.
    fn abandon<R: Wait>(self, rt: &R);

    /// Lets the name go in its builder's registry, also where a lent form took it in another table: there it is let go by
    /// `release_in`.
    fn release<R: Wait>(self, rt: &R);
}

/// One who watches a name.
pub trait MonitoringMonitor: NamedConcept {
    /// What is seen of the name.
    ///
    /// # Errors
    /// None: it is never refused.
    fn state<R: Wait>(&self, rt: &R) -> Result<State, MonitoringStateError>
        ensures { IsOk result };
}

/// One who cleans up after a dead name.
pub trait MonitoringCleaner: NamedConcept + Sized {
    /// Leaves the name dead, where it is still held, for another cleaner.
    fn relinquish<R: Wait>(self, rt: &R);

    /// Lets the name go in its builder's registry, also where a lent form took it in another table: there it is let go by
    /// `release_in`.
    fn release<R: Wait>(self, rt: &R);
}
