//! Why a call of an event is refused.
use thiserror::Error;

/// Why a notifier was not made.
#[derive(Clone, Copy, Debug, PartialEq, Eq, Hash, Error)]
#[error("NotifierCreateError::{:?}", self)]
pub enum NotifierCreateError {
    /// Kept from iceoryx2; no call here gives it.
    Interrupt,
    /// The name isn't held, or its listener was released.
    DoesNotExist,
    /// Kept from iceoryx2; no call here gives it.
    InsufficientPermissions,
    /// Kept from iceoryx2; no call here gives it.
    VersionMismatch,
    /// Kept from iceoryx2; no call here gives it.
    InitializationNotYetFinalized,
    /// Kept from iceoryx2; no call here gives it.
    InternalFailure,
    /// The event has as many notifiers as can be counted.
    NumbersSpent,
}

/// Why a wait ended without an answer. No call gives it.
#[derive(Clone, Copy, Debug, PartialEq, Eq, Error)]
#[error("ListenerWaitError::{:?}", self)]
pub enum ListenerWaitError {
    /// Kept from iceoryx2; no call here gives it.
    ContractViolation,
    /// Kept from iceoryx2; no call here gives it.
    InternalFailure,
    /// Kept from iceoryx2; no call here gives it.
    InterruptSignal,
}

/// Why a listener was not made.
#[derive(Clone, Copy, Debug, PartialEq, Eq, Hash, Error)]
#[error("ListenerCreateError::{:?}", self)]
pub enum ListenerCreateError {
    /// The name is held.
    AlreadyExists,
    /// Kept from iceoryx2; no call here gives it.
    InsufficientPermissions,
    /// Kept from iceoryx2; no call here gives it.
    InternalFailure,
    /// All event numbers were drawn.
    NumbersSpent,
    /// Memory was refused.
    OutOfMemory,
}

/// Why a listener was not notified.
#[derive(Clone, Copy, Debug, PartialEq, Eq, Error)]
#[error("NotifierNotifyError::{:?}", self)]
pub enum NotifierNotifyError {
    /// Kept from iceoryx2; no call here gives it.
    Interrupt,
    /// As many ids wait as the queue holds.
    FailedToDeliverSignal,
    /// The id is above the listener's greatest.
    TriggerIdOutOfBounds,
    /// The listener is gone.
    Disconnected,
    /// Kept from iceoryx2; no call here gives it.
    InternalFailure,
}
