//! Why a call of monitoring is refused.
use thiserror::Error;

/// Why a token was not made.
#[derive(Clone, Copy, Debug, PartialEq, Eq, Error)]
#[error("MonitoringCreateTokenError::{:?}", self)]
pub enum MonitoringCreateTokenError {
    /// Kept from iceoryx2; no call here gives it.
    InsufficientPermissions,
    /// The name is held.
    AlreadyExists,
    /// Kept from iceoryx2; no call here gives it.
    SystemCorrupted,
    /// Kept from iceoryx2; no call here gives it.
    InternalError,
    /// Memory was refused.
    OutOfMemory,
}

/// Why a cleaner was not made.
#[derive(Clone, Copy, Debug, PartialEq, Eq, Error)]
#[error("MonitoringCreateCleanerError::{:?}", self)]
pub enum MonitoringCreateCleanerError {
    /// Kept from iceoryx2; no call here gives it.
    Interrupt,
    /// The name's token lives.
    InstanceStillAlive,
    /// The name has a cleaner.
    AlreadyOwnedByAnotherInstance,
    /// Kept from iceoryx2; no call here gives it.
    IsBeingCleanedUpOrAnotherCleanerCrashedDuringCleanup,
    /// The name isn't held.
    DoesNotExist,
    /// Kept from iceoryx2; no call here gives it.
    InternalError,
}

/// Why a monitor was not made. No call gives it.
#[derive(Clone, Copy, Debug, PartialEq, Eq, Error)]
#[error("MonitoringCreateMonitorError::{:?}", self)]
pub enum MonitoringCreateMonitorError {
    /// Kept from iceoryx2; no call here gives it.
    InsufficientPermissions,
    /// Kept from iceoryx2; no call here gives it.
    Interrupt,
    /// Kept from iceoryx2; no call here gives it.
    ConceptNameNotSupportedOnPlatform,
    /// Kept from iceoryx2; no call here gives it.
    InternalError,
}

/// Why a state is not known. No call gives it.
#[derive(Clone, Copy, Debug, PartialEq, Eq, Error)]
#[error("MonitoringStateError::{:?}", self)]
pub enum MonitoringStateError {
    /// Kept from iceoryx2; no call here gives it.
    Interrupt,
    /// Kept from iceoryx2; no call here gives it.
    InsufficientPermissions,
    /// Kept from iceoryx2; no call here gives it.
    InternalError,
}
