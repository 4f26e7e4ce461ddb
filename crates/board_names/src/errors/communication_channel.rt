//! Why a call of a channel is refused.
use thiserror::Error;

/// Why a value was not sent.
#[derive(Clone, Copy, Debug, PartialEq, Eq, Hash, Error)]
#[error("CommunicationChannelSendError::{:?}", self)]
pub enum CommunicationChannelSendError {
    /// Kept from iceoryx2; no call here gives it.
    ConnectionBroken,
    /// Kept from iceoryx2; no call here gives it.
    MessageTooLarge,
    /// The channel is full and doesn't overflow.
    ReceiverCacheIsFull,
    /// Kept from iceoryx2; no call here gives it.
    InternalFailure,
}

/// Why no value was received. No call gives it.
#[derive(Clone, Copy, Debug, PartialEq, Eq, Hash, Error)]
#[error("CommunicationChannelReceiveError::{:?}", self)]
pub enum CommunicationChannelReceiveError {
    /// Kept from iceoryx2; no call here gives it.
    ConnectionBroken,
    /// Kept from iceoryx2; no call here gives it.
    MessageCorrupt,
    /// Kept from iceoryx2; no call here gives it.
    InternalFailure,
}

/// Why a channel was not made.
#[derive(Clone, Copy, Debug, PartialEq, Eq, Hash, Error)]
#[error("CommunicationChannelCreateError::{:?}", self)]
pub enum CommunicationChannelCreateError {
    /// The name is held.
    AlreadyExists,
    /// Kept from iceoryx2; no call here gives it.
    SafeOverflowNotSupported,
    /// Kept from iceoryx2; no call here gives it.
    CustomBufferSizeNotSupported,
    /// Kept from iceoryx2; no call here gives it.
    InternalFailure,
    /// Memory was refused.
    OutOfMemory,
}

/// Why a channel was not opened.
#[derive(Clone, Copy, Debug, PartialEq, Eq, Hash, Error)]
#[error("CommunicationChannelOpenError::{:?}", self)]
pub enum CommunicationChannelOpenError {
    /// Kept from iceoryx2; no call here gives it.
    InternalFailure,
    /// Kept from iceoryx2; no call here gives it.
    AnotherInstanceIsAlreadyConnected,
    /// The name isn't held.
    DoesNotExist,
    /// Memory was refused.
    OutOfMemory,
}
