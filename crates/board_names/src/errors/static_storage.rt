//! Why a call of static storage is refused.
use thiserror::Error;

/// Why a static storage was not created.
#[derive(Clone, Copy, Debug, PartialEq, Eq, Hash, Error)]
#[error("StaticStorageCreateError::{:?}", self)]
pub enum StaticStorageCreateError {
    /// The name is held.
    AlreadyExists,
    /// A file could not be made.
    Creation,
    /// Kept from iceoryx2; no call here gives it.
    Write,
    /// Kept from iceoryx2; no call here gives it.
    InsufficientPermissions,
    /// Kept from iceoryx2; no call here gives it.
    InternalError,
    /// Memory was refused.
    OutOfMemory,
}

/// Why a static storage was not opened.
#[derive(Clone, Copy, Debug, PartialEq, Eq, Hash, Error)]
#[error("StaticStorageOpenError::{:?}", self)]
pub enum StaticStorageOpenError {
    /// The name isn't held.
    DoesNotExist,
    /// A file could not be read.
    Read,
    /// The name is locked, at each look.
    InitializationNotYetFinalized,
    /// Kept from iceoryx2; no call here gives it.
    InternalError,
    /// Memory was refused.
    OutOfMemory,
}

/// Why the contents were not read.
#[derive(Clone, Copy, Debug, PartialEq, Eq, Hash, Error)]
pub enum StaticStorageReadError {
    /// The contents are longer than the buffer.
    #[error("StaticStorageReadError::BufferTooSmall")]
    BufferTooSmall,
    /// A file could not be read.
    #[error("StaticStorageReadError::ReadError")]
    ReadError,
    /// A file has other than the `expected` bytes: `found` were there to read.
    #[error("StaticStorageReadError::StaticStorageWasModified")]
    StaticStorageWasModified { expected: u64, found: u64 },
    /// Kept from iceoryx2; no call here gives it.
    #[error("StaticStorageReadError::CreationNotComplete")]
    CreationNotComplete,
    /// Memory was refused.
    #[error("StaticStorageReadError::OutOfMemory")]
    OutOfMemory,
}

/// Why a static storage was not unlocked.
#[derive(Clone, Copy, Debug, PartialEq, Eq, Hash, Error)]
pub enum StaticStorageUnlockError {
    /// Kept from iceoryx2; no call here gives it.
    #[error("StaticStorageUnlockError::InsufficientPermissions")]
    InsufficientPermissions,
    /// A file took `taken` of the `given` bytes.
    #[error("StaticStorageUnlockError::NoSpaceLeft")]
    NoSpaceLeft { taken: u64, given: u64 },
    /// The name isn't held locked, or a file could not be written.
    #[error("StaticStorageUnlockError::InternalError")]
    InternalError,
    /// Memory was refused.
    #[error("StaticStorageUnlockError::OutOfMemory")]
    OutOfMemory,
}
