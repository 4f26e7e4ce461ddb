//! Why a call on boards is refused.
use thiserror::Error;

/// Why a board was not made.
#[derive(Clone, Copy, Debug, PartialEq, Eq, Hash, Error)]
#[error("BlackboardCreateError::{:?}", self)]
pub enum BlackboardCreateError {
    /// A board of this name stands.
    AlreadyExists,
    /// Kept from iceoryx2; no call here gives it.
    IsBeingCreatedByAnotherInstance,
    /// Kept from iceoryx2; no call here gives it.
    InternalFailure,
    /// Kept from iceoryx2; no call here gives it.
    InsufficientPermissions,
    /// Two keys are equal, or the cells take more than 4294967295 bytes.
    ServiceInCorruptedState,
    /// Kept from iceoryx2; no call here gives it.
    HangsInCreation,
    /// No entry was added.
    NoEntriesProvided,
    /// All board or thing numbers were drawn.
    NumbersSpent,
    /// Memory was refused.
    OutOfMemory,
}

/// Why a board was not opened.
#[derive(Clone, Copy, Debug, PartialEq, Eq, Hash, Error)]
#[error("BlackboardOpenError::{:?}", self)]
pub enum BlackboardOpenError {
    /// No board of this name stands.
    DoesNotExist,
    /// Kept from iceoryx2; no call here gives it.
    ServiceInCorruptedState,
    /// The board has another key type.
    IncompatibleKeys,
    /// Kept from iceoryx2; no call here gives it.
    InternalFailure,
    /// A needed attribute is missing.
    IncompatibleAttributes,
    /// Kept from iceoryx2; no call here gives it.
    IncompatibleMessagingPattern,
    /// The board allows fewer readers than were asked for.
    DoesNotSupportRequestedAmountOfReaders,
    /// Kept from iceoryx2; no call here gives it.
    InsufficientPermissions,
    /// Kept from iceoryx2; no call here gives it.
    HangsInCreation,
    /// Kept from iceoryx2; no call here gives it.
    IsMarkedForDestruction,
    /// As many other nodes use the board as it allows.
    ExceedsMaxNumberOfNodes,
    /// The board allows fewer nodes than were asked for.
    DoesNotSupportRequestedAmountOfNodes,
    /// All thing numbers were drawn.
    NumbersSpent,
    /// Memory was refused.
    OutOfMemory,
}

/// Why a reader was not made.
#[derive(Clone, Copy, Debug, PartialEq, Eq, Hash, Error)]
pub enum ReaderCreateError {
    /// The board has as many readers as it allows.
    #[error("ReaderCreateError::ExceedsMaxSupportedReaders")]
    ExceedsMaxSupportedReaders,
    /// Kept from iceoryx2; no call here gives it.
    #[error("ReaderCreateError::FailedToDeployThreadsafetyPolicy")]
    FailedToDeployThreadsafetyPolicy,
    /// Kept from iceoryx2; no call here gives it.
    #[error("ReaderCreateError::UnableToCreatePortTag")]
    UnableToCreatePortTag,
    /// The factory with this number is not held.
    #[error("ReaderCreateError::ThingUnknown")]
    ThingUnknown(u64),
    /// All port or thing numbers were drawn.
    #[error("ReaderCreateError::NumbersSpent")]
    NumbersSpent,
    /// Memory was refused.
    #[error("ReaderCreateError::OutOfMemory")]
    OutOfMemory,
}

/// Why a writer was not made.
#[derive(Clone, Copy, Debug, PartialEq, Eq, Hash, Error)]
pub enum WriterCreateError {
    /// The board has as many writers as it allows, each itself or with a handle made from it.
    #[error("WriterCreateError::ExceedsMaxSupportedWriters")]
    ExceedsMaxSupportedWriters,
    /// Kept from iceoryx2; no call here gives it.
    #[error("WriterCreateError::InternalFailure")]
    InternalFailure,
    /// Kept from iceoryx2; no call here gives it.
    #[error("WriterCreateError::FailedToDeployThreadsafetyPolicy")]
    FailedToDeployThreadsafetyPolicy,
    /// Kept from iceoryx2; no call here gives it.
    #[error("WriterCreateError::UnableToCreatePortTag")]
    UnableToCreatePortTag,
    /// The factory with this number is not held.
    #[error("WriterCreateError::ThingUnknown")]
    ThingUnknown(u64),
    /// All port or thing numbers were drawn.
    #[error("WriterCreateError::NumbersSpent")]
    NumbersSpent,
    /// Memory was refused.
    #[error("WriterCreateError::OutOfMemory")]
    OutOfMemory,
}

/// Why a read handle was not made.
#[derive(Clone, Copy, Debug, PartialEq, Eq, Hash, Error)]
pub enum EntryHandleError {
    /// No entry has the key and the value type.
    #[error("EntryHandleError::EntryDoesNotExist")]
    EntryDoesNotExist,
    /// The reader with this number is not held.
    #[error("EntryHandleError::ThingUnknown")]
    ThingUnknown(u64),
    /// All thing numbers were drawn.
    #[error("EntryHandleError::NumbersSpent")]
    NumbersSpent,
    /// Memory was refused.
    #[error("EntryHandleError::OutOfMemory")]
    OutOfMemory,
}

/// Why a write handle was not made.
#[derive(Clone, Copy, Debug, PartialEq, Eq, Hash, Error)]
pub enum EntryHandleMutError {
    /// No entry has the key and the value type.
    #[error("EntryHandleMutError::EntryDoesNotExist")]
    EntryDoesNotExist,
    /// The entry has a write handle or a loan.
    #[error("EntryHandleMutError::HandleAlreadyExists")]
    HandleAlreadyExists,
    /// The writer with this number is not held.
    #[error("EntryHandleMutError::ThingUnknown")]
    ThingUnknown(u64),
    /// All thing numbers were drawn.
    #[error("EntryHandleMutError::NumbersSpent")]
    NumbersSpent,
    /// Memory was refused.
    #[error("EntryHandleMutError::OutOfMemory")]
    OutOfMemory,
}
