//! Why a text or a call on all values of a concept is refused.
use thiserror::Error;

/// Why a text is refused.
#[derive(Clone, Copy, Debug, PartialEq, Eq, Error)]
#[error("SemanticStringError::{:?}", self)]
pub enum SemanticStringError {
    /// The text breaks the rule of its type, or it is empty and isn't a node's name.
    InvalidContent = 1,
    /// The text is longer than its type allows. This is looked at first.
    ExceedsMaximumLength = 2,
}

/// Why a registry was not made or shared.
#[derive(Clone, Copy, Debug, PartialEq, Eq, Error)]
#[error("RegistryError::{:?}", self)]
pub enum RegistryError {
    /// Memory was refused.
    OutOfMemory,
}

/// Why it is not known whether a name is held.
#[derive(Clone, Copy, Debug, PartialEq, Eq, Error)]
#[error("NamedConceptDoesExistError::{:?}", self)]
pub enum NamedConceptDoesExistError {
    /// Kept from iceoryx2; no call here gives it.
    InsufficientPermissions,
    /// The name is held by a static storage that is still locked.
    UnderlyingResourcesBeingSetUp,
    /// Kept from iceoryx2; no call here gives it.
    UnderlyingResourcesCorrupted,
    /// Kept from iceoryx2; no call here gives it.
    InternalError,
}

/// Why names are not listed.
#[derive(Clone, Copy, Debug, PartialEq, Eq, Error)]
#[error("NamedConceptListError::{:?}", self)]
pub enum NamedConceptListError {
    /// Kept from iceoryx2; no call here gives it.
    InsufficientPermissions,
    /// A file could not be looked at.
    InternalError,
    /// Memory was refused.
    OutOfMemory,
}

/// Why a name is not removed.
#[derive(Clone, Copy, Debug, PartialEq, Eq, Error)]
#[error("NamedConceptRemoveError::{:?}", self)]
pub enum NamedConceptRemoveError {
    /// Kept from iceoryx2; no call here gives it.
    InsufficientPermissions,
    /// A file could not be removed.
    InternalError,
    /// Memory was refused.
    OutOfMemory,
}

/// Why a path hint is not removed.
#[derive(Clone, Copy, Debug, PartialEq, Eq, Error)]
#[error("NamedConceptPathHintRemoveError::{:?}", self)]
pub enum NamedConceptPathHintRemoveError {
    /// Kept from iceoryx2; no call here gives it.
    InsufficientPermissions,
    /// Kept from iceoryx2; no call here gives it.
    InternalError,
}
