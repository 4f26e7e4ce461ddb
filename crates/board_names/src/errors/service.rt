//! Why a call of a policy, of a description, of attributes or of a domain is refused.
use thiserror::Error;

/// Why a policy was not made or shared.
#[derive(Clone, Copy, Debug, PartialEq, Eq, Hash, Error)]
#[error("ArcSyncPolicyCreationError::{:?}", self)]
pub enum ArcSyncPolicyCreationError {
    /// Memory was refused.
    InsufficientResources,
    /// Kept from iceoryx2; no call here gives it.
    InternalFailure,
}

/// Why a description was not written.
#[derive(Clone, Copy, Debug, PartialEq, Eq, Error)]
#[error("SerializeError::{:?}", self)]
pub enum SerializeError {
    /// Kept from iceoryx2; no call here gives it.
    InternalError,
    /// Memory was refused.
    OutOfMemory,
}

/// Why no description was read.
#[derive(Clone, Copy, Debug, PartialEq, Eq, Error)]
#[error("DeserializeError::{:?}", self)]
pub enum DeserializeError {
    /// No description is spelled so.
    InternalError,
    /// Memory was refused.
    OutOfMemory,
}

/// Why an attribute or a requirement was not added.
#[derive(Clone, Copy, Debug, PartialEq, Eq, Error)]
#[error("AttributeError::{:?}", self)]
pub enum AttributeError {
    /// A text is longer than it may be, or has a byte outside 0x20 to 0x7E.
    InvalidText,
    /// The list has as many as it may have.
    ExceedsMaxSupportedAttributes,
    /// Memory was refused.
    OutOfMemory,
}

/// Why a domain, a node or a builder was not made.
#[derive(Clone, Copy, Debug, PartialEq, Eq, Error)]
#[error("DomainError::{:?}", self)]
pub enum DomainError {
    /// All node numbers were drawn.
    NumbersSpent,
    /// Memory was refused.
    OutOfMemory,
}
