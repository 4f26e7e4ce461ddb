//! How long names and attributes may be, in bytes, and how many attributes there may be.

/// The greatest length of a service's name, in bytes.
pub const MAX_SERVICE_NAME_LENGTH: usize = 255;

/// The greatest length of a node's name, in bytes.
pub const MAX_NODE_NAME_LENGTH: usize = 128;

/// The greatest number of attribute pairs of a service.
pub const MAX_ATTRIBUTES: usize = 8;

/// The greatest length of an attribute's key, in bytes.
pub const MAX_ATTRIBUTE_KEY_LENGTH: usize = 64;

/// The greatest length of an attribute's value, in bytes.
pub const MAX_ATTRIBUTE_VALUE_LENGTH: usize = 256;
