//! How the ports of a service may be shared. It stands in their types alone, and changes no answer.

/// How ports are shared.
pub trait Policy {}

/// Ports that threads share, as by `MutexProtected`.
#[derive(Clone, Copy, Debug)]
pub struct Shared;

/// Ports of one thread, as by `SingleThreaded`.
#[derive(Clone, Copy, Debug)]
pub struct Single;

impl Policy for Shared {}

impl Policy for Single {}
