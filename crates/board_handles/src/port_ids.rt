//! The numbers of ports.

/// The number of a reader, from 1 over all readers and writers of a domain.
#[derive(Clone, Copy, Debug, PartialEq, Eq)]
pub struct UniqueReaderId(pub u64);

/// The number of a writer, from 1 over all readers and writers of a domain.
#[derive(Clone, Copy, Debug, PartialEq, Eq)]
pub struct UniqueWriterId(pub u64);
