//! Sources and sinks in memory.
ghost use Rattle.std.specs.Prelude.{◌≤◌, vec_len};

mod ends;
mod make;

/// Bytes in memory, given in pieces. Some of its calls fail.
#[derive(Drop, Debug)]
pub struct MemorySource {
    bytes: Vec<u8>,
    at: usize,
    piece: usize,
    calls: u64,
    faults: u64,
    fails: Vec<u64>,
    ghost inside: { at ≤ vec_len bytes },
}

/// A room in memory, which takes bytes in pieces. Some of its calls fail, and those with a byte that find no room left.
#[derive(Drop, Debug)]
pub struct MemorySink {
    bytes: Vec<u8>,
    len: usize,
    piece: usize,
    calls: u64,
    faults: u64,
    fails: Vec<u64>,
    ghost inside: { len ≤ vec_len bytes },
}
