//! The lines of a source, one after another, each up to a bound.
ghost use Rattle.std.specs.Prelude.{◌≡◌, ◌≤◌, vec_len};

mod reading;

// How many bytes are read at once.
pub(crate) const CHUNK: usize = 65536;

// What a look for the next line found.
#[derive(Clone, Copy, Debug, PartialEq, Eq)]
pub(crate) enum Found {
    // A line of at most so many bytes.
    Line,
    // A longer line, of which a part was taken.
    Long,
    // No byte is left.
    End,
}

// Takes lines from a source. Its own memory is one chunk of bytes.
#[derive(Drop, Debug)]
pub(crate) struct PairLines {
    bytes: Vec<u8>,
    // the bytes in hand are those from `start` to `end`
    start: usize,
    end: usize,
    ended: bool,
    ghost sized: { vec_len bytes ≡ 65536 },
    ghost ordered: { start ≤ end },
    ghost inside: { end ≤ 65536 },
}
