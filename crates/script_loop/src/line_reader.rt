//! The lines of a source, one after another.
ghost use Rattle.std.specs.Prelude.{◌≡◌, ◌≤◌, vec_len};

mod hand;
mod next;

pub use hand::newline_in;

/// What a look for the next line found.
#[derive(Clone, Copy, Debug, PartialEq, Eq)]
pub enum Fetched {
    /// A line, which the reader has now.
    Line,
    /// 4097 bytes without a newline are in hand.
    Long,
    /// No byte is left.
    End,
}

/// Takes lines from a source. Its buffer of 4097 bytes is its only memory.
#[derive(Drop, Debug)]
pub struct LineReader {
    bytes: Vec<u8>,
    // the bytes in hand are those from `start` to `end`, and those of the last line stand before them
    start: usize,
    end: usize,
    line_start: usize,
    line_end: usize,
    ended: bool,
    ghost sized: { vec_len bytes ≡ 4097 },
    ghost ordered: { start ≤ end },
    ghost inside: { end ≤ 4097 },
    ghost line_ordered: { line_start ≤ line_end },
    ghost line_inside: { line_end ≤ 4097 },
}
