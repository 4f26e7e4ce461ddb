//! An update or a fill of a value as a step machine, which holds the value's words in place.
ghost use Rattle.std.specs.Prelude.{◌≡◌, ◌+◌, ◌^◌, ◌<◌, ◌≤◌, ◌==◌, length, nat_lt, take};
ghost use Rattle.board_layout.specs.Layout.{cell_end};
ghost use Rattle.board_cell.specs.Calls.{Owes, next_write, progress_of, publication};
ghost use Rattle.board_model.specs.TypeTable as types;

use board_cell::{Access, Progress, PublishCall, PutCall};
use board_layout::CellShape;
use board_model::Value;
use std::marker::Model;

/// A publication of a value, one access after another: its words go into the spare copy in order, and then the counter is
/// raised. `board_cell`'s `UpdateCall` does the same for a list of any length, which is the caller's.
#[derive(Drop, Debug)]
pub(crate) struct ValueUpdate {
    shape: CellShape,
    generation: u64,
    /// As many as the cell has; those behind them are never looked at.
    words: [u64; 4],
    written: u64,
}

impl Model for ValueUpdate {
    ghost use Rattle.std.specs.Prelude.{◌+◌, ◌^◌, ◌<◌, ◌≤◌, take};
    ghost use Rattle.board_layout.specs.Layout.{cell_end};
    ghost use Rattle.board_cell.specs.Calls.{Updating};

    ghost Value = { Updating };

    ghost view = { λ s. record { shape = s.shape; generation = s.generation; words = take s.shape.words s.words; written = s.written } };

    ghost invariant = { λ s. (s.shape.words ≤ 4) × (cell_end s.shape < 2 ^ 64) × (s.generation + 1 < 2 ^ 64)
        × (s.written ≤ s.shape.words + 1) };
}

// The words of a value, and what fills the array.
#[inline(always)]
fn padded_words(value: Value) -> [u64; 4]
    ensures words { take (length (types.value_words value)) result ≡ types.value_words value }
    ensures few { length (types.value_words value) ≤ 4 }
{
    match value {
        Value::Bool(is) => [u64::from(is), 0, 0, 0],
        Value::U64(n) => [n, 0, 0, 0],
        Value::Q4(a, b, c, d) => [a, b, c, d],
    }
}

impl ValueUpdate {
    /// Publishes this value at this generation, in the cell of this shape.
    #[inline(always)]
    pub(crate) fn new(shape: CellShape, generation: u64, value: Value) -> ValueUpdate
        requires width { length (types.value_words value) ≡ shape.words }
        requires shape { cell_end shape < 2 ^ 64 }
        requires room { generation + 1 < 2 ^ 64 }
        ensures { result ≡ publication shape generation (types.value_words value) }
    {
        ValueUpdate {
            shape,
            generation,
            words: padded_words(value),
            written: 0,
        }
    }

    /// The access that is owed.
    #[inline(always)]
    pub(crate) fn next(&self) -> Access
        requires { self.now.written ≤ length self.now.words }
        ensures { Owes result (next_write self.now) }
    {
        if self.written < self.shape.words {
            let word = self.words[self.written as usize];
            PutCall::new(self.shape, self.generation, self.written, word).next()
        } else {
            PublishCall::new(self.shape, self.generation).next()
        }
    }

    /// The access was made.
    #[inline(always)]
    pub(crate) fn took(&mut self) -> Progress
        requires { self.old.written ≤ length self.old.words }
        ensures call { self.new ≡ record self.old { written = self.old.written + 1 } }
        ensures progress { result ≡ progress_of (self.old.written == length self.old.words) }
    {
        self.written += 1;
        if self.written <= self.shape.words {
            Progress::More
        } else {
            Progress::Done
        }
    }

    /// Whether a word is still owed.
    #[inline(always)]
    pub(crate) fn owes_word(&self) -> bool
        ensures { result ≡ nat_lt self.now.written (length self.now.words) }
    {
        self.written < self.shape.words
    }
}
