//! A publication as a step machine.
ghost use Rattle.std.specs.Prelude.{ℕ, ◌≡◌, ◌+◌, ◌^◌, ◌<◌, ◌≤◌, ◌==◌, nat_lt, List, length, slice_index};
ghost use Rattle.board_layout.specs.Layout.{cell_end};
ghost use Rattle.board_cell.specs.Calls.{Owes, next_write, progress_of, publication};

use crate::access::{Access, Progress};
use crate::copies::spare_word;
use board_layout::CellShape;
use std::marker::Model;

/// What holds the words of a publication: a list of its own, or a lent one.
pub trait ValueWords {
    ghost list: { Self → List ℕ };

    /// The word at this index.
    fn word(&self, index: u64) -> u64
        requires { index < length (list self.now) }
        ensures { result ≡ slice_index (list self.now) index };
}

impl ValueWords for Vec<u64> {
    ghost list = { λ s. s.items };

    #[inline(always)]
    fn word(&self, index: u64) -> u64 {
        self[index as usize]
    }
}

impl<'a> ValueWords for &'a Vec<u64> {
    ghost list = { λ s. s.now.items };

    #[inline(always)]
    fn word(&self, index: u64) -> u64 {
        self[index as usize]
    }
}

/// A publication, one access after another: the words go into the spare copy in order, and then the counter is raised.
#[derive(Drop, Debug)]
pub struct UpdateCall<W: ValueWords = Vec<u64>> {
    shape: CellShape,
    generation: u64,
    words: W,
    written: u64,
}

impl<W: ValueWords> Model for UpdateCall<W> {
    ghost use Rattle.std.specs.Prelude.{◌≡◌, ◌+◌, ◌^◌, ◌<◌, ◌≤◌, length};
    ghost use Rattle.board_layout.specs.Layout.{cell_end};
    ghost use Rattle.board_cell.specs.Calls.{Updating};

    ghost Value = { Updating };

    ghost view = { λ s. record { shape = s.shape; generation = s.generation; words = W.list s.words; written = s.written } };

    ghost invariant = { λ s. (length (W.list s.words) ≡ s.shape.words) × (cell_end s.shape < 2 ^ 64) × (s.generation + 1 < 2 ^ 64)
        × (s.written ≤ s.shape.words + 1) };
}

impl UpdateCall<Vec<u64>> {
    /// Publishes these words at this generation, in the cell of this shape.
    #[inline(always)]
    pub fn new(shape: CellShape, generation: u64, words: Vec<u64>) -> UpdateCall
        requires words { length words.items ≡ shape.words }
        requires shape { cell_end shape < 2 ^ 64 }
        requires room { generation + 1 < 2 ^ 64 }
        ensures { result ≡ publication shape generation words.items }
    {
        UpdateCall {
            shape,
            generation,
            words,
            written: 0,
        }
    }

    /// The words that were handed in.
    #[inline(always)]
    pub fn into_buffer(self) -> Vec<u64>
        ensures { result.items ≡ self.words }
    {
        self.words
    }
}

impl<'a> UpdateCall<&'a Vec<u64>> {
    /// Publishes lent words at this generation, in the cell of this shape.
    #[inline(always)]
    pub fn lent(shape: CellShape, generation: u64, words: &'a Vec<u64>) -> UpdateCall<&'a Vec<u64>>
        requires words { length words.now.items ≡ shape.words }
        requires shape { cell_end shape < 2 ^ 64 }
        requires room { generation + 1 < 2 ^ 64 }
        ensures { result ≡ publication shape generation words.now.items }
    {
        UpdateCall {
            shape,
            generation,
            words,
            written: 0,
        }
    }
}

impl<W: ValueWords> UpdateCall<W> {
    /// The access that is owed.
    #[inline(always)]
    pub fn next(&self) -> Access
        requires { self.now.written ≤ length self.now.words }
        ensures { Owes result (next_write self.now) }
    {
        if self.written < self.shape.words {
            Access::Write {
                word: spare_word(self.shape, self.generation, self.written),
                value: self.words.word(self.written),
            }
        } else {
            Access::Write {
                word: self.shape.first,
                value: self.generation + 1,
            }
        }
    }

    /// The access was made.
    #[inline(always)]
    pub fn took(&mut self, _word: u64) -> Progress
        requires { self.old.written ≤ length self.old.words }
        ensures call { self.new ≡ record self.old { written = self.old.written + 1 } }
        ensures progress { result ≡ progress_of (self.old.written == length self.old.words) }
    {
        self.written += 1;
        if self.written <= self.shape.words {
            Progress::More
        } else {
            Progress::Done
        }
    }

    /// Whether a word is still owed.
    #[inline(always)]
    pub fn owes_word(&self) -> bool
        ensures { result ≡ nat_lt self.now.written (length self.now.words) }
    {
        self.written < self.shape.words
    }
}
