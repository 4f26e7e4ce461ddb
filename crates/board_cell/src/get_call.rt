//! A read of a cell as a step machine.
ghost use Rattle.std.specs.Prelude.{ℕ, ◌≡◌, ◌+◌, ◌^◌, ◌<◌, ◌≤◌, nat_lt, true, false, if◌then◌else◌, ◌++◌, [], ◌∷◌, List, length};
ghost use Rattle.board_layout.specs.Layout.{cell_end};
ghost use Rattle.board_cell_model.specs.OwedAccesses.{opening, trying, hear, is_finished, to_read, owed_read};
ghost use Rattle.board_cell.specs.Calls.{Owes, counter_of, hearing, next_read, progress_of, words_of};

use crate::access::{Access, Progress};
use crate::copies::current_copy;
use board_layout::CellShape;
use std::marker::Model;

// How far a get is.
#[derive(Clone, Copy, Debug, PartialEq, Eq)]
pub(crate) enum Stage {
    Opening,
    Trying,
    Finished,
}

/// A read of a cell, one access after another: the counter, the words of the current copy, and the counter again, until two counters are equal.
#[derive(Drop, Debug)]
pub struct GetCall {
    shape: CellShape,
    buffer: Vec<u64>,
    counter: u64,
    // Where the current copy begins.
    copy: u64,
    at: u64,
    // How many words the open try still owes.
    left: u64,
    stage: Stage,
}

impl Model for GetCall {
    ghost use Rattle.std.specs.Prelude.{◌≡◌, ◌+◌, ◌^◌, ◌<◌, ◌≤◌, length, take};
    ghost use Rattle.board_layout.specs.Layout.{cell_end};
    ghost use Rattle.board_cell_model.specs.OwedAccesses.{current_at};
    ghost use Rattle.board_cell.specs.declared.get_call.Stage.TheVariants.{Opening, Trying, Finished};
    ghost use Rattle.board_cell.specs.Calls.{Getting};
    ghost use Rattle.board_cell.specs.Stages.{reading_of};

    ghost Value = { Getting };

    ghost view = { λ s. record { shape = s.shape; reading = reading_of s.stage s.counter (take s.at s.buffer.items) } };

    ghost invariant = { λ s. (length s.buffer.items ≡ s.shape.words) × (cell_end s.shape < 2 ^ 64)
        × (s.stage ≡ Opening → (s.at ≡ 0) × (s.left ≡ 0)) × (s.at + s.left ≤ s.shape.words)
        × (s.copy + s.shape.words ≤ cell_end s.shape)
        × (s.stage ≡ Trying → (s.at + s.left ≡ s.shape.words) × (s.copy ≡ current_at s.shape s.counter))
        × (s.stage ≡ Finished → (s.at ≡ s.shape.words) × (s.left ≡ 0)) };
}

impl GetCall {
    /// A read of the cell of this shape. The buffer has as many words as a value.
    #[inline(always)]
    pub fn new(shape: CellShape, buffer: Vec<u64>) -> GetCall
        requires buffer { length buffer.items ≡ shape.words }
        requires shape { cell_end shape < 2 ^ 64 }
        ensures { result ≡ record { shape = shape; reading = opening } }
    {
        GetCall {
            shape,
            buffer,
            counter: 0,
            copy: 0,
            at: 0,
            left: 0,
            stage: Stage::Opening,
        }
    }

    // A read whose try is open at this counter, and has no word yet.
    #[inline(always)]
    pub(crate) fn in_try(shape: CellShape, buffer: Vec<u64>, counter: u64) -> GetCall
        requires buffer { length buffer.items ≡ shape.words }
        requires shape { cell_end shape < 2 ^ 64 }
        ensures { result ≡ record { shape = shape; reading = trying counter [] } }
    {
        let mut call = GetCall::new(shape, buffer);
        call.begin_try(counter);
        call
    }

    // The word that is to be read.
    #[inline]
    fn owed_word(&self) -> u64
        requires { is_finished self.now.reading ≡ false }
        ensures { (board : ℕ) → to_read board result ≡ owed_read board self.now.shape self.now.reading }
    {
        if self.left != 0 {
            self.copy + self.at
        } else {
            self.shape.first
        }
    }

    /// The access that is owed.
    #[inline(always)]
    pub fn next(&self) -> Access
        requires { is_finished self.now.reading ≡ false }
        ensures { Owes result (next_read self.now) }
    {
        Access::Read {
            word: self.owed_word(),
        }
    }

    // Begins a try at this counter.
    #[inline]
    fn begin_try(&mut self, counter: u64)
        ensures { self.new ≡ record self.old { reading = trying counter [] } }
    {
        self.stage = Stage::Trying;
        self.counter = counter;
        self.copy = current_copy(self.shape, counter);
        self.at = 0;
        self.left = self.buffer.len() as u64;
    }

    // Takes a counter, where no word is owed: it opens a try, or closes the open one.
    #[inline]
    fn took_counter(&mut self, word: u64) -> Progress
        requires going { is_finished self.old.reading ≡ false }
        requires none { length (words_of self.old.reading) < self.old.shape.words → self.old.reading ≡ opening }
        ensures call { self.new ≡ hearing self.old word }
        ensures progress { result ≡ progress_of (is_finished self.new.reading) }
    {
        if self.stage == Stage::Trying && word == self.counter {
            self.stage = Stage::Finished;
            Progress::Done
        } else {
            self.begin_try(word);
            Progress::More
        }
    }

    /// Takes the word that was read.
    #[inline(always)]
    pub fn took(&mut self, word: u64) -> Progress
        requires { is_finished self.old.reading ≡ false }
        ensures call { self.new ≡ hearing self.old word }
        ensures progress { result ≡ progress_of (is_finished self.new.reading) }
    {
        if self.left != 0 {
            self.buffer[self.at as usize] = word;
            self.at += 1;
            self.left -= 1;
            Progress::More
        } else {
            self.took_counter(word)
        }
    }

    /// Whether the open try still owes a word.
    #[inline(always)]
    pub fn owes_word(&self) -> bool
        ensures { result ≡ nat_lt (length (words_of self.now.reading)) self.now.shape.words }
    {
        self.left != 0 || self.stage == Stage::Opening && self.buffer.len() != 0
    }

    // Whether the open try still owes as many words as this.
    #[inline(always)]
    pub(crate) fn owes_words(&self, count: u64) -> bool
        ensures { result ≡ true → length (words_of self.now.reading) + count ≤ self.now.shape.words }
    {
        self.left >= count
    }

    /// The counter at which the words were read.
    #[inline(always)]
    pub fn generation(&self) -> u64
        requires { is_finished self.now.reading ≡ true }
        ensures { result ≡ counter_of self.now.reading }
    {
        self.counter
    }

    /// The words that were read.
    #[inline(always)]
    pub fn words(&self) -> &Vec<u64>
        requires { is_finished self.now.reading ≡ true }
        ensures { result.now.items ≡ words_of self.now.reading }
    {
        &self.buffer
    }

    /// Gives the buffer back: with the words that were read, once the call is done.
    #[inline(always)]
    pub fn into_buffer(self) -> Vec<u64>
        ensures width { length result.items ≡ self.shape.words }
        ensures words { is_finished self.reading ≡ true → result.items ≡ words_of self.reading }
    {
        self.buffer
    }
}
