//! The calls of one access: a word of a loan is put, the counter is raised at a loan's end, and the counter is looked at.
ghost use Rattle.std.specs.Prelude.{ℕ, ◌≡◌, ◌+◌, ◌^◌, ◌<◌, ◌==◌, true, false, None, Some, IsSome, IfSome};
ghost use Rattle.board_layout.specs.Layout.{cell_end};
ghost use Rattle.board_cell_model.specs.OwedAccesses.{to_read};
ghost use Rattle.board_cell.specs.Calls.{Owes, next_put, next_raise, on_board, put_at};
ghost use Rattle.board_cell.specs.declared.access.Progress.TheVariants.{Done};

use crate::access::{Access, Progress};
use crate::copies::spare_word;
use board_layout::CellShape;
use std::marker::Model;

/// One word of a loan, written into the spare copy.
#[derive(Drop, Debug)]
pub struct PutCall {
    shape: CellShape,
    generation: u64,
    index: u64,
    word: u64,
    done: bool,
}

impl Model for PutCall {
    ghost use Rattle.std.specs.Prelude.{◌^◌, ◌<◌};
    ghost use Rattle.board_layout.specs.Layout.{cell_end};
    ghost use Rattle.board_cell.specs.Calls.{Putting};

    ghost Value = { Putting };

    ghost view = { λ s. record { shape = s.shape; generation = s.generation; index = s.index; word = s.word; done = s.done } };

    ghost invariant = { λ s. (cell_end s.shape < 2 ^ 64) × (s.index < s.shape.words) };
}

impl PutCall {
    /// Puts this word at this index of the copy that is spare at this generation.
    #[inline(always)]
    pub fn new(shape: CellShape, generation: u64, index: u64, word: u64) -> PutCall
        requires index { index < shape.words }
        requires shape { cell_end shape < 2 ^ 64 }
        ensures { result ≡ put_at shape generation index word }
    {
        PutCall {
            shape,
            generation,
            index,
            word,
            done: false,
        }
    }

    /// The access that is owed.
    #[inline(always)]
    pub fn next(&self) -> Access
        requires { self.now.done ≡ false }
        ensures { Owes result (next_put self.now) }
    {
        Access::Write {
            word: spare_word(self.shape, self.generation, self.index),
            value: self.word,
        }
    }

    /// The access was made.
    #[inline(always)]
    pub fn took(&mut self, _word: u64) -> Progress
        requires { self.old.done ≡ false }
        ensures call { self.new ≡ record self.old { done = true } }
        ensures progress { result ≡ Done }
    {
        self.done = true;
        Progress::Done
    }
}

/// The last access of a publication: the counter is raised.
#[derive(Drop, Debug)]
pub struct PublishCall {
    shape: CellShape,
    generation: u64,
    done: bool,
}

impl Model for PublishCall {
    ghost use Rattle.std.specs.Prelude.{◌+◌, ◌^◌, ◌<◌};
    ghost use Rattle.board_cell.specs.Calls.{Publishing};

    ghost Value = { Publishing };

    ghost view = { λ s. record { shape = s.shape; generation = s.generation; done = s.done } };

    ghost invariant = { λ s. s.generation + 1 < 2 ^ 64 };
}

impl PublishCall {
    /// Raises the counter of the cell of this shape from this generation.
    #[inline(always)]
    pub fn new(shape: CellShape, generation: u64) -> PublishCall
        requires room { generation + 1 < 2 ^ 64 }
        ensures { result ≡ record { shape = shape; generation = generation; done = false } }
    {
        PublishCall {
            shape,
            generation,
            done: false,
        }
    }

    /// The access that is owed.
    #[inline(always)]
    pub fn next(&self) -> Access
        requires { self.now.done ≡ false }
        ensures { Owes result (next_raise self.now) }
    {
        Access::Write {
            word: self.shape.first,
            value: self.generation + 1,
        }
    }

    /// The access was made.
    #[inline(always)]
    pub fn took(&mut self, _word: u64) -> Progress
        requires { self.old.done ≡ false }
        ensures call { self.new ≡ record self.old { done = true } }
        ensures progress { result ≡ Done }
    {
        self.done = true;
        Progress::Done
    }
}

/// One read of a cell's counter.
#[derive(Drop, Debug)]
pub struct FreshCall {
    shape: CellShape,
    generation: u64,
    counter: Option<u64>,
}

impl Model for FreshCall {
    ghost use Rattle.board_cell.specs.Calls.{Asking};

    ghost Value = { Asking };

    ghost view = { λ s. record { shape = s.shape; generation = s.generation; counter = s.counter } };
}

impl FreshCall {
    /// Asks whether the cell of this shape is still at this generation.
    #[inline(always)]
    pub fn new(shape: CellShape, generation: u64) -> FreshCall
        ensures { result ≡ record { shape = shape; generation = generation; counter = None } }
    {
        FreshCall {
            shape,
            generation,
            counter: None,
        }
    }

    /// The access that is owed.
    #[inline(always)]
    pub fn next(&self) -> Access
        requires { self.now.counter ≡ None }
        ensures { (board : ℕ) → on_board board result ≡ to_read board self.now.shape.first }
    {
        Access::Read {
            word: self.shape.first,
        }
    }

    /// Takes the word that was read.
    #[inline(always)]
    pub fn took(&mut self, word: u64) -> Progress
        requires { self.old.counter ≡ None }
        ensures call { self.new ≡ record self.old { counter = Some word } }
        ensures progress { result ≡ Done }
    {
        self.counter = Some(word);
        Progress::Done
    }

    /// Whether the counter was the generation.
    #[inline(always)]
    pub fn answer(&self) -> bool
        requires { IsSome self.now.counter }
        ensures { IfSome self.now.counter (λ counter. result ≡ (counter == self.now.generation)) }
    {
        self.counter == Some(self.generation)
    }
}
