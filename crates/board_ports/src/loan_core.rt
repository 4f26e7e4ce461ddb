//! What a loan knows: the words that were put in it.
ghost use Rattle.std.specs.Prelude.{◌≡◌, ◌+◌, ◌^◌, ◌<◌, ◌≤◌, ◌↔◌, true, List, Option, ℕ, None, IfSome, length};
ghost use Rattle.board_layout.specs.Layout.{cell_end};
ghost use Rattle.board_model.specs.LawfulSession.{all_put};
ghost use Rattle.board_model.specs.Replies.{none_put};
ghost use Rattle.board_ports.specs.EntryCalls.{put_of, publish_of, update_of};
ghost use Rattle.board_ports.specs.Loans.{with_put, handle_back};

use crate::write_core::WriteCore;
use board_cell::{PublishCall, PutCall, UpdateCall};
use std::marker::Model;

/// What holds the words of a loan: a list of its own, or a lent one.
pub trait LoanWords {
    ghost list: { Self → List (Option ℕ) };

    /// The words, each where it was put.
    fn as_slice(&self) -> &[Option<u64>]
        ensures { result.now ≡ list self.now };
}

impl LoanWords for Vec<Option<u64>> {
    ghost list = { λ s. s.items };

    #[inline]
    fn as_slice(&self) -> &[Option<u64>] {
        Vec::as_slice(self)
    }
}

impl<'a> LoanWords for &'a Vec<Option<u64>> {
    ghost list = { λ s. s.now.items };

    #[inline]
    fn as_slice(&self) -> &[Option<u64>] {
        Vec::as_slice(*self)
    }
}

/// A write handle that is out as a loan: its next value is put word by word, and then published or discarded.
#[derive(Drop, Debug)]
pub struct LoanCore<W: LoanWords = Vec<Option<u64>>> {
    handle: WriteCore,
    words: W,
}

impl<W: LoanWords> Model for LoanCore<W> {
    ghost use Rattle.std.specs.Prelude.{◌≡◌, length};
    ghost use Rattle.board_ports.specs.Loans.{LoanSeen};

    ghost Value = { LoanSeen };

    ghost view = { λ s. record { handle = s.handle; words = W.list s.words } };

    ghost invariant = { λ s. length (W.list s.words) ≡ s.handle.shape.words };
}

impl LoanCore<Vec<Option<u64>>> {
    /// The loan of this handle with these words put, each at its index.
    #[inline]
    pub fn new(handle: WriteCore, words: Vec<Option<u64>>) -> LoanCore
        requires { length words.items ≡ handle.shape.words }
        ensures { result ≡ record { handle = handle; words = words.items } }
    {
        LoanCore { handle, words }
    }

    /// The word was put.
    #[inline]
    pub fn wrote(&mut self, index: u64, word: u64)
        requires index { index < self.old.handle.shape.words }
        ensures { self.new ≡ with_put self.old index word }
    {
        self.words[index as usize] = Some(word);
    }

    /// Ends the loan, which was published or is discarded.
    #[inline]
    pub fn into_write(self, published: bool) -> WriteCore
        requires room { published ≡ true → self.handle.generation + 1 < 2 ^ 64 }
        ensures { result ≡ handle_back published self.handle }
    {
        let (handle, _places) = self.into_parts(published);
        handle
    }

    /// The same, and gives the buffer back with its places emptied, for the next loan.
    #[inline]
    pub fn into_parts(self, published: bool) -> (WriteCore, Vec<Option<u64>>)
        requires room { published ≡ true → self.handle.generation + 1 < 2 ^ 64 }
        ensures handle { result.0 ≡ handle_back published self.handle }
        ensures empty { result.1.items ≡ none_put self.handle.shape.words }
    {
        let LoanCore {
            mut handle,
            mut words,
        } = self;
        if published {
            handle.published();
        }
        words.as_mut_slice().fill(None);
        (handle, words)
    }
}

impl<'a> LoanCore<&'a Vec<Option<u64>>> {
    /// The loan of this handle with words that are kept elsewhere, each at its index.
    #[inline]
    pub fn lent(handle: WriteCore, words: &'a Vec<Option<u64>>) -> LoanCore<&'a Vec<Option<u64>>>
        requires { length words.now.items ≡ handle.shape.words }
        ensures { result ≡ record { handle = handle; words = words.now.items } }
    {
        LoanCore { handle, words }
    }
}

impl<W: LoanWords> LoanCore<W> {
    /// The handle that is out.
    #[inline]
    pub fn handle(&self) -> &WriteCore
        ensures handle { result.now ≡ self.now.handle }
        ensures width { length self.now.words ≡ self.now.handle.shape.words }
    {
        &self.handle
    }

    /// Puts this word at this index of the next value, or gives nothing where a value has no such word. `wrote` is called once it is done.
    #[inline]
    pub fn put(&self, index: u64, word: u64) -> Option<PutCall>
        requires shape { cell_end self.now.handle.shape < 2 ^ 64 }
        ensures beyond { (result ≡ None) ↔ (self.now.handle.shape.words ≤ index) }
        ensures call { IfSome result (λ call. call
            ≡ put_of self.now.handle.shape self.now.handle.generation index word) }
    {
        let handle = &self.handle;
        if index < handle.shape.words {
            Some(PutCall::new(handle.shape, handle.generation, index, word))
        } else {
            None
        }
    }

    /// Whether each word of the next value was put.
    #[inline]
    pub fn is_filled(&self) -> bool
        ensures { result ≡ all_put self.now.words }
    {
        for word in self.words.as_slice() {
            if word.is_none() {
                return false;
            }
        }
        true
    }

    /// Publishes the words that were put, all of them. `into_write(true)` is called once it is done.
    #[inline]
    pub fn publish(&self) -> PublishCall
        requires filled { all_put self.now.words ≡ true }
        requires room { self.now.handle.generation + 1 < 2 ^ 64 }
        ensures { result ≡ publish_of self.now.handle.shape self.now.handle.generation }
    {
        PublishCall::new(self.handle.shape, self.handle.generation)
    }

    /// Publishes these words, whatever was put. `into_write(true)` is called once it is done.
    #[inline]
    pub fn fill(&self, words: Vec<u64>) -> UpdateCall
        requires width { length words.items ≡ self.now.handle.shape.words }
        requires shape { cell_end self.now.handle.shape < 2 ^ 64 }
        requires room { self.now.handle.generation + 1 < 2 ^ 64 }
        ensures { result ≡ update_of self.now.handle.shape self.now.handle.generation words.items }
    {
        self.handle.update(words)
    }
}
