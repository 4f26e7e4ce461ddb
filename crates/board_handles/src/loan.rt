//! Loans of write handles.
ghost use Rattle.std.specs.Prelude.{◌≡◌, ◌<◌, true, length};
ghost use Rattle.board_model.specs.LawfulSession.{all_put};
ghost use Rattle.board_handles.specs.Handles.{publishing, with_written, PublishesWritten, HasRoom};

use crate::write_handle::EntryHandleMut;
use crate::writing::Writing;
use board_layout::ZeroCopySend;
use std::marker::{Model, PhantomData};

/// A write handle that is out as a loan: its next value is written word by word, and then published or discarded.
///
/// Clauses see the handle, and for each word of the value what was written there in this loan. None of its calls takes memory, and none but `release` waits.
#[derive(Drop)]
pub struct EntryValueUninit<K, V: ZeroCopySend, P> {
    writing: Writing<V>,
    marker: PhantomData<(K, P)>,
}

impl<K, V: ZeroCopySend, P> Model for EntryValueUninit<K, V, P> {
    ghost use Rattle.board_handles.specs.Handles.{LoanSeen, HasRoom};

    ghost Value = { LoanSeen };

    ghost view = { λ s. s.writing };

    ghost invariant = { λ s. HasRoom s.writing.handle };
}

impl<K, V: ZeroCopySend, P> EntryValueUninit<K, V, P> {
    // The loan that has this.
    pub(crate) fn of(writing: Writing<V>) -> EntryValueUninit<K, V, P>
        requires room { HasRoom writing.handle }
        ensures { result ≡ writing }
    {
        EntryValueUninit {
            writing,
            marker: PhantomData,
        }
    }

    /// Whether each word of the next value was written in this loan.
    pub fn is_filled(&self) -> bool
        ensures filled { result ≡ all_put self.now.words }
        ensures places { length self.now.words ≡ V.WORDS }
    {
        self.writing.is_filled()
    }

    /// Writes a word of the next value.
    pub fn write_word(&mut self, index: usize, word: u64)
        requires { index < V.WORDS }
        ensures { self.new ≡ with_written self.old index word }
    {
        self.writing.write_word(index, word);
    }

    /// Ends the loan, and publishes nothing.
    pub fn discard(self) -> EntryHandleMut<K, V, P>
        ensures { result ≡ self.handle }
    {
        EntryHandleMut::of(self.writing)
    }

    /// Publishes a value, whatever was written.
    pub fn update_with_copy(self, value: V) -> EntryHandleMut<K, V, P>
        ensures { result ≡ publishing self.handle (V.words_of value) }
    {
        let mut writing = self.writing;
        writing.publish(value);
        EntryHandleMut::of(writing)
    }

    /// Publishes the words that were written in this loan, all of them.
    pub fn assume_init_and_update(self) -> EntryHandleMut<K, V, P>
        requires written { all_put self.words ≡ true }
        ensures { PublishesWritten self result }
    {
        let mut writing = self.writing;
        writing.publish_written();
        EntryHandleMut::of(writing)
    }
}
