//! Write handles of entries.
ghost use Rattle.std.specs.Prelude.{◌≡◌, length, IfOk};
ghost use Rattle.std.specs.Arc.{arc_value};
ghost use Rattle.board_model.specs.Replies.{none_put};
ghost use Rattle.board_cells.specs.Ends.{end_seen};
ghost use Rattle.board_handles.specs.Handles.{publishing, last_receipt, HasRoom};

use crate::domain::Domain;
use crate::loan::EntryValueUninit;
use crate::writing::Writing;
use board_cell::{CellError, Receipt};
use board_cells::{SentReceipt, WriteEnd};
use board_layout::ZeroCopySend;
use board_names::EventId;
use board_service::Found;
use std::marker::{Model, PhantomData};

/// The write handle of an entry whose values are `V`s.
///
/// Clauses see the thing and the entry that the tables told, and the write end of the entry's cell. None of its calls but `sent_receipt` takes memory, and none but `release` waits.
#[derive(Drop)]
pub struct EntryHandleMut<K, V: ZeroCopySend, P> {
    writing: Writing<V>,
    marker: PhantomData<(K, P)>,
}

impl<K, V: ZeroCopySend, P> Model for EntryHandleMut<K, V, P> {
    ghost use Rattle.board_handles.specs.Handles.{WriteSeen};

    ghost Value = { WriteSeen };

    ghost view = { λ s. s.writing.handle };
}

impl<K, V: ZeroCopySend, P> EntryHandleMut<K, V, P> {
    // The handle that has this.
    pub(crate) fn of(writing: Writing<V>) -> EntryHandleMut<K, V, P>
        ensures { result ≡ writing.handle }
    {
        EntryHandleMut {
            writing,
            marker: PhantomData,
        }
    }

    pub(crate) fn into_parts(self) -> (Found, WriteEnd, Domain)
        ensures found { result.0 ≡ self.found }
        ensures end { end_seen result.1 ≡ self.held }
    {
        self.writing.into_parts()
    }

    /// Publishes a value.
    pub fn update_with_copy(&mut self, value: V)
        requires room { HasRoom self.old }
        ensures { self.new ≡ publishing self.old (V.words_of value) }
    {
        self.writing.publish(value);
    }

    /// Goes out as a loan, of which no word is written.
    pub fn loan_uninit(self) -> EntryValueUninit<K, V, P>
        requires room { HasRoom self }
        ensures { result ≡ record { handle = self; words = none_put V.WORDS } }
    {
        let mut writing = self.writing;
        writing.forget_words();
        EntryValueUninit::of(writing)
    }

    /// How many values were published, the opening one among them.
    pub fn generation(&self) -> u64
        ensures { result ≡ length self.now.held.published }
    {
        self.writing.generation()
    }

    /// Names the last publication, for a reader that is to know of it.
    pub fn receipt(&mut self) -> Receipt
        ensures kept { self.new ≡ self.old }
        ensures given { result ≡ last_receipt self.old }
    {
        self.writing.receipt()
    }

    /// Names the last publication, for a reader that is to know of it. It goes with its cell, so it can be sent through a lock or a channel.
    ///
    /// # Errors
    /// `OutOfMemory` where one more owner of the cell is refused.
    pub fn sent_receipt(&mut self) -> Result<SentReceipt, CellError>
        ensures kept { self.new ≡ self.old }
        ensures of_cell { IfOk result (λ sent. arc_value sent.cell ≡ self.old.held.cell) }
        ensures given { IfOk result (λ sent. sent.receipt ≡ last_receipt self.old) }
    {
        self.writing.sent_receipt()
    }

    /// The id of the entry: the byte at which its cell begins among those of its board.
    pub fn entry_id(&self) -> EventId
        ensures { result ≡ self.now.found.place }
    {
        self.writing.entry_id()
    }
}
