//! What a write handle and its loan both have.
ghost use Rattle.std.specs.Prelude.{◌≡◌, ◌<◌, true, Some, map, length, IfOk};
ghost use Rattle.std.specs.Arc.{arc_value};
ghost use Rattle.board_model.specs.LawfulSession.{all_put};
ghost use Rattle.board_model.specs.Replies.{none_put};
ghost use Rattle.board_cells.specs.Ends.{end_seen};
ghost use Rattle.board_handles.specs.Handles.{HasRoom, PublishesWritten, last_receipt, publishing, with_written};

use crate::domain::Domain;
use crate::width::update;
use board_cell::{CellError, Receipt, ThreadedCell, WriterPass};
use board_cells::{SentReceipt, WriteEnd};
use board_layout::ZeroCopySend;
use board_names::EventId;
use board_service::Found;
use std::marker::{Model, PhantomData};
use std::sync::Arc;

/// A write end of an entry whose values are `V`s, with room for a value's words, and for each word of a loan.
///
/// Clauses see both, as those of a loan.
#[derive(Drop)]
pub(crate) struct Writing<V: ZeroCopySend> {
    found: Found,
    cell: Arc<ThreadedCell>,
    pass: WriterPass,
    // What a value is written into before it is published.
    words: Vec<u64>,
    // The words that a loan wrote, each at its place.
    places: Vec<Option<u64>>,
    domain: Domain,
    marker: PhantomData<V>,
}

impl<V: ZeroCopySend> Model for Writing<V> {
    ghost use Rattle.std.specs.Prelude.{◌≡◌, length};
    ghost use Rattle.std.specs.Arc.{arc_value};
    ghost use Rattle.board_cells.specs.Cells.{end_of};
    ghost use Rattle.board_handles.specs.Handles.{LoanSeen, IsEndOf};

    ghost Value = { LoanSeen };

    ghost view = { λ s. record {
      handle = record { found = s.found; held = end_of (arc_value s.cell) s.pass };
      words = s.places.items;
    } };

    ghost invariant = { λ s.
        IsEndOf (arc_value s.cell) s.pass.cell (length s.words.items) V.WORDS
        × (length s.places.items ≡ V.WORDS) };
}

// Writes the words that were put, all of them, into a buffer.
#[tactic(auto, using(crate::proofs::Filling::put_there, crate::proofs::Filling::one_more))]
fn fill(words: &mut [u64], places: &[Option<u64>])
    requires len { length words.old ≡ length places.now }
    requires put { all_put places.now ≡ true }
    ensures { map Some words.new ≡ places.now }
{
    for i in 0..words.len() {
        // Each word was put.
        let Some(word) = places[i] else {
            unreachable!()
        };
        words[i] = word;
    }
}

// Whether each word was put.
fn are_put(places: &[Option<u64>]) -> bool
    ensures { result ≡ all_put places.now }
{
    for word in places {
        if word.is_none() {
            return false;
        }
    }
    true
}

impl<V: ZeroCopySend> Writing<V> {
    pub(crate) fn new(
        found: Found,
        end: WriteEnd,
        words: Vec<u64>,
        places: Vec<Option<u64>>,
        domain: Domain,
    ) -> Writing<V>
        requires buffers { (length words.items ≡ V.WORDS) × (length places.items ≡ V.WORDS) }
        requires width { (arc_value end.cell).width ≡ V.WORDS }
        ensures handle { result.handle ≡ record { found = found; held = end_seen end } }
        ensures width { result.handle.held.cell.width ≡ V.WORDS }
    {
        let WriteEnd { cell, pass } = end;
        Writing {
            found,
            cell,
            pass,
            words,
            places,
            domain,
            marker: PhantomData,
        }
    }

    pub(crate) fn into_parts(self) -> (Found, WriteEnd, Domain)
        ensures found { result.0 ≡ self.handle.found }
        ensures end { end_seen result.1 ≡ self.handle.held }
    {
        let end = WriteEnd {
            cell: self.cell,
            pass: self.pass,
        };
        (self.found, end, self.domain)
    }

    /// Publishes a value.
    pub(crate) fn publish(&mut self, value: V)
        requires room { HasRoom self.old.handle }
        ensures published { self.new.handle ≡ publishing self.old.handle (V.words_of value) }
    {
        value.to_words(self.words.as_mut_slice());
        update::<V>(&self.cell, &mut self.pass, &mut self.words);
    }

    /// Publishes the words that were written, all of them.
    pub(crate) fn publish_written(&mut self)
        requires room { HasRoom self.old.handle }
        requires written { all_put self.old.words ≡ true }
        ensures published { PublishesWritten self.old self.new.handle }
    {
        fill(self.words.as_mut_slice(), self.places.as_slice());
        update::<V>(&self.cell, &mut self.pass, &mut self.words);
    }

    /// Forgets which words were written.
    pub(crate) fn forget_words(&mut self)
        ensures { self.new ≡ record self.old { words = none_put V.WORDS } }
    {
        self.places.as_mut_slice().fill(None);
    }

    /// Whether each word was written.
    pub(crate) fn is_filled(&self) -> bool
        ensures filled { result ≡ all_put self.now.words }
        ensures places { length self.now.words ≡ V.WORDS }
    {
        are_put(self.places.as_slice())
    }

    /// Writes a word.
    pub(crate) fn write_word(&mut self, index: usize, word: u64)
        requires { index < V.WORDS }
        ensures { self.new ≡ with_written self.old index word }
    {
        self.places[index] = Some(word);
    }

    /// How many values were published.
    pub(crate) fn generation(&self) -> u64
        ensures { result ≡ length self.now.handle.held.published }
    {
        self.pass.generation()
    }

    /// Names the last publication.
    pub(crate) fn receipt(&mut self) -> Receipt
        ensures kept { self.new ≡ self.old }
        ensures given { result ≡ last_receipt self.old.handle }
    {
        let cell = &*self.cell;
        cell.receipt(&mut self.pass)
    }

    /// Names the last publication, with the cell.
    pub(crate) fn sent_receipt(&mut self) -> Result<SentReceipt, CellError>
        ensures kept { self.new ≡ self.old }
        ensures of_cell { IfOk result (λ sent. arc_value sent.cell ≡ self.old.handle.held.cell) }
        ensures given { IfOk result (λ sent. sent.receipt ≡ last_receipt self.old.handle) }
    {
        SentReceipt::new(&self.cell, &mut self.pass)
    }

    /// The byte at which the entry's cell begins.
    pub(crate) fn entry_id(&self) -> EventId
        ensures { result ≡ self.now.handle.found.place }
    {
        EventId::new(self.found.place as usize)
    }
}
