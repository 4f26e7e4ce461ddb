//! Read handles of entries.
ghost use Rattle.std.specs.Prelude.{◌≡◌, max, length, IfOk, IfErr};
ghost use Rattle.std.specs.Arc.{arc_value};
ghost use Rattle.board_cell.specs.Passes.{GivesUp, LooksAt, NotesRise};
ghost use Rattle.board_handles.specs.Handles.{GetsValue, GetsValueWithin, IsOfCell};

use crate::blackboard_value::BlackboardValue;
use crate::domain::Domain;
use crate::width::know_width;
use board_cell::{GetAgain, ReaderPass, ThreadedCell};
use board_cells::ReadEnd;
use board_layout::ZeroCopySend;
use board_names::EventId;
use board_service::Found;
use std::marker::{Model, PhantomData};
use std::sync::{Arc, Wait};

// Values of up to so many words are read into a local, so that each word that is used stands in a register, or goes from
// one to where it is kept. For longer ones the cell's call has a loop, which needs their words in memory.
const FEW_WORDS: usize = 32;

/// A read handle of an entry whose values are `V`s.
///
/// Clauses see the thing and the entry that the tables told, the entry's cell, and what its pass knows.
#[derive(Drop)]
pub struct EntryHandle<K, V: ZeroCopySend, P> {
    found: Found,
    cell: Arc<ThreadedCell>,
    pass: ReaderPass,
    // What `get` reads longer values into, and the later tries of shorter ones.
    words: Vec<u64>,
    domain: Domain,
    marker: PhantomData<(K, V, P)>,
}

impl<K, V: ZeroCopySend, P> Model for EntryHandle<K, V, P> {
    ghost use Rattle.std.specs.Prelude.{length};
    ghost use Rattle.std.specs.Arc.{arc_value};
    ghost use Rattle.board_handles.specs.Handles.{ReadSeen, IsEndOf};

    ghost Value = { ReadSeen };

    ghost view = { λ s. record { found = s.found; cell = arc_value s.cell; pass = s.pass } };

    ghost invariant = { λ s. let room = length s.words.items in
        IsEndOf (arc_value s.cell) s.pass.cell room V.WORDS };
}

impl<K, V: ZeroCopySend, P> EntryHandle<K, V, P> {
    pub(crate) fn new(
        found: Found,
        end: ReadEnd,
        words: Vec<u64>,
        domain: Domain,
    ) -> EntryHandle<K, V, P>
        requires buffer { length words.items ≡ V.WORDS }
        requires width { (arc_value end.cell).width ≡ V.WORDS }
        ensures handle { result
            ≡ record { found = found; cell = arc_value end.cell; pass = end.pass } }
        ensures tied { IsOfCell result V.WORDS }
    {
        let ReadEnd { cell, pass } = end;
        EntryHandle {
            found,
            cell,
            pass,
            words,
            domain,
            marker: PhantomData,
        }
    }

    pub(crate) fn into_parts(self) -> (Found, Domain)
        ensures { result.0 ≡ self.found }
    {
        (self.found, self.domain)
    }

    /// Reads the value, in as many tries as it takes.
    pub fn get<R: Wait>(&mut self, rt: &R) -> BlackboardValue<V>
        ensures kept { self.new ≡ record self.old { pass = self.new.pass } }
        ensures got { GetsValue V.value_of result self.old.pass self.new.pass }
        ensures rises { NotesRise self.new.pass.notes }
    {
        let cell = &*self.cell;
        if V::WORDS <= FEW_WORDS {
            let mut local = [0; FEW_WORDS];
            let words = &mut local[..V::WORDS];
            let generation = cell.get_into(rt, &mut self.pass, words, &mut self.words);
            return BlackboardValue::new(V::from_words(words), generation);
        }
        know_width::<V>(cell, &self.words);
        let generation = cell.get(rt, &mut self.pass, &mut self.words);
        BlackboardValue::new(V::from_words(self.words.as_slice()), generation)
    }

    /// Reads the value in at most this many tries, 0 counted as 1. Takes no memory, and waits for nobody.
    ///
    /// # Errors
    /// `GetAgain` where the counter rose in each of the tries.
    pub fn try_get(&mut self, tries: u32) -> Result<BlackboardValue<V>, GetAgain>
        ensures kept { self.new ≡ record self.old { pass = self.new.pass } }
        ensures ok { let most = max tries 1 in
            IfOk result (λ v. GetsValueWithin most V.value_of v self.old.pass self.new.pass) }
        ensures again { let most = max tries 1 in
            IfErr result (λ e. GivesUp most e.before e.after self.old.pass self.new.pass) }
        ensures rises { NotesRise self.new.pass.notes }
    {
        let cell = &*self.cell;
        if V::WORDS <= FEW_WORDS {
            let mut local = [0; FEW_WORDS];
            let words = &mut local[..V::WORDS];
            return match cell.try_get_into(&mut self.pass, tries, words, &mut self.words) {
                Ok(generation) => Ok(BlackboardValue::new(V::from_words(words), generation)),
                Err(again) => Err(again),
            };
        }
        know_width::<V>(cell, &self.words);
        match cell.try_get(&mut self.pass, tries, &mut self.words) {
            Ok(generation) => Ok(BlackboardValue::new(
                V::from_words(self.words.as_slice()),
                generation,
            )),
            Err(again) => Err(again),
        }
    }

    /// Whether the entry is still at the generation of this value. Looks at nothing else of it.
    pub fn is_up_to_date(&mut self, value: &BlackboardValue<V>) -> bool
        ensures kept { self.new ≡ record self.old { pass = self.new.pass } }
        ensures looked { LooksAt value.now.generation result self.old.pass self.new.pass }
    {
        let generation = value.generation();
        let cell = &*self.cell;
        cell.fresh(&mut self.pass, generation)
    }

    /// The id of the entry: the byte at which its cell begins among those of its board.
    pub fn entry_id(&self) -> EventId
        ensures { result ≡ self.now.found.place }
    {
        EventId::new(self.found.place as usize)
    }
}
