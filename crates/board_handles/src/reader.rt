//! Readers of a board, and the read handles that they make.
ghost use Rattle.std.specs.Prelude.{◌≡◌, IfOk, OnOk, OnErr};
ghost use Rattle.board_layout.specs.Answer.{Answers, Refuses, with_value};
ghost use Rattle.board_layout.specs.Bytes.{details};
ghost use Rattle.board_layout.specs.Keys.{is_key};
ghost use Rattle.board_service.specs.Domain as calls;
ghost use Rattle.board_service.specs.Facts.{IsHeldBeside};
ghost use Rattle.board_cells.specs.Cells.{cell_width};
ghost use Rattle.board_cells.specs.Ends.{IsUnread};
ghost use Rattle.board_handles.specs.BoardEnds as ends;
ghost use Rattle.board_handles.specs.Handles.{IsOfCell};
ghost use Rattle.board_handles.specs.LentForms as lent;

use crate::board_ends::{has_cell, read_end_of};
use crate::domain::Domain;
use crate::port_ids::UniqueReaderId;
use crate::read_handle::EntryHandle;
use crate::release::give_up;
use crate::state::DomainState;
use board_cell::CellError;
use board_cells::BoardCells;
use board_layout::{BoardKey, TypeDetail, TypeVariant, ZeroCopySend};
use board_names::{EntryHandleError, ReaderCreateError};
use board_service::{DomainCore, Found, Made, ThingId, ThingKind};
use std::alloc::Global;
use std::marker::{Model, PhantomData};
use std::sync::Wait;

/// What a reader is made by, while the board's factory isn't given up. Clauses see the factory's number.
#[derive(Drop)]
pub struct PortFactoryReader<'f, K, P> {
    factory: ThingId,
    alloc: Global,
    domain: Domain,
    marker: PhantomData<(&'f (), K, P)>,
}

impl<'f, K, P> Model for PortFactoryReader<'f, K, P> {
    ghost use Rattle.std.specs.Prelude.{ℕ};

    ghost Value = { ℕ };

    ghost view = { λ s. s.factory };
}

/// A reader of a board whose keys are `K`s. Clauses see its thing and its number.
#[derive(Drop)]
pub struct Reader<K, P> {
    made: Made,
    alloc: Global,
    domain: Domain,
    marker: PhantomData<(K, P)>,
}

impl<K, P> Model for Reader<K, P> {
    ghost use Rattle.board_service.specs.declared.made.Made.{Made};

    ghost Value = { Made };

    ghost view = { λ s. s.made };
}

// A reader by the number of a factory, where that is held.
fn new_reader<K: BoardKey>(
    state: &mut DomainState,
    factory: ThingId,
) -> Result<Made, ReaderCreateError>
    ensures answer { let keys = details K.type_bytes K.SIZE K.ALIGNMENT in
        let answer = lent.reader_made state.old.tables keys factory in
        Answers result ReaderCreateError.OutOfMemory answer }
    ensures refused { let keys = details K.type_bytes K.SIZE K.ALIGNMENT in
        Refuses result (lent.reader_made state.old.tables keys factory) }
    ensures ok { let before = state.old.tables in
        OnOk result (state.new.tables ≡ calls.after_reader before (calls.held before factory)) }
    ensures held { let IsBeside = IsHeldBeside state.old.tables state.new.tables in
        IfOk result (λ m. IsBeside factory m.thing ThingKind.Reader) }
    ensures err { OnErr result (state.new.tables ≡ state.old.tables) }
    ensures nodes { state.new.nodes ≡ state.old.nodes }
{
    if !state.tables.is_held::<K>(factory, ThingKind::Factory) {
        return Err(ReaderCreateError::ThingUnknown(factory.0));
    }
    state.tables.reader(factory)
}

impl<'f, K: BoardKey, P> PortFactoryReader<'f, K, P> {
    /// What makes readers of the board of the factory with this number, in this domain.
    pub fn new(alloc: Global, factory: ThingId, domain: Domain) -> PortFactoryReader<'f, K, P>
        ensures { result ≡ factory }
    {
        PortFactoryReader {
            factory,
            alloc,
            domain,
            marker: PhantomData,
        }
    }

    fn into_reader(self, made: Made) -> Reader<K, P>
        ensures { result ≡ made }
    {
        Reader {
            made,
            alloc: self.alloc,
            domain: self.domain,
            marker: PhantomData,
        }
    }

    /// `create` over the domain's state itself.
    ///
    /// # Errors
    /// `ThingUnknown` where the factory isn't held; else `ExceedsMaxSupportedReaders` where the board has as many readers as it may; `NumbersSpent`; `OutOfMemory`. All stays as it was.
    pub fn create_in(self, state: &mut DomainState) -> Result<Reader<K, P>, ReaderCreateError>
        ensures answer { let keys = details K.type_bytes K.SIZE K.ALIGNMENT in
            let answer = lent.reader_made state.old.tables keys self.entry in
            Answers result ReaderCreateError.OutOfMemory answer }
        ensures refused { let keys = details K.type_bytes K.SIZE K.ALIGNMENT in
            Refuses result (lent.reader_made state.old.tables keys self.entry) }
        ensures ok { let before = state.old.tables in
            OnOk result (state.new.tables ≡ calls.after_reader before (calls.held before self.entry)) }
        ensures held { let IsBeside = IsHeldBeside state.old.tables state.new.tables in
            IfOk result (λ r. IsBeside self.entry r.thing ThingKind.Reader) }
        ensures err { OnErr result (state.new.tables ≡ state.old.tables) }
        ensures nodes { state.new.nodes ≡ state.old.nodes }
    {
        match new_reader::<K>(state, self.factory) {
            Ok(made) => Ok(self.into_reader(made)),
            Err(why) => Err(why),
        }
    }

    /// Makes a reader. The answer is that of `create_in` over some state.
    ///
    /// # Errors
    /// As for `create_in`.
    pub fn create<R: Wait>(self, rt: &R) -> Result<Reader<K, P>, ReaderCreateError>
        ensures answer { let keys = details K.type_bytes K.SIZE K.ALIGNMENT in
            lent.MakesReader result keys self.entry }
    {
        let made = new_reader::<K>(&mut self.domain.lock(rt), self.factory);
        match made {
            Ok(made) => Ok(self.into_reader(made)),
            Err(why) => Err(why),
        }
    }
}

// The read handle of an entry that was found for a reader. The tables stay as they are.
fn read_handle_of<K, V: ZeroCopySend, P>(
    alloc: Global,
    owner: &Domain,
    tables: &mut DomainCore<BoardCells>,
    reader: ThingId,
    board: u64,
    found: Found,
) -> Result<EntryHandle<K, V, P>, EntryHandleError>
    ensures same { tables.new ≡ tables.old }
    ensures answer { let unknown = EntryHandleError.ThingUnknown reader in
        let cell = ends.cell_of tables.old board found.entry in
        let answer = lent.fitting unknown V.WORDS cell_width found cell in
        Answers (with_value lent.read_given result) EntryHandleError.OutOfMemory answer }
    ensures refused { let unknown = EntryHandleError.ThingUnknown reader in
        let cell = ends.cell_of tables.old board found.entry in
        let answer = lent.fitting unknown V.WORDS cell_width found cell in
        Refuses (with_value lent.read_given result) answer }
    ensures found { IfOk result (λ h. h.found ≡ found) }
    ensures fresh { IfOk result (λ h. IsUnread h.pass) }
    ensures tied { IfOk result (λ h. IsOfCell h V.WORDS) }
{
    if !has_cell(tables, board, found.entry, V::WORDS as u64) {
        return Err(EntryHandleError::ThingUnknown(reader.0));
    }
    let Ok(words) = vec![in alloc; 0; V::WORDS] else {
        return Err(EntryHandleError::OutOfMemory);
    };
    let Ok(domain) = owner.share() else {
        return Err(EntryHandleError::OutOfMemory);
    };
    match read_end_of(tables, board, found.entry) {
        Ok(Some(end)) => Ok(EntryHandle::new(found, end, words, domain)),
        // The entry has a cell.
        Ok(None) => unreachable!(),
        Err(CellError::OutOfMemory) => Err(EntryHandleError::OutOfMemory),
    }
}

impl<K: BoardKey, P> Reader<K, P> {
    /// Its number.
    pub fn id(&self) -> UniqueReaderId
        ensures { result.0 ≡ self.now.number }
    {
        UniqueReaderId(self.made.number)
    }

    /// `entry` over the domain's state itself.
    ///
    /// # Errors
    /// `ThingUnknown` where this reader isn't held; else `EntryDoesNotExist` where no entry has an equal key, or its values are of another type; `NumbersSpent`; `OutOfMemory`. `ThingUnknown` too, before memory is taken, where the board has no cell of the entry with as many words as a `V`. All stays as it was.
    pub fn entry_in<V: ZeroCopySend>(
        &self,
        state: &mut DomainState,
        key: &K,
    ) -> Result<EntryHandle<K, V, P>, EntryHandleError>
        ensures answer { let keys = details K.type_bytes K.SIZE K.ALIGNMENT in
            let is_it = is_key K.eq K.value_of K.SIZE K.WORDS key.now in
            let values = details V.type_bytes V.SIZE V.ALIGNMENT in
            let asked = lent.asked keys is_it values V.WORDS in
            lent.AnswersReader result state.old.tables asked self.now.thing }
        ensures refused { let keys = details K.type_bytes K.SIZE K.ALIGNMENT in
            let is_it = is_key K.eq K.value_of K.SIZE K.WORDS key.now in
            let values = details V.type_bytes V.SIZE V.ALIGNMENT in
            let asked = lent.asked keys is_it values V.WORDS in
            lent.RefusesReader result state.old.tables asked self.now.thing }
        ensures ok { let keys = details K.type_bytes K.SIZE K.ALIGNMENT in
            let is_it = is_key K.eq K.value_of K.SIZE K.WORDS key.now in
            let values = details V.type_bytes V.SIZE V.ALIGNMENT in
            let asked = lent.asked keys is_it values V.WORDS in
            let after = lent.with_read state.old.tables asked self.now.thing in
            OnOk result (state.new.tables ≡ after) }
        ensures held { let IsBeside = IsHeldBeside state.old.tables state.new.tables in
            IfOk result (λ h. IsBeside self.now.thing h.found.thing ThingKind.ReadHandle) }
        ensures err { OnErr result (state.new.tables ≡ state.old.tables) }
        ensures fresh { IfOk result (λ h. IsUnread h.pass) }
        ensures tied { IfOk result (λ h. IsOfCell h V.WORDS) }
        ensures nodes { state.new.nodes ≡ state.old.nodes }
    {
        let reader = self.made.thing;
        if !state.tables.is_held::<K>(reader, ThingKind::Reader) {
            return Err(EntryHandleError::ThingUnknown(reader.0));
        }
        let board = state.tables.board_of(reader);
        let value = TypeDetail::new::<V>(TypeVariant::FixedSize);
        let found = match state.tables.entry_answer::<K>(reader, key, &value) {
            Ok(found) => found,
            Err(why) => return Err(why),
        };
        let handle = match read_handle_of(
            self.alloc,
            &self.domain,
            &mut state.tables,
            reader,
            board,
            found,
        ) {
            Ok(handle) => handle,
            Err(why) => return Err(why),
        };
        // All other memory is taken, so the tables change last.
        match state.tables.entry::<K>(reader, key, &value) {
            Ok(_) => Ok(handle),
            Err(why) => Err(why),
        }
    }

    /// Makes a read handle of the entry with this key and values of type `V`. The answer is that of `entry_in` over some state.
    ///
    /// # Errors
    /// As for `entry_in`.
    pub fn entry<V: ZeroCopySend, R: Wait>(
        &self,
        rt: &R,
        key: &K,
    ) -> Result<EntryHandle<K, V, P>, EntryHandleError>
        ensures answer { let keys = details K.type_bytes K.SIZE K.ALIGNMENT in
            let is_it = is_key K.eq K.value_of K.SIZE K.WORDS key.now in
            let values = details V.type_bytes V.SIZE V.ALIGNMENT in
            let asked = lent.asked keys is_it values V.WORDS in
            lent.FindsToRead result asked self.now.thing }
        ensures fresh { IfOk result (λ h. IsUnread h.pass) }
        ensures tied { IfOk result (λ h. IsOfCell h V.WORDS) }
    {
        let mut state = self.domain.lock(rt);
        self.entry_in(&mut state, key)
    }

    /// `release` over the domain's state itself, which is that of the reader's own domain, also where other calls on the reader were
    /// typed ones. A state where no such reader is held by its number is left as it is.
    pub fn release_in(self, state: &mut DomainState)
        ensures tables { let keys = details K.type_bytes K.SIZE K.ALIGNMENT in
            state.new.tables ≡ lent.given_up state.old.tables keys self.thing ThingKind.Reader }
        ensures nodes { state.new.nodes ≡ state.old.nodes }
    {
        give_up::<K>(&mut state.tables, self.made.thing, ThingKind::Reader);
    }

    /// Gives the reader up, in the domain that it came from. Handles that it made go on. A reader that a lent form made over
    /// another state is given up by `release_in` over that state.
    pub fn release<R: Wait>(self, rt: &R) {
        let mut state = self.domain.lock(rt);
        give_up::<K>(&mut state.tables, self.made.thing, ThingKind::Reader);
    }
}

impl<K: BoardKey, V: ZeroCopySend, P> EntryHandle<K, V, P> {
    /// `release` over the domain's state itself, which is that of the handle's own domain, also where other calls on the handle were
    /// typed ones. A state where no such handle is held by its number is left as it is.
    pub fn release_in(self, state: &mut DomainState)
        ensures tables { let keys = details K.type_bytes K.SIZE K.ALIGNMENT in
            let thing = self.found.thing in
            state.new.tables ≡ lent.given_up state.old.tables keys thing ThingKind.ReadHandle }
        ensures nodes { state.new.nodes ≡ state.old.nodes }
    {
        let (found, _domain) = self.into_parts();
        give_up::<K>(&mut state.tables, found.thing, ThingKind::ReadHandle);
    }

    /// Gives the handle up, in the domain that it came from. A handle that a lent form made over another state is given up by
    /// `release_in` over that state.
    pub fn release<R: Wait>(self, rt: &R) {
        let (found, domain) = self.into_parts();
        let mut state = domain.lock(rt);
        give_up::<K>(&mut state.tables, found.thing, ThingKind::ReadHandle);
    }
}
