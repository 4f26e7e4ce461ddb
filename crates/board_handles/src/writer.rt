//! Writers of a board, and the write handles that they make.
ghost use Rattle.std.specs.Prelude.{◌≡◌, true, Some, length, IfOk, OnOk, OnErr};
ghost use Rattle.board_layout.specs.Answer.{Answers, Refuses, with_value};
ghost use Rattle.board_layout.specs.Bytes.{details};
ghost use Rattle.board_layout.specs.Keys.{is_key};
ghost use Rattle.board_service.specs.Domain as calls;
ghost use Rattle.board_service.specs.Facts.{IsHeldBeside};
ghost use Rattle.board_cells.specs.Cells.{end_width, fits};
ghost use Rattle.board_handles.specs.BoardEnds as ends;
ghost use Rattle.board_handles.specs.LentForms as lent;

use crate::board_ends::{has_parked, take_end_of};
use crate::domain::Domain;
use crate::loan::EntryValueUninit;
use crate::port_ids::UniqueWriterId;
use crate::release::{give_up, give_up_writing};
use crate::state::DomainState;
use crate::write_handle::EntryHandleMut;
use crate::writing::Writing;
use board_cells::BoardCells;
use board_layout::{BoardKey, TypeDetail, TypeVariant, ZeroCopySend};
use board_names::{EntryHandleMutError, WriterCreateError};
use board_service::{DomainCore, Found, Made, ThingId, ThingKind};
use std::alloc::{AllocError, Global};
use std::marker::{Model, PhantomData};
use std::sync::Wait;

/// What a writer is made by, while the board's factory isn't given up. Clauses see the factory's number.
#[derive(Drop)]
pub struct PortFactoryWriter<'f, K, P> {
    factory: ThingId,
    alloc: Global,
    domain: Domain,
    marker: PhantomData<(&'f (), K, P)>,
}

impl<'f, K, P> Model for PortFactoryWriter<'f, K, P> {
    ghost use Rattle.std.specs.Prelude.{ℕ};

    ghost Value = { ℕ };

    ghost view = { λ s. s.factory };
}

/// The writer of a board whose keys are `K`s. Clauses see its thing and its number.
#[derive(Drop)]
pub struct Writer<K, P> {
    made: Made,
    alloc: Global,
    domain: Domain,
    marker: PhantomData<(K, P)>,
}

impl<K, P> Model for Writer<K, P> {
    ghost use Rattle.board_service.specs.declared.made.Made.{Made};

    ghost Value = { Made };

    ghost view = { λ s. s.made };
}

// A writer by the number of a factory, where that is held.
fn new_writer<K: BoardKey>(
    state: &mut DomainState,
    factory: ThingId,
) -> Result<Made, WriterCreateError>
    ensures answer { let keys = details K.type_bytes K.SIZE K.ALIGNMENT in
        let answer = lent.writer_made state.old.tables keys factory in
        Answers result WriterCreateError.OutOfMemory answer }
    ensures refused { let keys = details K.type_bytes K.SIZE K.ALIGNMENT in
        Refuses result (lent.writer_made state.old.tables keys factory) }
    ensures ok { let before = state.old.tables in
        OnOk result (state.new.tables ≡ calls.after_writer before (calls.held before factory)) }
    ensures held { let IsBeside = IsHeldBeside state.old.tables state.new.tables in
        IfOk result (λ m. IsBeside factory m.thing ThingKind.Writer) }
    ensures err { OnErr result (state.new.tables ≡ state.old.tables) }
    ensures nodes { state.new.nodes ≡ state.old.nodes }
{
    if !state.tables.is_held::<K>(factory, ThingKind::Factory) {
        return Err(WriterCreateError::ThingUnknown(factory.0));
    }
    state.tables.writer(factory)
}

impl<'f, K: BoardKey, P> PortFactoryWriter<'f, K, P> {
    /// What makes writers of the board of the factory with this number, in this domain.
    pub fn new(alloc: Global, factory: ThingId, domain: Domain) -> PortFactoryWriter<'f, K, P>
        ensures { result ≡ factory }
    {
        PortFactoryWriter {
            factory,
            alloc,
            domain,
            marker: PhantomData,
        }
    }

    fn into_writer(self, made: Made) -> Writer<K, P>
        ensures { result ≡ made }
    {
        Writer {
            made,
            alloc: self.alloc,
            domain: self.domain,
            marker: PhantomData,
        }
    }

    /// `create` over the domain's state itself.
    ///
    /// # Errors
    /// `ThingUnknown` where the factory isn't held; else `ExceedsMaxSupportedWriters` where the board has as many writers as it may, each with a handle or itself; `NumbersSpent`; `OutOfMemory`. All stays as it was.
    pub fn create_in(self, state: &mut DomainState) -> Result<Writer<K, P>, WriterCreateError>
        ensures answer { let keys = details K.type_bytes K.SIZE K.ALIGNMENT in
            let answer = lent.writer_made state.old.tables keys self.entry in
            Answers result WriterCreateError.OutOfMemory answer }
        ensures refused { let keys = details K.type_bytes K.SIZE K.ALIGNMENT in
            Refuses result (lent.writer_made state.old.tables keys self.entry) }
        ensures ok { let before = state.old.tables in
            OnOk result (state.new.tables ≡ calls.after_writer before (calls.held before self.entry)) }
        ensures held { let IsBeside = IsHeldBeside state.old.tables state.new.tables in
            IfOk result (λ w. IsBeside self.entry w.thing ThingKind.Writer) }
        ensures err { OnErr result (state.new.tables ≡ state.old.tables) }
        ensures nodes { state.new.nodes ≡ state.old.nodes }
    {
        match new_writer::<K>(state, self.factory) {
            Ok(made) => Ok(self.into_writer(made)),
            Err(why) => Err(why),
        }
    }

    /// Makes a writer. The answer is that of `create_in` over some state.
    ///
    /// # Errors
    /// As for `create_in`.
    pub fn create<R: Wait>(self, rt: &R) -> Result<Writer<K, P>, WriterCreateError>
        ensures answer { let keys = details K.type_bytes K.SIZE K.ALIGNMENT in
            lent.MakesWriter result keys self.entry }
    {
        let made = new_writer::<K>(&mut self.domain.lock(rt), self.factory);
        match made {
            Ok(made) => Ok(self.into_writer(made)),
            Err(why) => Err(why),
        }
    }
}

// What a write handle takes memory for.
#[derive(Drop)]
struct Room {
    words: Vec<u64>,
    places: Vec<Option<u64>>,
    domain: Domain,
}

// The room of a write handle whose values have so many words.
fn room_for(alloc: Global, owner: &Domain, width: usize) -> Result<Room, AllocError>
    ensures words { IfOk result (λ room. length room.words.items ≡ width) }
    ensures places { IfOk result (λ room. length room.places.items ≡ width) }
{
    let words = vec![in alloc; 0; width]?;
    let places = vec![in alloc; None; width]?;
    let domain = owner.share()?;
    Ok(Room {
        words,
        places,
        domain,
    })
}

// The write handle of an entry, which takes the end that is parked there.
fn take_handle<K, V: ZeroCopySend, P>(
    tables: &mut DomainCore<BoardCells>,
    board: u64,
    found: Found,
    room: Room,
) -> EntryHandleMut<K, V, P>
    requires words { length room.words.items ≡ V.WORDS }
    requires places { length room.places.items ≡ V.WORDS }
    requires parked { let end = ends.parked_of tables.old board found.entry in
        fits V.WORDS end_width end ≡ true }
    ensures found { result.found ≡ found }
    ensures end { ends.parked_of tables.old board found.entry ≡ Some result.held }
    ensures after { tables.new ≡ ends.taken tables.old board found.entry }
    ensures width { result.held.cell.width ≡ V.WORDS }
{
    let Room {
        words,
        places,
        domain,
    } = room;
    match take_end_of(tables, board, found.entry) {
        Some(end) => EntryHandleMut::of(Writing::new(found, end, words, places, domain)),
        // An end is parked there.
        None => unreachable!(),
    }
}

impl<K: BoardKey, P> Writer<K, P> {
    /// Its number.
    pub fn id(&self) -> UniqueWriterId
        ensures { result.0 ≡ self.now.number }
    {
        UniqueWriterId(self.made.number)
    }

    /// `entry` over the domain's state itself.
    ///
    /// # Errors
    /// `ThingUnknown` where this writer isn't held; else `EntryDoesNotExist` where no entry has an equal key, or its values are of another type; `HandleAlreadyExists` where the entry has a write handle or a loan; `NumbersSpent`; `OutOfMemory`. `ThingUnknown` too, before memory is taken, where no write end with as many words as a `V` is parked at the entry. All stays as it was.
    pub fn entry_in<V: ZeroCopySend>(
        &self,
        state: &mut DomainState,
        key: &K,
    ) -> Result<EntryHandleMut<K, V, P>, EntryHandleMutError>
        ensures answer { let keys = details K.type_bytes K.SIZE K.ALIGNMENT in
            let is_it = is_key K.eq K.value_of K.SIZE K.WORDS key.now in
            let values = details V.type_bytes V.SIZE V.ALIGNMENT in
            let asked = lent.asked keys is_it values V.WORDS in
            lent.AnswersWriter result state.old.tables asked self.now.thing }
        ensures refused { let keys = details K.type_bytes K.SIZE K.ALIGNMENT in
            let is_it = is_key K.eq K.value_of K.SIZE K.WORDS key.now in
            let values = details V.type_bytes V.SIZE V.ALIGNMENT in
            let asked = lent.asked keys is_it values V.WORDS in
            lent.RefusesWriter result state.old.tables asked self.now.thing }
        ensures ok { let keys = details K.type_bytes K.SIZE K.ALIGNMENT in
            let is_it = is_key K.eq K.value_of K.SIZE K.WORDS key.now in
            let values = details V.type_bytes V.SIZE V.ALIGNMENT in
            let asked = lent.asked keys is_it values V.WORDS in
            let after = lent.with_write_taken state.old.tables asked self.now.thing in
            OnOk result (state.new.tables ≡ after) }
        ensures held { let IsBeside = IsHeldBeside state.old.tables state.new.tables in
            IfOk result (λ h. IsBeside self.now.thing h.found.thing ThingKind.WriteHandle) }
        ensures err { OnErr result (state.new.tables ≡ state.old.tables) }
        ensures width { IfOk result (λ h. h.held.cell.width ≡ V.WORDS) }
        ensures nodes { state.new.nodes ≡ state.old.nodes }
    {
        let writer = self.made.thing;
        if !state.tables.is_held::<K>(writer, ThingKind::Writer) {
            return Err(EntryHandleMutError::ThingUnknown(writer.0));
        }
        let board = state.tables.board_of(writer);
        let value = TypeDetail::new::<V>(TypeVariant::FixedSize);
        let found = match state.tables.entry_mut_answer::<K>(writer, key, &value) {
            Ok(found) => found,
            Err(why) => return Err(why),
        };
        if !has_parked(&state.tables, board, found.entry, V::WORDS as u64) {
            return Err(EntryHandleMutError::ThingUnknown(writer.0));
        }
        let Ok(room) = room_for(self.alloc, &self.domain, V::WORDS) else {
            return Err(EntryHandleMutError::OutOfMemory);
        };
        // All other memory is taken, so the tables change last.
        match state.tables.entry_mut::<K>(writer, key, &value) {
            Ok(_) => Ok(take_handle(&mut state.tables, board, found, room)),
            Err(why) => Err(why),
        }
    }

    /// Makes the write handle of the entry with this key and values of type `V`. The answer is that of `entry_in` over some state.
    ///
    /// # Errors
    /// As for `entry_in`.
    pub fn entry<V: ZeroCopySend, R: Wait>(
        &self,
        rt: &R,
        key: &K,
    ) -> Result<EntryHandleMut<K, V, P>, EntryHandleMutError>
        ensures answer { let keys = details K.type_bytes K.SIZE K.ALIGNMENT in
            let is_it = is_key K.eq K.value_of K.SIZE K.WORDS key.now in
            let values = details V.type_bytes V.SIZE V.ALIGNMENT in
            let asked = lent.asked keys is_it values V.WORDS in
            lent.FindsToWrite result asked self.now.thing }
        ensures width { IfOk result (λ h. h.held.cell.width ≡ V.WORDS) }
    {
        let mut state = self.domain.lock(rt);
        self.entry_in(&mut state, key)
    }

    /// `release` over the domain's state itself, which is that of the writer's own domain, also where other calls on the writer were
    /// typed ones. A state where no such writer is held by its number is left as it is.
    pub fn release_in(self, state: &mut DomainState)
        ensures tables { let keys = details K.type_bytes K.SIZE K.ALIGNMENT in
            state.new.tables ≡ lent.given_up state.old.tables keys self.thing ThingKind.Writer }
        ensures nodes { state.new.nodes ≡ state.old.nodes }
    {
        give_up::<K>(&mut state.tables, self.made.thing, ThingKind::Writer);
    }

    /// Gives the writer up, in the domain that it came from. Handles that it made go on, and keep its slot. A writer that a
    /// lent form made over another state is given up by `release_in` over that state.
    pub fn release<R: Wait>(self, rt: &R) {
        let mut state = self.domain.lock(rt);
        give_up::<K>(&mut state.tables, self.made.thing, ThingKind::Writer);
    }
}

impl<K: BoardKey, V: ZeroCopySend, P> EntryHandleMut<K, V, P> {
    /// `release` over the domain's state itself, which is that of the handle's own domain, also where other calls on the handle were
    /// typed ones. A state where no such handle is held by its number is left as it is.
    pub fn release_in(self, state: &mut DomainState)
        ensures tables { let keys = details K.type_bytes K.SIZE K.ALIGNMENT in
            state.new.tables ≡ lent.write_given_up state.old.tables keys self }
        ensures nodes { state.new.nodes ≡ state.old.nodes }
    {
        let (found, end, _domain) = self.into_parts();
        give_up_writing::<K>(&mut state.tables, found, end);
    }

    /// Gives the handle up, in the domain that it came from, and parks its write end at the entry. The end goes where the board
    /// is gone or an end is parked there. A handle that a lent form made over another state is given up by `release_in` over
    /// that state.
    pub fn release<R: Wait>(self, rt: &R) {
        let (found, end, domain) = self.into_parts();
        let mut state = domain.lock(rt);
        give_up_writing::<K>(&mut state.tables, found, end);
    }
}

impl<K: BoardKey, V: ZeroCopySend, P> EntryValueUninit<K, V, P> {
    /// `release` over the domain's state itself, which is that of the loan's own domain, also where other calls on the loan were
    /// typed ones. A state where no such loan is held by its number is left as it is.
    pub fn release_in(self, state: &mut DomainState)
        ensures tables { let keys = details K.type_bytes K.SIZE K.ALIGNMENT in
            state.new.tables ≡ lent.write_given_up state.old.tables keys self.handle }
        ensures nodes { state.new.nodes ≡ state.old.nodes }
    {
        self.discard().release_in(state);
    }

    /// Gives the loan up with its handle, in the domain that it came from, and publishes nothing. A loan that a lent form made over
    /// another state is given up by `release_in` over that state.
    pub fn release<R: Wait>(self, rt: &R) {
        self.discard().release(rt);
    }
}
