//! A domain whose nodes are the parties of a script.
ghost use Rattle.std.specs.Prelude.{◌≡◌, true, IfOk, OnErr, IsSome, length, option_map, is_some};
ghost use Rattle.board_model.specs.LawfulSession.{is_typed_key};
ghost use Rattle.board_model.specs.LineGrammar.{AreAttributes, AreRequirements, is_board_name};
ghost use Rattle.board_model.specs.Replies as replies;
ghost use Rattle.board_model.specs.Tables as tables;
ghost use Rattle.board_model.specs.Things.{of_kind};
ghost use Rattle.board_service.specs.Domain as domain;
ghost use Rattle.script_parties.specs.Overview.{keys_shown};
ghost use Rattle.script_parties.specs.Parties.{HasWord, IsCreate, IsEntry, IsEntryMut, IsFew, IsLoaded, IsOpen, IsReader, IsReleased, IsStored, IsWriter, IsStandingThing, board_words, no_parties};
ghost use Rattle.script_parties.specs.Shown.{HasKeyType, found_of, id_shown, info_shown, party_thing, renamed};
ghost use Rattle.script_parties.specs.Refusals.{IsUnrefused, create_refusal, entry_mut_refusal, entry_refusal, open_refusal, reader_refusal, writer_refusal};

mod making;
mod refusals;

use crate::adding::{attributes_for, needs_for};
use crate::lists::{keys_of, nodes_at};
use crate::lookups::{FoundThing, Held, name_text};
use crate::named::NamedThings;
use board_cell::Words;
use board_layout::Text;
use board_model::{
    AddedEntries, Attributes, Info, Key, KeyType, Keys, Kind, Limits, LongName, Name, Names,
    NewLimits, Reply, Requirements, Thing, ThingKind, ValueType, key_detail, key_type_of,
    same_type, type_of_key,
};
use board_service::{BoardWords, DomainCore, EntryRow, ThingId};
use indexmap::IndexSet;
use script_seats::Seat;
use std::alloc::{AllocError, Global};
use std::marker::Model;

/// A domain whose nodes are parties. A party is one node from its first create or open on. Things have the names that parties gave them.
#[derive(Drop)]
pub struct PartyDomain<C: BoardWords> {
    core: DomainCore<C>,
    /// Node number n is the party at place n - 1.
    nodes: IndexSet<Name>,
    /// The names of the core's things.
    names: NamedThings,
    alloc: Global,
}

impl<C: BoardWords> Model for PartyDomain<C> {
    ghost use Rattle.std.specs.Prelude.{map};
    ghost use Rattle.script_parties.specs.Named.{IsNamed, named_things};
    ghost use Rattle.script_parties.specs.Numbered.{IsNames, seat_at, things_by};
    ghost use Rattle.script_parties.specs.Parties.{Parties};
    ghost use Rattle.script_parties.specs.Shown.{named_tables};

    ghost Value = { Parties };

    ghost view = { λ d. record {
      tables = named_tables d.core.tables
          (named_things (things_by (seat_at d.names) d.core) d.core.tables.things);
      words = map C.list d.core.cells;
      drawn = d.core.last_thing;
    } };

    ghost invariant = { λ d. IsNames d.names (things_by (seat_at d.names) d.core)
        × IsNamed d.nodes.keys (things_by (seat_at d.names) d.core) d.core };
}

// Ends a thing of a core. The cells of a board that goes with it are dropped.
fn end_thing<C: BoardWords + Drop>(core: &mut DomainCore<C>, thing: ThingId)
    requires { domain.Stands core.old thing }
    ensures { core.new ≡ domain.after_release core.old thing (domain.board_of core.old thing) }
{
    let _ = core.release(thing);
}

// All words, read one after another.
fn words_in<C: Words>(alloc: Global, words: &mut C) -> Result<Vec<u64>, AllocError>
    ensures all { IfOk result (λ ws. ws.items ≡ C.list words.old) }
    ensures same { C.list words.new ≡ C.list words.old }
{
    let count = words.len();
    let mut all = Vec::with_capacity(alloc, count as usize)?;
    for i in 0..count {
        all.push(words.load(i))?;
    }
    Ok(all)
}

impl<C: BoardWords + Drop> PartyDomain<C> {
    /// No boards, no things and no nodes. Takes no memory.
    pub fn new(alloc: Global) -> PartyDomain<C>
        ensures { result ≡ no_parties }
    {
        PartyDomain {
            core: DomainCore::new(alloc),
            nodes: IndexSet::new(alloc),
            names: NamedThings::new(alloc),
            alloc,
        }
    }

    // The thing that a party holds under a name.
    #[inline(always)]
    fn thing_under(&self, seat: &Seat) -> Option<Held>
        ensures { result ≡ party_thing self.now seat.now.party seat.now.name }
    {
        let Some(number) = self.names.number_of(seat) else {
            return None;
        };
        match self.core.thing_at(ThingId(number)) {
            Some(thing) => Some(Thing {
                holder: seat.party,
                name: seat.name,
                board: thing.board,
                kind: thing.kind,
            }),
            // What has a name stands.
            None => unreachable!(),
        }
    }

    /// Whether a party holds a thing under a name.
    pub fn holds(&self, party: &Name, name: &Name) -> bool
        ensures { result ≡ is_some (party_thing self.now party.now name.now) }
    {
        let seat = Seat {
            party: *party,
            name: *name,
        };
        self.names.number_of(&seat).is_some()
    }

    /// The thing that a party holds under a name.
    pub fn thing_of(&self, party: &Name, name: &Name) -> Option<Held>
        ensures { result ≡ party_thing self.now party.now name.now }
    {
        self.thing_under(&Seat {
            party: *party,
            name: *name,
        })
    }

    /// The same, where it is of this kind.
    pub fn held_of_kind(&self, kind: ThingKind, party: &Name, name: &Name) -> Option<Held>
        ensures { result ≡ of_kind kind (party_thing self.now party.now name.now) }
    {
        let seat = Seat {
            party: *party,
            name: *name,
        };
        match self.thing_under(&seat) {
            Some(thing) if thing.kind.is(kind) => Some(thing),
            _ => None,
        }
    }

    /// The same, without the names.
    #[inline(always)]
    pub fn found_of_kind(&self, kind: ThingKind, party: &Name, name: &Name) -> Option<FoundThing>
        ensures { result
            ≡ option_map found_of (of_kind kind (party_thing self.now party.now name.now)) }
    {
        let seat = Seat {
            party: *party,
            name: *name,
        };
        match self.thing_under(&seat) {
            Some(thing) if thing.kind.is(kind) => Some(FoundThing {
                board: thing.board,
                kind: thing.kind,
            }),
            _ => None,
        }
    }

    /// Gives the party's thing another name.
    pub fn rename(&mut self, party: &Name, old: &Name, new: &Name)
        ensures { self.new ≡ renamed self.old party.now old.now new.now }
    {
        self.names.rename(party, old, new);
    }

    /// Whether the key has the key type of the board.
    pub fn is_key_of(&self, board: u64, key: &Key) -> bool
        ensures { result ≡ is_typed_key (tables.board_at self.now.tables board) key.now }
    {
        match self.core.config_of(board) {
            Some(config) => same_type(&config.type_details, &key_detail(type_of_key(key))),
            None => false,
        }
    }

    /// The entry of a board at a place.
    pub fn entry_at(&self, board: u64, entry: u64) -> Option<&EntryRow>
        ensures { option_map (λ e. e.now) result ≡ tables.entry_at self.now.tables board entry }
    {
        match self.core.entries_of(board) {
            Some(entries) => entries.get(entry as usize),
            None => None,
        }
    }

    /// The words of a board, where it stands.
    pub fn words_of(&self, board: u64) -> Option<&C>
        ensures { option_map (λ c. C.list c.now) result ≡ board_words self.now board }
    {
        self.core.cells(board)
    }

    /// The words of a board, where it stands, read one after another.
    ///
    /// # Errors
    /// `AllocError` where memory is refused. Where no such board stands none is wanted.
    pub fn copy_words(&mut self, board: u64) -> Result<Option<Vec<u64>>, AllocError>
        ensures words { IfOk result (λ found. option_map (λ ws. ws.items) found
            ≡ board_words self.old board) }
        ensures memory { OnErr result (IsSome (board_words self.old board)) }
        ensures same { self.new ≡ self.old }
    {
        let Some(cells) = self.core.cells_mut(board) else {
            return Ok(None);
        };
        match words_in(self.alloc, cells) {
            Ok(words) => Ok(Some(words)),
            Err(error) => Err(error),
        }
    }

    /// Reads a word of a board.
    pub fn load(&mut self, board: u64, word: u64) -> u64
        requires { HasWord self.old board word }
        ensures value { IsLoaded self.old board word result }
        ensures same { self.new ≡ self.old }
    {
        match self.core.cells_mut(board) {
            Some(cells) => cells.load(word),
            // `HasWord`: the board stands.
            None => unreachable!(),
        }
    }

    /// Writes a word of a board.
    pub fn store(&mut self, board: u64, word: u64, value: u64)
        requires { HasWord self.old board word }
        ensures { IsStored self.old self.new board word value }
    {
        match self.core.cells_mut(board) {
            Some(cells) => cells.store(word, value),
            // `HasWord`: the board stands.
            None => unreachable!(),
        }
    }

    /// Makes a board with its words, and a factory of it for the party. What it is told is a number or an error of the call.
    ///
    /// # Errors
    /// `AllocError` where memory is refused, which is wanted only where nothing else refuses the call. All stays as it was.
    pub fn create(
        &mut self,
        party: Name,
        factory: Name,
        name: Text<255>,
        key_type: KeyType,
        limits: NewLimits,
        attributes: Attributes,
        entries: &AddedEntries,
    ) -> Result<Reply, AllocError>
        requires few { IsFew self.old }
        requires name { is_board_name name ≡ true }
        requires attributes { AreAttributes attributes }
        ensures asked { IfOk result (IsCreate self.old self.new party factory name key_type limits
            attributes entries.now) }
        ensures memory { OnErr result (IsUnrefused
            (create_refusal self.old name key_type entries.now)) }
        ensures err { OnErr result (self.new ≡ self.old) }
    {
        let attributes = attributes_for(attributes);
        match self.create_refusal(&name, key_type, entries.as_slice()) {
            Some(why) => Ok(Reply::CreateError(why)),
            None => self.add_board(party, factory, name, key_type, limits, attributes, entries),
        }
    }

    /// Makes a factory of a board that stands, for the party. What it is told is a number or an error of the call.
    ///
    /// # Errors
    /// `AllocError` where memory is refused, which is taken only where nothing else refuses the call. All stays as it was.
    pub fn open(
        &mut self,
        party: Name,
        factory: Name,
        name: Text<255>,
        key_type: KeyType,
        limits: Limits,
        needs: Requirements,
    ) -> Result<Reply, AllocError>
        requires few { IsFew self.old }
        requires name { is_board_name name ≡ true }
        requires needs { AreRequirements needs }
        ensures asked { IfOk result (IsOpen self.old self.new party factory name key_type limits
            needs) }
        ensures memory { OnErr result (IsUnrefused
            (open_refusal self.old party name key_type limits needs)) }
        ensures err { OnErr result (self.new ≡ self.old) }
    {
        let needs = needs_for(needs);
        match self.open_refusal(&party, &name, key_type, limits, &needs) {
            Some(why) => Ok(Reply::OpenError(why)),
            None => self.add_factory(party, factory, name),
        }
    }

    /// Makes a reader, at a factory. What it is told is a number or an error of the call.
    ///
    /// # Errors
    /// `AllocError` where memory is refused, which is taken only where nothing else refuses the call. All stays as it was.
    pub fn reader(&mut self, name: Name, factory: &Held) -> Result<Reply, AllocError>
        requires few { IsFew self.old }
        requires stands { IsStandingThing self.old factory.now }
        ensures asked { IfOk result (IsReader self.old self.new name factory.now) }
        ensures memory { OnErr result (IsUnrefused (reader_refusal self.old factory.now)) }
        ensures err { OnErr result (self.new ≡ self.old) }
    {
        match self.reader_refusal(factory) {
            Some(why) => Ok(Reply::ReaderError(why)),
            None => self.add_reader(name, factory),
        }
    }

    /// Makes a writer, at a factory. What it is told is a number or an error of the call.
    ///
    /// # Errors
    /// `AllocError` where memory is refused, which is taken only where nothing else refuses the call. All stays as it was.
    pub fn writer(&mut self, name: Name, factory: &Held) -> Result<Reply, AllocError>
        requires few { IsFew self.old }
        requires stands { IsStandingThing self.old factory.now }
        ensures asked { IfOk result (IsWriter self.old self.new name factory.now) }
        ensures memory { OnErr result (IsUnrefused (writer_refusal self.old factory.now)) }
        ensures err { OnErr result (self.new ≡ self.old) }
    {
        match self.writer_refusal(factory) {
            Some(why) => Ok(Reply::WriterError(why)),
            None => self.add_writer(name, factory),
        }
    }

    /// Makes a read handle, at a reader. What it is told is a number or an error of the call.
    ///
    /// # Errors
    /// `AllocError` where memory is refused, which is taken only where nothing else refuses the call. All stays as it was.
    pub fn entry(
        &mut self,
        name: Name,
        reader: &Held,
        key: &Key,
        value_type: ValueType,
    ) -> Result<Reply, AllocError>
        requires few { IsFew self.old }
        requires stands { IsStandingThing self.old reader.now }
        requires kind { tables.kind_of reader.now.kind ≡ ThingKind.Reader }
        requires key { HasKeyType self.old reader.now key.now }
        ensures asked { IfOk result (IsEntry self.old self.new name reader.now key.now
            value_type) }
        ensures memory { OnErr result (IsUnrefused
            (entry_refusal self.old reader.now key.now value_type)) }
        ensures err { OnErr result (self.new ≡ self.old) }
    {
        match self.entry_refusal(reader, key, value_type) {
            Some(why) => Ok(Reply::EntryError(why)),
            None => self.add_read_handle(name, reader, key, value_type),
        }
    }

    /// Makes a write handle, at a writer. What it is told is a number or an error of the call.
    ///
    /// # Errors
    /// `AllocError` where memory is refused, which is taken only where nothing else refuses the call. All stays as it was.
    pub fn entry_mut(
        &mut self,
        name: Name,
        writer: &Held,
        key: &Key,
        value_type: ValueType,
    ) -> Result<Reply, AllocError>
        requires few { IsFew self.old }
        requires stands { IsStandingThing self.old writer.now }
        requires kind { tables.kind_of writer.now.kind ≡ ThingKind.Writer }
        requires key { HasKeyType self.old writer.now key.now }
        ensures asked { IfOk result (IsEntryMut self.old self.new name writer.now key.now
            value_type) }
        ensures memory { OnErr result (IsUnrefused
            (entry_mut_refusal self.old writer.now key.now value_type)) }
        ensures err { OnErr result (self.new ≡ self.old) }
    {
        match self.entry_mut_refusal(writer, key, value_type) {
            Some(why) => Ok(Reply::EntryMutError(why)),
            None => self.add_write_handle(name, writer, key, value_type),
        }
    }

    /// Takes away the thing that a party holds under a name, and the board with its last thing. Takes no memory.
    pub fn release(&mut self, party: &Name, name: &Name)
        ensures { IsReleased self.old self.new party.now name.now }
    {
        let seat = Seat {
            party: *party,
            name: *name,
        };
        if let Some(number) = self.names.take(&seat) {
            end_thing(&mut self.core, number);
        }
    }

    /// The port number of a reader or writer, the entry id of a handle.
    pub fn id_of(&self, thing: &Held) -> u64
        ensures { result ≡ id_shown self.now thing.now }
    {
        match &thing.kind {
            Kind::Reader { port } => *port,
            Kind::Writer { port } => *port,
            kind => match self.entry_at(thing.board, kind.entry()) {
                Some(entry) => entry.cell.place,
                None => 0,
            },
        }
    }

    /// The keys of a board, in the order of adding.
    ///
    /// # Errors
    /// `AllocError` where memory is refused, which is taken only for a board that stands.
    pub fn keys(&self, board: u64) -> Result<Keys, AllocError>
        ensures shown { IfOk result (λ keys. keys ≡ keys_shown
            (tables.board_at self.now.tables board)) }
        ensures memory { OnErr result (is_some (tables.board_at self.now.tables board) ≡ true) }
    {
        match (self.core.config_of(board), self.core.entries_of(board)) {
            (Some(config), Some(entries)) => {
                keys_of(self.alloc, key_type_of(&config.type_details), entries)
            }
            _ => Ok(Keys::from_vec(Vec::new(self.alloc))),
        }
    }

    /// The parties with a thing of the board, in the order of their bytes.
    ///
    /// # Errors
    /// `AllocError` where memory is refused, which is taken only for a board that stands.
    pub fn nodes(&self, board: u64) -> Result<Names, AllocError>
        ensures shown { IfOk result (λ names. names ≡ replies.nodes_of board
            self.now.tables.things) }
        ensures memory { OnErr result (is_some (tables.board_at self.now.tables board) ≡ true) }
    {
        self.core.facts();
        nodes_at(self.alloc, board, &self.nodes, &self.core)
    }

    /// The limits of a board that stands, how many entries and attributes it has, and what is taken of it.
    ///
    /// # Errors
    /// `AllocError` where memory is refused.
    pub fn info(&self, board: u64) -> Result<Info, AllocError>
        requires { is_some (tables.board_at self.now.tables board) ≡ true }
        ensures { IfOk result (λ info. info ≡ info_shown self.now board) }
    {
        match (
            self.core.name_of(board),
            self.core.config_of(board),
            self.core.attributes_of(board),
            self.core.use_of(board),
        ) {
            (Some(name), Some(config), Some(attributes), Some(taken)) => Ok(Info {
                name: LongName::new(self.alloc, name_text(&name))?,
                key_type: key_type_of(&config.type_details),
                max_readers: config.max_readers,
                max_nodes: config.max_nodes,
                max_writers: config.max_writers,
                entries: config.entries,
                attributes: attributes.len() as u64,
                readers: taken.readers,
                writers: taken.writers,
                nodes: taken.nodes,
            }),
            // The board stands.
            _ => unreachable!(),
        }
    }
}
