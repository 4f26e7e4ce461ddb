//! What the calls make, where nothing refuses them and memory is given.
ghost use Rattle.std.specs.Prelude.{◌≡◌, ◌<◌, ℕ, IfOk, None, OnErr, Option, Some, true};
ghost use Rattle.std.specs.HashMap as hash_map;
ghost use Rattle.std.specs.Str.{bytes_eq};
ghost use Rattle.board_model.specs.LineGrammar.{is_board_name};
ghost use Rattle.board_model.specs.Tables as tables;
ghost use Rattle.board_model.specs.Things as held;
ghost use Rattle.indexmap.specs.IndexSet as index_set;
ghost use Rattle.script_parties.specs.Named.{factory_of, nodes_with};
ghost use Rattle.script_parties.specs.Numbered.{IsNames};
ghost use Rattle.script_parties.specs.Parties.{IsCreate, IsEntry, IsEntryMut, IsFew, IsJoined, IsReader, IsWriter, IsStandingThing};
ghost use Rattle.script_parties.specs.Shown.{HasKeyType};
ghost use Rattle.board_service.specs.Domain.{CanJoin};
ghost use Rattle.script_seats.specs.Seats.{HasRoom, put};

use super::PartyDomain;
use crate::adding::entries_for;
use crate::lookups::{Held, join, node_for};
use crate::named::{NamedThings, number_of};
use crate::typed_calls::{create_in, entry_in, entry_mut_in};
use board_concepts::AttributeSet;
use board_layout::Text;
use board_model::{
    AddedEntries, Key, KeyType, Kind, Name, NewLimits, Reply, Thing, ThingKind, ValueType,
    value_detail,
};
use board_names::{
    BlackboardCreateError, EntryHandleError, EntryHandleMutError, ReaderCreateError, ServiceName,
    WriterCreateError,
};
use board_service::{BoardWords, Made, NodeId};
use indexmap::IndexSet;
use std::alloc::AllocError;

// One factory more, of the board that was made or opened. Its party is a node from now on. Takes no memory: there is room.
fn push_factory(
    made: &Made,
    party: Name,
    name: Name,
    nodes: &mut IndexSet<Name>,
    names: &mut NamedThings,
)
    requires node { 0 < index_set.spare nodes.old }
    requires room { 0 < hash_map.spare names.old.names }
    requires seat { HasRoom names.old.seats }
    ensures nodes { nodes.new.keys ≡ nodes_with party nodes.old.keys }
    ensures names { (things : ℕ → Option held.Held) → IsNames names.old things
        → things made.now.thing ≡ None → IsNames names.new
        (put made.now.thing (Some (factory_of party name made.now.number)) things) }
{
    join(party, nodes);
    let thing = Thing {
        holder: party,
        name,
        board: made.number,
        kind: Kind::Factory,
    };
    names.push(made.thing, &thing);
}

impl<C: BoardWords + Drop> PartyDomain<C> {
    /// The same as `create`, but want of memory may come in place of a refusal.
    pub(super) fn add_board(
        &mut self,
        party: Name,
        factory: Name,
        name: Text<255>,
        key_type: KeyType,
        limits: NewLimits,
        attributes: AttributeSet,
        entries: &AddedEntries,
    ) -> Result<Reply, AllocError>
        requires few { IsFew self.old }
        requires name { is_board_name name ≡ true }
        ensures asked { IfOk result (IsCreate self.old self.new party factory name key_type limits
            attributes entries.now) }
        ensures err { OnErr result (self.new ≡ self.old) }
    {
        let entries = entries_for(self.alloc, entries.as_slice())?;
        self.nodes.reserve(1)?;
        self.names.reserve()?;
        let node = NodeId(node_for(&party, &self.nodes));
        let name = ServiceName::from_text(name);
        match create_in(
            &mut self.core,
            key_type,
            node,
            &name,
            limits,
            attributes,
            entries,
        ) {
            Ok(made) => {
                push_factory(&made, party, factory, &mut self.nodes, &mut self.names);
                Ok(Reply::Number(made.number))
            }
            Err(BlackboardCreateError::OutOfMemory) => Err(AllocError),
            Err(why) => Ok(Reply::CreateError(why)),
        }
    }

    /// Makes a factory of the board with this name, for the party, which `open_refusal` refuses nothing.
    pub(super) fn add_factory(
        &mut self,
        party: Name,
        factory: Name,
        name: Text<255>,
    ) -> Result<Reply, AllocError>
        requires few { IsFew self.old }
        requires name { is_board_name name ≡ true }
        requires joins { CanJoin bytes_eq self.old.tables party name }
        ensures joined { IfOk result (IsJoined self.old self.new party factory name) }
        ensures err { OnErr result (self.new ≡ self.old) }
    {
        self.nodes.reserve(1)?;
        self.names.reserve()?;
        let node = NodeId(node_for(&party, &self.nodes));
        let name = ServiceName::from_text(name);
        match self.core.open_unrefused(node, &name) {
            Ok(made) => {
                push_factory(&made, party, factory, &mut self.nodes, &mut self.names);
                Ok(Reply::Number(made.number))
            }
            Err(error) => Err(error),
        }
    }

    /// The same as `reader`, but want of memory may come in place of a refusal.
    pub(super) fn add_reader(&mut self, name: Name, factory: &Held) -> Result<Reply, AllocError>
        requires few { IsFew self.old }
        requires stands { IsStandingThing self.old factory.now }
        ensures asked { IfOk result (IsReader self.old self.new name factory.now) }
        ensures err { OnErr result (self.new ≡ self.old) }
    {
        self.names.reserve()?;
        let number = number_of(factory, &self.names);
        match self.core.reader(number) {
            Ok(made) => {
                let kind = Kind::Reader { port: made.number };
                self.names.push_beside(made.thing, name, factory, kind);
                Ok(Reply::Number(made.number))
            }
            Err(ReaderCreateError::OutOfMemory) => Err(AllocError),
            Err(why) => Ok(Reply::ReaderError(why)),
        }
    }

    /// The same as `writer`, but want of memory may come in place of a refusal.
    pub(super) fn add_writer(&mut self, name: Name, factory: &Held) -> Result<Reply, AllocError>
        requires few { IsFew self.old }
        requires stands { IsStandingThing self.old factory.now }
        ensures asked { IfOk result (IsWriter self.old self.new name factory.now) }
        ensures err { OnErr result (self.new ≡ self.old) }
    {
        self.names.reserve()?;
        let number = number_of(factory, &self.names);
        match self.core.writer(number) {
            Ok(made) => {
                let kind = Kind::Writer { port: made.number };
                self.names.push_beside(made.thing, name, factory, kind);
                Ok(Reply::Number(made.number))
            }
            Err(WriterCreateError::OutOfMemory) => Err(AllocError),
            Err(why) => Ok(Reply::WriterError(why)),
        }
    }

    /// The same as `entry`, but want of memory may come in place of a refusal.
    pub(super) fn add_read_handle(
        &mut self,
        name: Name,
        reader: &Held,
        key: &Key,
        value_type: ValueType,
    ) -> Result<Reply, AllocError>
        requires few { IsFew self.old }
        requires stands { IsStandingThing self.old reader.now }
        requires kind { tables.kind_of reader.now.kind ≡ ThingKind.Reader }
        requires key { HasKeyType self.old reader.now key.now }
        ensures asked { IfOk result (IsEntry self.old self.new name reader.now key.now
            value_type) }
        ensures err { OnErr result (self.new ≡ self.old) }
    {
        self.names.reserve()?;
        let number = number_of(reader, &self.names);
        match entry_in(&mut self.core, number, key, &value_detail(value_type)) {
            Ok(found) => {
                let kind = Kind::ReadHandle { entry: found.entry };
                self.names.push_beside(found.thing, name, reader, kind);
                Ok(Reply::Number(found.place))
            }
            Err(EntryHandleError::OutOfMemory) => Err(AllocError),
            Err(why) => Ok(Reply::EntryError(why)),
        }
    }

    /// The same as `entry_mut`, but want of memory may come in place of a refusal.
    pub(super) fn add_write_handle(
        &mut self,
        name: Name,
        writer: &Held,
        key: &Key,
        value_type: ValueType,
    ) -> Result<Reply, AllocError>
        requires few { IsFew self.old }
        requires stands { IsStandingThing self.old writer.now }
        requires kind { tables.kind_of writer.now.kind ≡ ThingKind.Writer }
        requires key { HasKeyType self.old writer.now key.now }
        ensures asked { IfOk result (IsEntryMut self.old self.new name writer.now key.now
            value_type) }
        ensures err { OnErr result (self.new ≡ self.old) }
    {
        self.names.reserve()?;
        let number = number_of(writer, &self.names);
        match entry_mut_in(&mut self.core, number, key, &value_detail(value_type)) {
            Ok(found) => {
                let kind = Kind::WriteHandle {
                    entry: found.entry,
                    port: writer.kind.port(),
                };
                self.names.push_beside(found.thing, name, writer, kind);
                Ok(Reply::Number(found.place))
            }
            Err(EntryHandleMutError::OutOfMemory) => Err(AllocError),
            Err(why) => Ok(Reply::EntryMutError(why)),
        }
    }
}
