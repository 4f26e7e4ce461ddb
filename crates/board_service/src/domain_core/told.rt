//! What is told of things and boards.
ghost use Rattle.std.specs.Prelude.{◌≡◌, find, option_map, is_some, IsSome};
ghost use Rattle.std.specs.Bool.{OnTrue};
ghost use Rattle.board_layout.specs.Bytes.{details};
ghost use Rattle.board_model.specs.Tables.{board_at};
ghost use Rattle.board_service.specs.Domain as domain;
ghost use Rattle.board_service.specs.Descriptions.{ShowsDescription};
ghost use Rattle.board_service.specs.Told as told;

use super::DomainCore;
use crate::cells::Cells;
use crate::descriptions::path_of;
use crate::held::{node_at, thing_at, thing_of};
use crate::ids::{NodeId, ThingId};
use crate::lookups::has_details;
use crate::made::Found;
use crate::told::{DynamicConfig, StaticConfig};
use board_concepts::AttributeSet;
use board_index::EntryRow;
use board_layout::{BoardKey, KeyMemory, TypeDetail, TypeVariant};
use board_model::ThingKind;
use board_names::ServiceName;
use board_things::Held;

impl<C: Cells> DomainCore<C> {
    /// The thing with the number, of the node with a number.
    pub fn thing_at(&self, thing: ThingId) -> Option<&Held>
        ensures { option_map (λ t. t.now) result
            ≡ find (domain.is_thing thing) self.now.tables.things }
    {
        thing_at(thing, &self.things)
    }

    /// The number of a thing's board, which stands.
    pub fn board_of(&self, thing: ThingId) -> u64
        requires { domain.Stands self.now thing }
        ensures value { result ≡ (domain.held self.now thing).board }
        ensures stands { IsSome (board_at self.now.tables result) }
    {
        thing_of(thing, &self.things).board
    }

    /// Whether the board stands.
    pub fn stands(&self, board: u64) -> bool
        ensures { result ≡ is_some (board_at self.now.tables board) }
    {
        self.boards.at(board).is_some()
    }

    /// Whether the thing stands, is of the kind, and its board's keys are of type `K`.
    pub fn is_held<K: BoardKey>(&self, thing: ThingId, kind: ThingKind) -> bool
        ensures value { result
            ≡ domain.stands_as self.now (details K.type_bytes K.SIZE K.ALIGNMENT) thing kind }
        ensures stands { OnTrue result (domain.Stands self.now thing) }
    {
        let key = TypeDetail::new::<K>(TypeVariant::FixedSize);
        match thing_at(thing, &self.things) {
            Some(t) => t.kind.is(kind) && has_details(t.board, &key, &self.boards),
            None => false,
        }
    }

    /// What was found for a handle, which stands: its entry, with the place and the cell that the entry's board has for it.
    pub fn found_of(&self, handle: ThingId) -> Option<Found>
        requires { domain.Stands self.now handle }
        ensures { result ≡ told.found_of self.now handle }
    {
        let t = thing_of(handle, &self.things);
        let entry = t.kind.entry();
        match self.boards.at(t.board) {
            Some(b) => match b.entries().get(entry as usize) {
                Some(e) => Some(Found::at(handle, entry, &e.cell)),
                None => None,
            },
            None => None,
        }
    }

    /// The board's name.
    pub fn name_of(&self, board: u64) -> Option<ServiceName>
        ensures { result ≡ option_map (λ b. b.name) (board_at self.now.tables board) }
    {
        match self.boards.at(board) {
            Some(b) => Some(b.name()),
            None => None,
        }
    }

    /// What is fixed of the board.
    pub fn config_of(&self, board: u64) -> Option<StaticConfig>
        ensures { result ≡ option_map told.config (board_at self.now.tables board) }
    {
        match self.boards.at(board) {
            Some(b) => Some(StaticConfig {
                type_details: b.key().detail(),
                max_readers: b.max_readers(),
                max_nodes: b.max_nodes(),
                max_writers: b.max_writers(),
                entries: b.entries().len() as u64,
            }),
            None => None,
        }
    }

    /// How much of the board is taken: the readers, the writer slots, and the nodes with a thing of it.
    pub fn use_of(&self, board: u64) -> Option<DynamicConfig>
        ensures { result
            ≡ option_map (told.use_in self.now.tables.things) (board_at self.now.tables board) }
    {
        match self.boards.at(board) {
            Some(b) => Some(DynamicConfig {
                readers: self.things.reader_slots(b.number()),
                writers: self.things.writer_slots(b.number()),
                nodes: self.things.nodes_taken(b.number()),
            }),
            None => None,
        }
    }

    /// The board's attributes.
    pub fn attributes_of(&self, board: u64) -> Option<&AttributeSet>
        ensures { option_map (λ a. a.now) result
            ≡ option_map (λ b. b.attributes) (board_at self.now.tables board) }
    {
        match self.boards.at(board) {
            Some(b) => Some(b.attributes()),
            None => None,
        }
    }

    /// The board's description: its name, type of keys, limits and attributes, as bytes in the wire format of `Postcard`.
    pub fn description_of(&self, board: u64) -> Option<&[u8]>
        ensures { ShowsDescription (board_at self.now.tables board)
            (option_map (λ b. b.now) result) }
    {
        self.descriptions.bytes_of(&path_of(board))
    }

    /// The node at this place among those of the board, ascending.
    pub fn node_at(&self, board: u64, index: u64) -> Option<NodeId>
        ensures { result
            ≡ told.node_in index self.now.tables.things (board_at self.now.tables board) }
    {
        match self.boards.at(board) {
            Some(b) => node_at(b.number(), index, &self.things),
            None => None,
        }
    }

    /// The entries of the board, in the order of adding.
    pub fn entries_of(&self, board: u64) -> Option<&[EntryRow]>
        ensures { option_map (λ es. es.now) result
            ≡ option_map (λ b. b.entries) (board_at self.now.tables board) }
    {
        match self.boards.at(board) {
            Some(b) => Some(b.entries()),
            None => None,
        }
    }

    /// The key at this place among those of the board, in the order of adding.
    pub fn key_at(&self, board: u64, index: u64) -> Option<KeyMemory<64>>
        ensures { option_map (λ k. k.bytes) result
            ≡ told.key_in index (board_at self.now.tables board) }
    {
        match self.boards.at(board) {
            Some(b) => match b.entries().get(index as usize) {
                Some(e) => Some(e.key),
                None => None,
            },
            None => None,
        }
    }
}
