//! The things of a domain.
ghost use Rattle.std.specs.Prelude.{◌≡◌, ◌≤◌, ◌<◌, ◌-◌, ◌+◌, ◌^◌, ◌++◌, ◌∷◌, [], find, option_map, IsSome, OnOk, nat_eq, nat_lt};
ghost use Rattle.std.specs.List.{list_any};
ghost use Rattle.board_model.specs.Tables as tables;
ghost use Rattle.board_things.specs.Things.{HasThing, is_thing, new_thing, thing_numbered};
ghost use Rattle.board_things.specs.Nodes as nodes;

use crate::nodes::Nodes;
use crate::uses::{
    Use, count_at, is_only_of_port, lower, lower_at, lower_handle, lower_port, raise, raise_at,
    raise_handle, raise_port, use_of,
};
use board_model::{Kind, Thing};
use std::alloc::{AllocError, Global};
use std::collections::HashMap;
use std::marker::Model;

/// A thing under its number, held by the node with a number.
pub type Held = Thing<u64, u64>;

/// The things of a domain, seen in the order of their numbers, with the numbers that the limits of boards are compared with.
#[derive(Drop)]
pub struct Things {
    /// By number.
    items: HashMap<u64, Held>,
    last: u64,
    /// By board.
    uses: HashMap<u64, Use>,
    /// How many things of a board a node has, by board and node.
    held: HashMap<(u64, u64), u64>,
    /// How many things keep a writer's port, by board and port.
    ports: HashMap<(u64, u64), u64>,
    /// How many write handles an entry has, by board and entry.
    written: HashMap<(u64, u64), u64>,
    /// The nodes with a thing of a board, by board and node, in order.
    nodes: Nodes,
}

impl Model for Things {
    ghost use Rattle.board_things.specs.Things.{Numbered};
    ghost use Rattle.board_numbered.specs.Standing.{standing, under};
    ghost use Rattle.board_things.specs.Kept.{AreHeld, AreNumbered, ArePorts, AreUses, AreWritten};
    ghost use Rattle.board_things.specs.Nodes.{AreNodes};
    ghost use Rattle.std.specs.Prelude.{min};
    ghost use Rattle.std.specs.HashMap.{spare};

    ghost Value = { Numbered };

    ghost view = { λ d. record {
      things = standing (under d.items) d.last;
      last = d.last;
      room = min (spare d.items)
          (min d.nodes.room
          (min (spare d.uses) (min (spare d.held) (min (spare d.ports) (spare d.written)))));
    } };

    ghost invariant = { λ d. AreNumbered (under d.items) d.last
        × AreUses d.uses (standing (under d.items) d.last)
        × AreHeld d.held (standing (under d.items) d.last)
        × ArePorts d.ports (standing (under d.items) d.last)
        × AreWritten d.written (standing (under d.items) d.last)
        × AreNodes d.nodes.pairs (standing (under d.items) d.last) };
}

impl Things {
    /// No things. Takes no memory.
    pub fn new(alloc: Global) -> Things
        ensures things { result.things ≡ [] }
        ensures last { result.last ≡ 0 }
    {
        Things {
            items: HashMap::new(alloc),
            last: 0,
            uses: HashMap::new(alloc),
            held: HashMap::new(alloc),
            ports: HashMap::new(alloc),
            written: HashMap::new(alloc),
            nodes: Nodes::new(alloc),
        }
    }

    /// The thing with the number.
    pub fn at(&self, number: u64) -> Option<&Held>
        ensures { option_map (λ t. t.now) result ≡ find (is_thing number) self.now.things }
    {
        self.items.get(&number)
    }

    /// The thing with the number, which stands.
    pub fn of(&self, number: u64) -> Held
        requires { HasThing self.now number }
        ensures { result ≡ thing_numbered number self.now.things }
    {
        match self.at(number) {
            Some(t) => *t,
            // The thing stands.
            None => unreachable!(),
        }
    }

    /// The readers of the board.
    pub fn reader_slots(&self, board: u64) -> u64
        ensures { result ≡ tables.reader_slots board self.now.things }
    {
        use_of(board, &self.uses).readers
    }

    /// The different ports of the board's writers and of the handles made from them.
    pub fn writer_slots(&self, board: u64) -> u64
        ensures { result ≡ tables.writer_slots board self.now.things }
    {
        use_of(board, &self.uses).writers
    }

    /// The different nodes with a thing of the board.
    pub fn nodes_taken(&self, board: u64) -> u64
        ensures { result ≡ tables.nodes_taken nat_eq board self.now.things }
    {
        use_of(board, &self.uses).nodes
    }

    /// Whether a thing of the board stands.
    pub fn has_thing_of(&self, board: u64) -> bool
        ensures { result ≡ list_any (tables.is_of_board board) self.now.things }
    {
        use_of(board, &self.uses).things >= 1
    }

    /// Whether the node has a thing of the board.
    pub fn is_node(&self, board: u64, node: u64) -> bool
        ensures { result ≡ tables.is_node nat_eq board node self.now.things }
    {
        count_at(board, node, &self.held) >= 1
    }

    /// The node with so many below it among those of the board.
    pub fn node_at(&self, board: u64, index: u64) -> Option<u64>
        ensures { result
            ≡ nodes.node_from nat_eq nat_lt board index self.now.things self.now.things }
    {
        self.nodes.node_at(board, index)
    }

    /// Whether a write handle of the entry stands.
    pub fn has_write_handle(&self, board: u64, entry: u64) -> bool
        ensures { result ≡ list_any (tables.is_write_handle board entry) self.now.things }
    {
        count_at(board, entry, &self.written) >= 1
    }

    /// The number that was drawn last.
    pub fn last(&self) -> u64
        ensures { result ≡ self.now.last }
    {
        self.last
    }

    /// Makes room for one thing more.
    ///
    /// # Errors
    /// `AllocError` where memory is refused. The things stay.
    pub fn reserve(&mut self) -> Result<(), AllocError>
        ensures things { self.new.things ≡ self.old.things }
        ensures last { self.new.last ≡ self.old.last }
        ensures room { OnOk result (0 < self.new.room) }
    {
        self.nodes.reserve()?;
        self.uses.reserve(1)?;
        self.held.reserve(1)?;
        self.ports.reserve(1)?;
        self.written.reserve(1)?;
        self.items.reserve(1)
    }

    /// Adds a thing under the next number. Takes no memory: there is room.
    pub fn push_reserved(&mut self, holder: u64, board: u64, kind: Kind)
        requires below { self.old.last < 2 ^ 64 - 2 }
        requires room { 0 < self.old.room }
        ensures things { self.new.things
            ≡ self.old.things ++ new_thing (self.old.last + 1) holder board kind ∷ [] }
        ensures last { self.new.last ≡ self.old.last + 1 }
    {
        let node = count_at(board, holder, &self.held) == 0;
        let port = is_only_of_port(board, &kind, &self.ports);
        raise_at(board, holder, &mut self.held);
        raise_port(board, &kind, &mut self.ports);
        raise_handle(board, &kind, &mut self.written);
        self.nodes.put_first(node, board, holder);
        raise(board, &kind, node, port, &mut self.uses);
        self.last += 1;
        let thing = Thing {
            holder,
            name: self.last,
            board,
            kind,
        };
        let Ok(_) = self.items.insert(self.last, thing) else {
            // There is room.
            unreachable!()
        };
    }

    /// Takes the thing with the number out, which stands. Takes no memory.
    pub fn take(&mut self, number: u64) -> Held
        requires { HasThing self.old number }
        ensures taken { result ≡ thing_numbered number self.old.things }
        ensures rest { self.new.things
            ≡ tables.without_first (is_thing number) self.old.things }
        ensures last { self.new.last ≡ self.old.last }
    {
        let Some(gone) = self.items.remove(&number) else {
            // The thing stands.
            unreachable!()
        };
        lower_at(gone.board, gone.holder, &mut self.held);
        lower_port(gone.board, &gone.kind, &mut self.ports);
        lower_handle(gone.board, &gone.kind, &mut self.written);
        let node = count_at(gone.board, gone.holder, &self.held) == 0;
        let port = is_only_of_port(gone.board, &gone.kind, &self.ports);
        self.nodes.take_last(node, gone.board, gone.holder);
        lower(gone.board, &gone.kind, node, port, &mut self.uses);
        gone
    }
}
