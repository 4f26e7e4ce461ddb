//! The boards of a domain and the things of them, as plain data: one call is one step on the tables.
ghost use Rattle.std.specs.Prelude.{◌≡◌, ◌+◌, ◌-◌, ◌^◌, ◌<◌, ◌≤◌, Some, None, IfOk, IsSome, OnOk, OnErr};
ghost use Rattle.board_model.specs.Tables.{board_at, port_of};
ghost use Rattle.board_service.specs.Domain.{empty, made, next_thing, with_next, with_next_port};
ghost use Rattle.board_service.specs.Facts.{HasEntry, HasRoomFor, IsDomain, WritesAlone, drawn_port};

mod create;
mod handles;
mod lent;
mod open;
mod ports;
mod refusals;
mod release;
mod told;

use crate::cells::Cells;
use crate::held::add;
use crate::ids::{NodeId, ThingId};
use crate::made::Made;
use board_index::Boards;
use board_model::Kind;
use board_names::NameTable;
use board_store::Statics;
use board_things::Things;
use std::alloc::{AllocError, Global};
use std::marker::Model;

/// The boards of a domain and the things of them.
///
/// A thing is a factory, a reader, a writer or a handle, of one board and one node. A board stands while a thing of it does. Numbers of boards, ports and things are drawn from 1 on, and none is drawn again.
#[derive(Drop)]
pub struct DomainCore<C: Cells> {
    boards: Boards<C>,
    things: Things,
    descriptions: Statics,
    last_port: u64,
    alloc: Global,
}

impl<C: Cells> Model for DomainCore<C> {
    ghost use Rattle.board_service.specs.Domain.{Domain};
    ghost use Rattle.board_service.specs.Suiting.{IsSuitedCore};

    ghost Value = { Domain C };

    ghost view = { λ d. record {
      tables = record { boards = d.boards.boards; things = d.things.things; last_board = d.boards.last; last_port = d.last_port };
      last_thing = d.things.last;
      cells = d.boards.cells;
    } };

    ghost invariant = { λ d. IsSuitedCore C.suit
        (record { boards = d.boards.boards; things = d.things.things; last_board = d.boards.last; last_port = d.last_port })
        d.things.last d.boards.cells d.descriptions };
}

impl<C: Cells> DomainCore<C> {
    /// No boards and no things. Takes no memory.
    pub fn new(alloc: Global) -> DomainCore<C>
        ensures { result ≡ empty }
    {
        DomainCore {
            boards: Boards::new(alloc),
            things: Things::new(alloc),
            descriptions: Statics::new(alloc),
            last_port: 0,
            alloc,
        }
    }

    /// What is true of every domain, for those who are lent one: the numbers of boards, of things, and of the ports of readers and writers differ, and none is above the last that was drawn; the names of boards differ; a board stands exactly while a thing of it does, and no more readers, writer slots and nodes of it are taken than it may have; a handle's entry is one of its board's, and has at most one write handle; the cells of a board's entries lie one behind another, each placed where its first word begins; a board's keys take no more than 64 bytes; and each board has its cells. A call of this does nothing.
    pub fn facts(&self)
        ensures { IsDomain self.now }
    {
        let _ = &self.boards;
    }

    // Adds a thing of a board that stands, with the next number. It has no port of its own.
    fn add_thing(&mut self, holder: NodeId, board: u64, kind: Kind) -> Result<ThingId, AllocError>
        requires below { self.old.last_thing < 2 ^ 64 - 2 }
        requires stands { IsSome (board_at self.old.tables board) }
        requires none { drawn_port kind ≡ None }
        requires port { port_of kind ≤ self.old.tables.last_port }
        requires entry { HasEntry self.old.tables.boards (next_thing self.old holder board kind) }
        requires room { HasRoomFor self.old (next_thing self.old holder board kind) }
        requires alone { let next = next_thing self.old holder board kind in
            WritesAlone self.old.tables.things next }
        ensures number { IfOk result (λ thing. thing ≡ self.old.last_thing + 1) }
        ensures ok { OnOk result (self.new ≡ with_next self.old holder board kind) }
        ensures err { OnErr result (self.new ≡ self.old) }
    {
        let thing = add(holder, board, kind, &mut self.things)?;
        Ok(thing)
    }

    // Adds a reader or a writer of a board that stands, with the next number and the next port, which it keeps.
    fn add_port(&mut self, holder: NodeId, board: u64, kind: Kind) -> Result<Made, AllocError>
        requires below { self.old.last_thing < 2 ^ 64 - 2 }
        requires ports { self.old.tables.last_port < 2 ^ 64 - 2 }
        requires stands { IsSome (board_at self.old.tables board) }
        requires drawn { drawn_port kind ≡ Some (self.old.tables.last_port + 1) }
        requires port { port_of kind ≡ self.old.tables.last_port + 1 }
        requires entry { HasEntry self.old.tables.boards (next_thing self.old holder board kind) }
        requires room { HasRoomFor self.old (next_thing self.old holder board kind) }
        requires alone { let next = next_thing self.old holder board kind in
            WritesAlone self.old.tables.things next }
        ensures made { IfOk result (λ m. m ≡ made self.old (self.old.tables.last_port + 1)) }
        ensures ok { OnOk result (self.new ≡ with_next_port self.old holder board kind) }
        ensures err { OnErr result (self.new ≡ self.old) }
    {
        let thing = add(holder, board, kind, &mut self.things)?;
        self.last_port += 1;
        Ok(Made {
            thing,
            number: self.last_port,
        })
    }
}
