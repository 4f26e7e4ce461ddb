//! Which nodes have things of a board: pairs of a board and a node, in order, so that those of a board stand together and ascend.
ghost use Rattle.std.specs.Prelude.{ℕ, ◌≡◌, ◌+◌, ◌^◌, ◌<◌, ◌&&◌, ◌||◌, [], length, not, slice_get, false, true, OnOk};
ghost use Rattle.std.specs.Bool.{OnTrue};
ghost use Rattle.std.specs.List.{list_any};
ghost use Rattle.board_things.specs.Nodes as nodes;

use crate::part::Part;
use crate::parts::{node_in, put, take};
use std::alloc::{AllocError, Global};
use std::marker::Model;

/// Pairs of a board and a node, in order.
#[derive(Drop)]
pub(crate) struct Nodes {
    /// Each with a pair at least.
    parts: Vec<Part>,
    /// How many pairs there are up to the end of each part.
    ends: Vec<usize>,
    /// A part without pairs, for the next that is needed.
    spare: Option<Part>,
}

impl Model for Nodes {
    ghost use Rattle.std.specs.Prelude.{◌≡◌, [], ◌-◌, IfSome, is_some};
    ghost use Rattle.std.specs.Vec.{vec_capacity, vec_len};
    ghost use Rattle.board_things.specs.Nodes.{AreCounted, AreParts, Pairs, joined, room_of};

    ghost Value = { Pairs };

    ghost view = { λ d. record { pairs = joined d.parts.items; room = room_of d.parts d.ends d.spare } };

    ghost invariant = { λ d. AreParts d.parts.items × AreCounted d.ends.items d.parts.items × IfSome d.spare (λ p. p ≡ []) };
}

impl Nodes {
    /// No pairs. Takes no memory.
    pub(crate) fn new(alloc: Global) -> Nodes
        ensures { result.pairs ≡ [] }
    {
        Nodes {
            parts: Vec::new(alloc),
            ends: Vec::new(alloc),
            spare: None,
        }
    }

    /// Makes room for one pair more.
    ///
    /// # Errors
    /// `AllocError` where memory is refused. The pairs stay.
    pub(crate) fn reserve(&mut self) -> Result<(), AllocError>
        ensures pairs { self.new.pairs ≡ self.old.pairs }
        ensures room { OnOk result (0 < self.new.room) }
    {
        self.parts.reserve(1)?;
        self.ends.reserve(1)?;
        if self.spare.is_none() {
            let alloc = *self.parts.allocator();
            self.spare = Some(Part::new(alloc)?);
        }
        Ok(())
    }

    /// Adds the node of a board's thing, where it has no other of the board. Takes no memory: there is room.
    pub(crate) fn put_first(&mut self, is_first: bool, board: u64, node: u64)
        requires other { OnTrue is_first (list_any (nodes.is_pair board node) self.old.pairs ≡ false) }
        requires few { length self.old.pairs + 1 < 2 ^ 64 }
        requires room { 0 < self.old.room }
        ensures order { nodes.AreInOrder self.new.pairs }
        ensures are { (b n : ℕ) → list_any (nodes.is_pair b n) self.new.pairs
            ≡ (is_first && nodes.is_pair b n (board, node) || list_any (nodes.is_pair b n) self.old.pairs) }
    {
        if is_first {
            put(
                board,
                node,
                &mut self.parts,
                &mut self.ends,
                &mut self.spare,
            );
        }
    }

    /// Takes the node of a board's thing out, where it has no other of the board. Takes no memory.
    pub(crate) fn take_last(&mut self, is_last: bool, board: u64, node: u64)
        requires one { OnTrue is_last (list_any (nodes.is_pair board node) self.old.pairs ≡ true) }
        ensures order { nodes.AreInOrder self.new.pairs }
        ensures are { (b n : ℕ) → list_any (nodes.is_pair b n) self.new.pairs
            ≡ (list_any (nodes.is_pair b n) self.old.pairs && not (is_last && nodes.is_pair b n (board, node))) }
    {
        if is_last {
            take(board, node, &mut self.parts, &mut self.ends);
        }
    }

    /// The node at a place among those of the board.
    pub(crate) fn node_at(&self, board: u64, index: u64) -> Option<u64>
        ensures { result ≡ slice_get (nodes.nodes_in board self.now.pairs) index }
    {
        node_in(board, index, &self.parts, &self.ends)
    }
}
