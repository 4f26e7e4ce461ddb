//! Some pairs of a board and a node, as many as are moved at once.
ghost use Rattle.std.specs.Prelude.{◌≡◌, ◌+◌, ◌<◌, ◌≤◌, ◌++◌, [], length, insert, remove, take, drop, IfOk};
ghost use Rattle.std.specs.Bool.{OnFalse, OnTrue};
ghost use Rattle.board_things.specs.Nodes.{most_pairs};

use std::alloc::{AllocError, Global};
use std::marker::Model;

/// As many pairs as a part has at most.
pub(crate) const MOST_PAIRS: usize = 256;

/// At most `MOST_PAIRS` pairs, with memory for as many.
#[derive(Drop)]
pub(crate) struct Part {
    pairs: Vec<(u64, u64)>,
}

impl Model for Part {
    ghost use Rattle.std.specs.Prelude.{◌≤◌, ℕ, List, length};
    ghost use Rattle.std.specs.Vec.{vec_capacity};
    ghost use Rattle.board_things.specs.Nodes.{most_pairs};

    ghost Value = { List (ℕ × ℕ) };

    ghost view = { λ d. d.pairs.items };

    ghost invariant = { λ d. (length d.pairs.items ≤ most_pairs) × (most_pairs ≤ vec_capacity d.pairs) };
}

impl Part {
    /// A part without pairs.
    ///
    /// # Errors
    /// `AllocError` where memory is refused.
    pub(crate) fn new(alloc: Global) -> Result<Part, AllocError>
        ensures { IfOk result (λ p. p ≡ []) }
    {
        Ok(Part {
            pairs: Vec::with_capacity(alloc, MOST_PAIRS)?,
        })
    }

    /// The pairs.
    pub(crate) fn pairs(&self) -> &[(u64, u64)]
        ensures { result.now ≡ self.now }
    {
        self.pairs.as_slice()
    }

    /// Whether it has as many as it can.
    pub(crate) fn is_full(&self) -> bool
        ensures room { OnFalse result (length self.now < most_pairs) }
        ensures full { OnTrue result (length self.now ≡ most_pairs) }
    {
        self.pairs.len() == MOST_PAIRS
    }

    /// Adds a pair at a place. Takes no memory.
    pub(crate) fn insert(&mut self, place: usize, pair: (u64, u64))
        requires place { place ≤ length self.old }
        requires room { length self.old < most_pairs }
        ensures { self.new ≡ insert self.old place pair }
    {
        let Ok(()) = self.pairs.insert(place, pair) else {
            // There is room.
            unreachable!()
        };
    }

    /// Takes the pair at a place out.
    pub(crate) fn remove(&mut self, place: usize)
        requires { place < length self.old }
        ensures { self.new ≡ remove self.old place }
    {
        let _ = self.pairs.remove(place);
    }

    /// Adds the other's pairs behind these. Takes no memory.
    pub(crate) fn append(&mut self, other: &Part)
        requires { length self.old + length other.now ≤ most_pairs }
        ensures { self.new ≡ self.old ++ other.now }
    {
        let Ok(()) = self.pairs.extend_from_slice(other.pairs()) else {
            // There is room.
            unreachable!()
        };
    }

    // The pairs from a place on go to a part that has none.
    fn split(&mut self, place: usize, rest: &mut Part)
        requires place { place ≤ length self.old }
        requires none { rest.old ≡ [] }
        ensures first { self.new ≡ take place self.old }
        ensures rest { rest.new ≡ drop place self.old }
    {
        let Ok(()) = rest.pairs.extend_from_slice(&self.pairs[place..]) else {
            // There is room.
            unreachable!()
        };
        self.pairs.truncate(place);
    }

    /// Adds a pair at a place of a full part, half of which goes to one that has none. Takes no memory.
    pub(crate) fn insert_and_split(&mut self, place: usize, pair: (u64, u64), rest: &mut Part)
        requires place { place ≤ length self.old }
        requires full { length self.old ≡ most_pairs }
        requires none { rest.old ≡ [] }
        ensures both { self.new ++ rest.new ≡ insert self.old place pair }
        ensures first { 0 < length self.new }
        ensures rest { 0 < length rest.new }
    {
        let half = MOST_PAIRS / 2;
        self.split(half, rest);
        if place <= half {
            self.insert(place, pair);
        } else {
            rest.insert(place - half, pair);
        }
    }
}
