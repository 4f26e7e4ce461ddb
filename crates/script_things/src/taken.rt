//! What is taken of a board, kept as things come and go.
ghost use Rattle.std.specs.Prelude.{◌≡◌, ℕ, ◌+◌, ◌<◌, ◌≤◌, ◌^◌, ◌==◌, List, Some, None, IsSome, OnErr, OnOk, false, nat_eq};
ghost use Rattle.std.specs.BTreeMap as tree;
ghost use Rattle.std.specs.Cmp.Lexicographic.{slice_cmp};
ghost use Rattle.std.specs.HashMap.{get, spare};
ghost use Rattle.std.specs.Ordering.{nat_cmp};
ghost use Rattle.std.specs.Str.{bytes_eq};
ghost use Rattle.board_model.specs.Tables.{number_if};
ghost use Rattle.board_model.specs.Tables as tables;
ghost use Rattle.script_things.specs.Taken.{AreLowered, AreRaised, AreSame, HasOne, IsLowered, IsRaised, IsSame, IsSmall, number_in, one_less, one_more};

use crate::lookups::Held;
use board_model::{Kind, Name};
use std::alloc::{AllocError, Global};
use std::collections::{BTreeMap, HashMap};

/// How many readers a board has, and how many of its things each party has, keep each writer's port, and write each entry.
/// Nothing is kept of a party, a port or an entry without one, so what is kept are the different parties and ports.
#[derive(Drop)]
pub(crate) struct Taken {
    pub(crate) readers: u64,
    pub(crate) nodes: BTreeMap<Name, u64>,
    pub(crate) ports: HashMap<u64, u64>,
    pub(crate) handles: HashMap<u64, u64>,
}

// One more under the number.
fn raise_at(number: u64, counts: &mut HashMap<u64, u64>)
    requires small { number_in (get nat_eq counts.old number) < 2 ^ 63 }
    requires room { 0 < spare counts.old }
    ensures { (n : ℕ) → get nat_eq counts.new n
        ≡ one_more (number == n) (get nat_eq counts.old n) }
{
    let more = match counts.get(&number) {
        Some(n) => *n + 1,
        None => 1,
    };
    let Ok(_) = counts.insert(number, more) else {
        // There is room.
        unreachable!()
    };
}

// One less under the number.
fn lower_at(number: u64, counts: &mut HashMap<u64, u64>)
    requires { 1 ≤ number_in (get nat_eq counts.old number) }
    ensures { (n : ℕ) → get nat_eq counts.new n
        ≡ one_less (number == n) (get nat_eq counts.old n) }
{
    match counts.get(&number).copied() {
        Some(n) if n > 1 => {
            let Ok(_) = counts.insert(number, n - 1) else {
                // Something is kept under the number.
                unreachable!()
            };
        }
        _ => {
            let _ = counts.remove(&number);
        }
    }
}

// How many things the party has.
fn things_of(party: &Name, nodes: &BTreeMap<Name, u64>) -> u64
    ensures { result ≡ number_in (tree.get (slice_cmp nat_cmp) nodes.now party.now) }
{
    match nodes.get(party) {
        Some(n) => *n,
        None => 0,
    }
}

// One thing more of the party.
fn raise_node(party: &Name, nodes: &mut BTreeMap<Name, u64>) -> Result<(), AllocError>
    requires { number_in (tree.get (slice_cmp nat_cmp) nodes.old party.now) < 2 ^ 63 }
    ensures ok { OnOk result ((p : List ℕ) → tree.get (slice_cmp nat_cmp) nodes.new p
        ≡ one_more (bytes_eq party.now p) (tree.get (slice_cmp nat_cmp) nodes.old p)) }
    ensures err { OnErr result ((p : List ℕ) → tree.get (slice_cmp nat_cmp) nodes.new p
        ≡ tree.get (slice_cmp nat_cmp) nodes.old p) }
{
    let things = things_of(party, nodes);
    let _ = nodes.insert(*party, things + 1)?;
    Ok(())
}

// One thing less of the party.
fn lower_node(party: &Name, nodes: &mut BTreeMap<Name, u64>)
    requires { 1 ≤ number_in (tree.get (slice_cmp nat_cmp) nodes.old party.now) }
    ensures { (p : List ℕ) → tree.get (slice_cmp nat_cmp) nodes.new p
        ≡ one_less (bytes_eq party.now p) (tree.get (slice_cmp nat_cmp) nodes.old p) }
{
    let things = things_of(party, nodes);
    if things > 1 {
        let Ok(_) = nodes.insert(*party, things - 1) else {
            // The party has things.
            unreachable!()
        };
    } else {
        let _ = nodes.remove(party);
    }
}

impl Taken {
    // Nothing is taken. Takes no memory.
    fn new(alloc: Global) -> Taken
        ensures { IsSame None (Some result) }
    {
        Taken {
            readers: 0,
            nodes: BTreeMap::new(alloc),
            ports: HashMap::new(alloc),
            handles: HashMap::new(alloc),
        }
    }

    // A thing of the party more.
    fn raise(&mut self, party: &Name, kind: &Kind) -> Result<(), AllocError>
        requires { IsSmall (Some self.old) }
        ensures ok { OnOk result (IsRaised party.now kind.now (Some self.old) (Some self.new)) }
        ensures err { OnErr result (IsSame (Some self.old) (Some self.new)) }
    {
        self.ports.reserve(1)?;
        self.handles.reserve(1)?;
        raise_node(party, &mut self.nodes)?;
        if kind.is_reader() {
            self.readers += 1;
        }
        if let Some(port) = kind.writer_port() {
            raise_at(port, &mut self.ports);
        }
        if let Some(entry) = kind.written_entry() {
            raise_at(entry, &mut self.handles);
        }
        Ok(())
    }

    // A thing of the party less.
    fn lower(&mut self, party: &Name, kind: &Kind)
        requires { HasOne party.now kind.now (Some self.old) }
        ensures { IsLowered party.now kind.now (Some self.old) (Some self.new) }
    {
        lower_node(party, &mut self.nodes);
        if kind.is_reader() {
            self.readers -= 1;
        }
        if let Some(port) = kind.writer_port() {
            lower_at(port, &mut self.ports);
        }
        if let Some(entry) = kind.written_entry() {
            lower_at(entry, &mut self.handles);
        }
    }
}

// Something is kept of the board, if only that nothing is taken.
fn open_row(alloc: Global, board: u64, rows: &mut HashMap<u64, Taken>) -> Result<(), AllocError>
    ensures there { OnOk result (IsSome (get nat_eq rows.new board)) }
    ensures same { AreSame rows.old rows.new }
{
    if !rows.contains_key(&board) {
        let _ = rows.insert(board, Taken::new(alloc))?;
    }
    Ok(())
}

// The thing is one more of its board, of which something is kept.
fn raise_row(thing: &Held, rows: &mut HashMap<u64, Taken>) -> Result<(), AllocError>
    requires there { IsSome (get nat_eq rows.old thing.now.board) }
    requires small { IsSmall (get nat_eq rows.old thing.now.board) }
    ensures ok { OnOk result (IsRaised thing.now.holder thing.now.kind
        (get nat_eq rows.old thing.now.board) (get nat_eq rows.new thing.now.board)) }
    ensures err { OnErr result (IsSame (get nat_eq rows.old thing.now.board)
        (get nat_eq rows.new thing.now.board)) }
    ensures others { (board : ℕ) → (thing.now.board == board) ≡ false
        → get nat_eq rows.new board ≡ get nat_eq rows.old board }
{
    let Some(row) = rows.get_mut(&thing.board) else {
        // Something is kept of it.
        unreachable!()
    };
    row.raise(&thing.holder, &thing.kind)
}

/// The thing is one more of its board.
///
/// # Errors
/// `AllocError` where memory is refused. Nothing is raised then.
pub(crate) fn raise(
    alloc: Global,
    thing: &Held,
    rows: &mut HashMap<u64, Taken>,
) -> Result<(), AllocError>
    requires { IsSmall (get nat_eq rows.old thing.now.board) }
    ensures ok { OnOk result (AreRaised thing.now rows.old rows.new) }
    ensures err { OnErr result (AreSame rows.old rows.new) }
{
    open_row(alloc, thing.board, rows)?;
    raise_row(thing, rows)
}

/// The thing is one less of its board. Takes no memory.
pub(crate) fn lower(thing: &Held, rows: &mut HashMap<u64, Taken>)
    requires { HasOne thing.now.holder thing.now.kind (get nat_eq rows.old thing.now.board) }
    ensures { AreLowered thing.now rows.old rows.new }
{
    let Some(row) = rows.get_mut(&thing.board) else {
        // The thing was counted.
        unreachable!()
    };
    row.lower(&thing.holder, &thing.kind);
}
