//! What is kept of the things, by board, and by board and node, port or entry.
ghost use Rattle.std.specs.Prelude.{ℕ, false, ◌≡◌, ◌+◌, ◌-◌, ◌<◌, ◌≤◌, ◌^◌, ◌==◌, nat_eq, if◌then◌else◌, ◌&&◌};
ghost use Rattle.std.specs.Bool.{OnTrue};
ghost use Rattle.std.specs.HashMap.{spare};
ghost use Rattle.board_model.specs.Tables as tables;
ghost use Rattle.board_things.specs.Kept as kept;

use board_model::Kind;
use std::collections::HashMap;

/// How many things of a board stand, how many of its reader slots and writer slots are taken, and how many nodes have a thing of it.
#[derive(Clone, Copy, Debug)]
pub(crate) struct Use {
    pub(crate) things: u64,
    pub(crate) readers: u64,
    pub(crate) writers: u64,
    pub(crate) nodes: u64,
}

fn number_if(test: bool) -> u64
    ensures { result ≡ tables.number_if test }
{
    if test { 1 } else { 0 }
}

/// What is kept of the board.
pub(crate) fn use_of(board: u64, uses: &HashMap<u64, Use>) -> Use
    ensures { result ≡ kept.use_at uses.now board }
{
    match uses.get(&board) {
        Some(u) => *u,
        None => Use {
            things: 0,
            readers: 0,
            writers: 0,
            nodes: 0,
        },
    }
}

/// One thing more of the board; `node` where it is its node's only one, `port` where it is the only one of its port.
pub(crate) fn raise(board: u64, kind: &Kind, node: bool, port: bool, uses: &mut HashMap<u64, Use>)
    requires things { (kept.use_at uses.old board).things < 2 ^ 64 - 2 }
    requires readers { (kept.use_at uses.old board).readers < 2 ^ 64 - 2 }
    requires writers { (kept.use_at uses.old board).writers < 2 ^ 64 - 2 }
    requires nodes { (kept.use_at uses.old board).nodes < 2 ^ 64 - 2 }
    requires room { 0 < spare uses.old }
    ensures { (b : ℕ) → kept.use_at uses.new b
        ≡ (if board == b then kept.more kind.now node port (kept.use_at uses.old board)
        else kept.use_at uses.old b) }
{
    let u = use_of(board, uses);
    let more = Use {
        things: u.things + 1,
        readers: u.readers + number_if(kind.is_reader()),
        writers: u.writers + number_if(port),
        nodes: u.nodes + number_if(node),
    };
    let Ok(_) = uses.insert(board, more) else {
        unreachable!()
    };
}

/// One thing less of the board; `node` where its node has no other, `port` where no other is of its port.
pub(crate) fn lower(board: u64, kind: &Kind, node: bool, port: bool, uses: &mut HashMap<u64, Use>)
    requires things { 1 ≤ (kept.use_at uses.old board).things }
    requires readers { tables.number_if (tables.is_reader kind.now)
        ≤ (kept.use_at uses.old board).readers }
    requires writers { tables.number_if port ≤ (kept.use_at uses.old board).writers }
    requires nodes { tables.number_if node ≤ (kept.use_at uses.old board).nodes }
    ensures others { (b : ℕ) → (board == b) ≡ false
        → kept.use_at uses.new b ≡ kept.use_at uses.old b }
    ensures this { kept.more kind.now node port (kept.use_at uses.new board)
        ≡ kept.use_at uses.old board }
{
    let u = use_of(board, uses);
    let less = Use {
        things: u.things - 1,
        readers: u.readers - number_if(kind.is_reader()),
        writers: u.writers - number_if(port),
        nodes: u.nodes - number_if(node),
    };
    if is_nothing(&less) {
        let _ = uses.remove(&board);
    } else {
        let _ = uses.insert(board, less);
    }
}

// Nothing of the board is left to count.
fn is_nothing(u: &Use) -> bool
    ensures { OnTrue result (u.now ≡ kept.nothing_used) }
{
    u.things == 0 && u.readers == 0 && u.writers == 0 && u.nodes == 0
}

/// How many things are counted under the board and a number of it.
pub(crate) fn count_at(board: u64, number: u64, counts: &HashMap<(u64, u64), u64>) -> u64
    ensures { result ≡ kept.kept_at counts.now board number }
{
    match counts.get(&(board, number)) {
        Some(n) => *n,
        None => 0,
    }
}

/// One thing more under the board and the number.
pub(crate) fn raise_at(board: u64, number: u64, counts: &mut HashMap<(u64, u64), u64>)
    requires small { kept.kept_at counts.old board number < 2 ^ 64 - 2 }
    requires room { 0 < spare counts.old }
    ensures { (b n : ℕ) → kept.kept_at counts.new b n
        ≡ kept.kept_at counts.old b n + tables.number_if ((board == b) && (number == n)) }
{
    let n = count_at(board, number, counts);
    let Ok(_) = counts.insert((board, number), n + 1) else {
        unreachable!()
    };
}

/// One thing less under the board and the number. Nothing is kept of none.
pub(crate) fn lower_at(board: u64, number: u64, counts: &mut HashMap<(u64, u64), u64>)
    requires { 1 ≤ kept.kept_at counts.old board number }
    ensures { (b n : ℕ) → kept.kept_at counts.new b n
        + tables.number_if ((board == b) && (number == n)) ≡ kept.kept_at counts.old b n }
{
    let n = count_at(board, number, counts);
    if n == 1 {
        let _ = counts.remove(&(board, number));
    } else {
        let Ok(_) = counts.insert((board, number), n - 1) else {
            unreachable!()
        };
    }
}

/// Whether the kind keeps a port that no thing of the board is counted under.
pub(crate) fn is_only_of_port(board: u64, kind: &Kind, ports: &HashMap<(u64, u64), u64>) -> bool
    ensures { result ≡ tables.holds_at (tables.writer_port kind.now)
        (λ p. nat_eq (kept.kept_at ports.now board p) 0) }
{
    match kind.writer_port() {
        Some(port) => count_at(board, port, ports) == 0,
        None => false,
    }
}

/// One thing more of its port, where the kind keeps one.
pub(crate) fn raise_port(board: u64, kind: &Kind, ports: &mut HashMap<(u64, u64), u64>)
    requires small { (p : ℕ) → kept.kept_at ports.old board p < 2 ^ 64 - 2 }
    requires room { 0 < spare ports.old }
    ensures { (b p : ℕ) → kept.kept_at ports.new b p ≡ kept.kept_at ports.old b p
        + tables.number_if ((board == b) && tables.holds_at (tables.writer_port kind.now) (λ q. q == p)) }
{
    if let Some(port) = kind.writer_port() {
        raise_at(board, port, ports);
    }
}

/// One thing less of its port, where the kind keeps one.
pub(crate) fn lower_port(board: u64, kind: &Kind, ports: &mut HashMap<(u64, u64), u64>)
    requires { (p : ℕ) → tables.number_if (tables.holds_at (tables.writer_port kind.now) (λ q. q == p))
        ≤ kept.kept_at ports.old board p }
    ensures { (b p : ℕ) → kept.kept_at ports.new b p
        + tables.number_if ((board == b) && tables.holds_at (tables.writer_port kind.now) (λ q. q == p))
        ≡ kept.kept_at ports.old b p }
{
    if let Some(port) = kind.writer_port() {
        lower_at(board, port, ports);
    }
}

/// One write handle more of its entry, where the kind is one.
pub(crate) fn raise_handle(board: u64, kind: &Kind, written: &mut HashMap<(u64, u64), u64>)
    requires small { (e : ℕ) → kept.kept_at written.old board e < 2 ^ 64 - 2 }
    requires room { 0 < spare written.old }
    ensures { (b e : ℕ) → kept.kept_at written.new b e ≡ kept.kept_at written.old b e
        + tables.number_if ((board == b) && tables.writes_entry e kind.now) }
{
    if let Some(entry) = kind.written_entry() {
        raise_at(board, entry, written);
    }
}

/// One write handle less of its entry, where the kind is one.
pub(crate) fn lower_handle(board: u64, kind: &Kind, written: &mut HashMap<(u64, u64), u64>)
    requires { (e : ℕ) → tables.number_if (tables.writes_entry e kind.now)
        ≤ kept.kept_at written.old board e }
    ensures { (b e : ℕ) → kept.kept_at written.new b e
        + tables.number_if ((board == b) && tables.writes_entry e kind.now)
        ≡ kept.kept_at written.old b e }
{
    if let Some(entry) = kind.written_entry() {
        lower_at(board, entry, written);
    }
}
