//! Pairs of a board and a node, in order and in parts, so that a pair that comes or goes moves pairs of few parts.
ghost use Rattle.std.specs.Prelude.{ℕ, ◌≡◌, ◌+◌, ◌-◌, ◌^◌, ◌<◌, ◌≤◌, ◌&&◌, ◌||◌, [], not, length, take, drop, insert, remove, slice_get, slice_index_or, vec_len, vec_capacity, IfSome, Some, true, false};
ghost use Rattle.std.specs.List.{AllByRecursion, list_any, prefix_len};
ghost use Rattle.board_things.specs.Nodes.{HasPair, HasRoom, AreCounted, AreParts, AreInOrder, KeepsAhead, joined, part_at};
ghost use Rattle.board_things.specs.Nodes as nodes;

use crate::ends::{count_from, count_of, pair_at};
use crate::part::{MOST_PAIRS, Part};

fn comes_before(board: u64, node: u64, pair: &(u64, u64)) -> bool
    ensures { result ≡ nodes.comes_before board node pair.now }
{
    pair.0 < board || pair.0 == board && pair.1 < node
}

// How many pairs come before that of the board and the node.
fn place_of(board: u64, node: u64, pairs: &[(u64, u64)]) -> usize
    requires { AreInOrder pairs.now }
    ensures place { result ≡ prefix_len (nodes.comes_before board node) pairs.now }
    ensures inside { result ≤ length pairs.now }
{
    pairs.partition_point(|p| comes_before(board, node, p))
}

// Whether the part's last pair comes before that of the board and the node.
fn ends_before(board: u64, node: u64, part: &Part) -> bool
    ensures { result ≡ nodes.ends_before board node part.now }
{
    match part.pairs().last() {
        Some(p) => comes_before(board, node, p),
        None => true,
    }
}

// How many parts end before the pair of the board and the node.
fn part_of(board: u64, node: u64, parts: &[Part]) -> usize
    requires { AreParts parts.now }
    ensures place { result ≡ prefix_len (nodes.ends_before board node) parts.now }
    ensures inside { result ≤ length parts.now }
{
    parts.partition_point(|p| ends_before(board, node, p))
}

// The node of a pair, where it is of the board.
fn node_of(board: u64, pair: Option<(u64, u64)>) -> Option<u64>
    ensures { result ≡ nodes.node_of board pair }
{
    match pair {
        Some(p) => (p.0 == board).then_some(p.1),
        None => None,
    }
}

/// The node at a place among those of the board.
pub(crate) fn node_in(board: u64, index: u64, parts: &[Part], ends: &[usize]) -> Option<u64>
    requires parts { AreParts parts.now }
    requires counted { AreCounted ends.now parts.now }
    ensures { result ≡ slice_get (nodes.nodes_in board (joined parts.now)) index }
{
    let part = part_of(board, 0, parts);
    if part == parts.len() {
        return None;
    }
    let place = place_of(board, 0, parts[part].pairs());
    let first = count_of(&ends[..part]) + place;
    match first.checked_add(index as usize) {
        Some(place) => node_of(board, pair_at(place, parts, ends)),
        None => None,
    }
}

// Adds a pair at a place of a part. Takes no memory: there is room.
fn insert_at(
    part: usize,
    place: usize,
    pair: (u64, u64),
    parts: &mut Vec<Part>,
    spare: &mut Option<Part>,
)
    requires part { part < length parts.old.items }
    requires place { place ≤ length (part_at part parts.old.items) }
    requires filled { AllByRecursion HasPair parts.old.items }
    requires room { HasRoom parts.old spare.old }
    ensures joined { joined parts.new.items
        ≡ insert (joined parts.old.items) (length (joined (take part parts.old.items)) + place) pair }
    ensures filled { AllByRecursion HasPair parts.new.items }
    ensures ahead { KeepsAhead part 1 parts.old.items parts.new.items }
    ensures spare { IfSome spare.new (λ p. p ≡ []) }
{
    if !parts[part].is_full() {
        parts[part].insert(place, pair);
        return;
    }
    let Some(mut rest) = spare.take() else {
        // There is room.
        unreachable!()
    };
    parts[part].insert_and_split(place, pair, &mut rest);
    let Ok(()) = parts.insert(part + 1, rest) else {
        // There is room.
        unreachable!()
    };
}

// Adds a pair behind all others. Takes no memory: there is room.
fn push(pair: (u64, u64), parts: &mut Vec<Part>, spare: &mut Option<Part>)
    requires filled { AllByRecursion HasPair parts.old.items }
    requires room { HasRoom parts.old spare.old }
    ensures joined { joined parts.new.items
        ≡ insert (joined parts.old.items) (length (joined parts.old.items)) pair }
    ensures filled { AllByRecursion HasPair parts.new.items }
    ensures ahead { KeepsAhead (length parts.old.items - 1) 1 parts.old.items parts.new.items }
    ensures spare { IfSome spare.new (λ p. p ≡ []) }
{
    if let Some(last) = parts.len().checked_sub(1) {
        if !parts[last].is_full() {
            let place = parts[last].pairs().len();
            parts[last].insert(place, pair);
            return;
        }
    }
    let Some(mut rest) = spare.take() else {
        // There is room.
        unreachable!()
    };
    rest.insert(0, pair);
    let Ok(()) = parts.push(rest) else {
        // There is room.
        unreachable!()
    };
}

/// Adds a pair, which is none of these. Takes no memory: there is room.
pub(crate) fn put(
    board: u64,
    node: u64,
    parts: &mut Vec<Part>,
    ends: &mut Vec<usize>,
    spare: &mut Option<Part>,
)
    requires parts { AreParts parts.old.items }
    requires counted { AreCounted ends.old.items parts.old.items }
    requires few { length (joined parts.old.items) + 1 < 2 ^ 64 }
    requires other { list_any (nodes.is_pair board node) (joined parts.old.items) ≡ false }
    requires room { HasRoom parts.old spare.old }
    requires ends { vec_len ends.old < vec_capacity ends.old }
    ensures parts { AreParts parts.new.items }
    ensures counted { AreCounted ends.new.items parts.new.items }
    ensures are { (b n : ℕ) → list_any (nodes.is_pair b n) (joined parts.new.items)
        ≡ (nodes.is_pair b n (board, node) || list_any (nodes.is_pair b n) (joined parts.old.items)) }
    ensures spare { IfSome spare.new (λ p. p ≡ []) }
{
    let part = part_of(board, node, parts);
    if part < parts.len() {
        let place = place_of(board, node, parts[part].pairs());
        insert_at(part, place, (board, node), parts, spare);
        count_from(part, parts, ends);
    } else {
        push((board, node), parts, spare);
        count_from(part.saturating_sub(1), parts, ends);
    }
}

// Makes one part of two neighbours that have few pairs.
fn join_at(part: usize, parts: &mut Vec<Part>)
    requires filled { AllByRecursion HasPair parts.old.items }
    ensures joined { joined parts.new.items ≡ joined parts.old.items }
    ensures filled { AllByRecursion HasPair parts.new.items }
    ensures ahead { KeepsAhead part 0 parts.old.items parts.new.items }
{
    if part < parts.len()
        && part + 1 < parts.len()
        && parts[part].pairs().len() + parts[part + 1].pairs().len() <= MOST_PAIRS / 2
    {
        let next = parts.remove(part + 1);
        parts[part].append(&next);
    }
}

// Takes the pair at a place of a part out.
fn remove_at(part: usize, place: usize, parts: &mut Vec<Part>)
    requires part { part < length parts.old.items }
    requires place { place < length (part_at part parts.old.items) }
    requires filled { AllByRecursion HasPair parts.old.items }
    ensures joined { joined parts.new.items
        ≡ remove (joined parts.old.items) (length (joined (take part parts.old.items)) + place) }
    ensures filled { AllByRecursion HasPair parts.new.items }
    ensures ahead { KeepsAhead part 0 parts.old.items parts.new.items }
{
    if parts[part].pairs().len() == 1 {
        let _ = parts.remove(part);
    } else {
        parts[part].remove(place);
    }
}

/// Takes a pair out, which is one of these.
pub(crate) fn take(board: u64, node: u64, parts: &mut Vec<Part>, ends: &mut Vec<usize>)
    requires parts { AreParts parts.old.items }
    requires counted { AreCounted ends.old.items parts.old.items }
    requires one { list_any (nodes.is_pair board node) (joined parts.old.items) ≡ true }
    ensures parts { AreParts parts.new.items }
    ensures counted { AreCounted ends.new.items parts.new.items }
    ensures are { (b n : ℕ) → list_any (nodes.is_pair b n) (joined parts.new.items)
        ≡ (list_any (nodes.is_pair b n) (joined parts.old.items) && not (nodes.is_pair b n (board, node))) }
{
    let part = part_of(board, node, parts);
    let place = place_of(board, node, parts[part].pairs());
    remove_at(part, place, parts);
    join_at(part, parts);
    let first = part.saturating_sub(1);
    join_at(first, parts);
    count_from(first, parts, ends);
}
