//! Where each part ends among all pairs, so that a pair is found by its place, by bisection.
ghost use Rattle.std.specs.Prelude.{ℕ, ◌≡◌, ◌+◌, ◌<◌, ◌≤◌, ◌^◌, ◌++◌, List, length, take, slice_get, vec_len, vec_capacity};
ghost use Rattle.std.specs.List.{prefix_len};
ghost use Rattle.board_things.specs.Nodes.{AreEnds, ends_from, is_by, joined};

use crate::part::Part;

/// How many pairs the parts have that have these ends: what the last one tells.
pub(crate) fn count_of(ends: &[usize]) -> usize
    ensures { (parts : List (List (ℕ × ℕ))) → ends.now ≡ ends_from 0 parts → result ≡ length (joined parts) }
{
    match ends.last() {
        Some(end) => *end,
        None => 0,
    }
}

/// Counts anew where the parts from one on end; of those ahead of it, the ends stand. Takes no memory: there is room.
pub(crate) fn count_from(first: usize, parts: &[Part], ends: &mut Vec<usize>)
    requires ahead { take first ends.old.items ≡ ends_from 0 (take first parts.now) }
    requires inside { first ≤ length parts.now }
    requires few { length (joined parts.now) < 2 ^ 64 }
    requires room { length parts.now ≤ vec_capacity ends.old }
    ensures { ends.new.items ≡ ends_from 0 parts.now }
{
    let Ok(()) = ends.resize(parts.len(), 0) else {
        // There is room.
        unreachable!()
    };
    let mut end = count_of(&ends[..first]);
    for i in first..parts.len() {
        end += parts[i].pairs().len();
        ends[i] = end;
    }
}

// How many of the ends are at a place or ahead of it.
fn ends_by(place: usize, ends: &[usize]) -> usize
    requires { AreEnds ends.now }
    ensures count { result ≡ prefix_len (is_by place) ends.now }
    ensures inside { result ≤ length ends.now }
{
    ends.partition_point(|end| *end <= place)
}

fn pair_in(place: usize, pairs: &[(u64, u64)]) -> Option<(u64, u64)>
    ensures { result ≡ slice_get pairs.now place }
{
    pairs.get(place).copied()
}

/// The pair at a place among all.
pub(crate) fn pair_at(place: usize, parts: &[Part], ends: &[usize]) -> Option<(u64, u64)>
    requires { ends.now ≡ ends_from 0 parts.now }
    ensures { result ≡ slice_get (joined parts.now) place }
{
    let part = ends_by(place, ends);
    let ahead = count_of(&ends[..part]);
    match parts.get(part) {
        Some(p) => pair_in(place - ahead, p.pairs()),
        None => None,
    }
}
