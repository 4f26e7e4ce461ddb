//! What is listed of a board.
ghost use Rattle.std.specs.Prelude.{◌≡◌, ◌||◌, true, ℕ, List, IfOk, OnErr, OnOk, is_some, map};
ghost use Rattle.std.specs.BTreeSet as set;
ghost use Rattle.std.specs.Cmp.Lexicographic.{slice_cmp};
ghost use Rattle.std.specs.Ordering.{nat_cmp};
ghost use Rattle.std.specs.Str.{bytes_eq};
ghost use Rattle.board_model.specs.Tables.{board_at, holds_at};
ghost use Rattle.board_model.specs.TypeTable.{key_shown};
ghost use Rattle.script_parties.specs.BoardNodes.{AreHolders, is_told, node_party};

use board_model::{KeyType, Keys, Name, Names, key_of};
use board_service::{BoardWords, DomainCore, EntryRow, NodeId};
use indexmap::IndexSet;
use std::alloc::{AllocError, Global};
use std::collections::BTreeSet;

/// The keys of entries, in the order of adding.
pub(crate) fn keys_of(
    alloc: Global,
    key_type: KeyType,
    entries: &[EntryRow],
) -> Result<Keys, AllocError>
    ensures { IfOk result (λ keys. keys ≡ map (key_shown key_type) entries.now) }
{
    let mut keys = Vec::with_capacity(alloc, entries.len())?;
    for entry in entries {
        keys.push(key_of(key_type, &entry.key))?;
    }
    Ok(Keys::from_vec(keys))
}

// The party of a node, if there is one.
fn party_of(node: Option<NodeId>, nodes: &IndexSet<Name>) -> Option<Name>
    ensures { result ≡ node_party nodes.now.keys node }
{
    match node {
        Some(node) => nodes
            .get_index((node.0 as usize).saturating_sub(1))
            .copied(),
        None => None,
    }
}

// Adds a party to the others, if there is one.
fn add_party(party: Option<Name>, parties: &mut BTreeSet<Name>) -> Result<(), AllocError>
    ensures { OnOk result ((p : List ℕ) → set.contains (slice_cmp nat_cmp) parties.new p
        ≡ (set.contains (slice_cmp nat_cmp) parties.old p
        || holds_at party (λ q. bytes_eq q p))) }
{
    match party {
        Some(party) => match parties.insert(party) {
            Ok(_) => Ok(()),
            Err(_) => Err(AllocError),
        },
        None => Ok(()),
    }
}

// The parties that are the first so many nodes of the board.
fn parties_of<C: BoardWords>(
    alloc: Global,
    board: u64,
    count: u64,
    nodes: &IndexSet<Name>,
    core: &DomainCore<C>,
) -> Result<BTreeSet<Name>, AllocError>
    ensures { IfOk result (λ parties. (p : List ℕ) → set.contains (slice_cmp nat_cmp) parties p
        ≡ is_told nodes.now.keys core.now board p count) }
{
    let mut parties = BTreeSet::new(alloc);
    for index in 0..count {
        add_party(party_of(core.node_at(board, index), nodes), &mut parties)?;
    }
    Ok(parties)
}

/// The parties that are nodes of the board, in the order of their bytes.
///
/// # Errors
/// `AllocError` where memory is refused, which is taken only for a board that stands.
pub(crate) fn nodes_at<C: BoardWords>(
    alloc: Global,
    board: u64,
    nodes: &IndexSet<Name>,
    core: &DomainCore<C>,
) -> Result<Names, AllocError>
    ensures holders { IfOk result (AreHolders nodes.now.keys core.now board) }
    ensures memory { OnErr result (is_some (board_at core.now.tables board) ≡ true) }
{
    let Some(taken) = core.use_of(board) else {
        return Ok(Names::from_vec(Vec::new(alloc)));
    };
    let parties = parties_of(alloc, board, taken.nodes, nodes, core)?;
    Ok(Names::from_vec(parties.iter().copied().collect(alloc)?))
}
