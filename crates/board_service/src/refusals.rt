//! Why boards are not made and not opened. None of these functions needs memory.
ghost use Rattle.std.specs.Prelude.{◌≡◌, ◌≤◌, ◌<◌, ◌-◌, ◌^◌, ◌||◌, ◌∷◌, [], ◌++◌, find, length, nat_eq, true, false, IfNone, IfSome, IsSome};
ghost use Rattle.std.specs.List.{list_any};
ghost use Rattle.board_layout.specs.Keys as keys;
ghost use Rattle.board_model.specs.Tables as tables;
ghost use Rattle.board_model.specs.TableCalls as calls;
ghost use Rattle.board_model.specs.TypeTable as types;
ghost use Rattle.board_service.specs.Domain.{spent};
ghost use Rattle.board_service.specs.Entries.{HaveShapes, added, payload_of};

use crate::held::is_node;
use crate::ids::NodeId;
use crate::new_entry::NewEntry;
use crate::planned::is_too_large;
use board_concepts::AttributeVerifier;
use board_index::{BoardRow, Boards};
use board_layout::{BoardKey, KeyMemory, TypeDetail, key_of, same_keys};
use board_model::Limits;
use board_names::{BlackboardCreateError, BlackboardOpenError, ServiceName};
use board_things::Things;
use std::alloc::Global;
use std::collections::HashSet;

/// The last number from which no other is drawn: 2^64 - 2.
pub(crate) const LAST: u64 = 18446744073709551614;

// With as many entries or more, equal keys are looked for by their hashes. With fewer, each compared with each is as fast.
const MANY: usize = 16;

fn has_key<K: BoardKey>(key: &KeyMemory<64>, entries: &[NewEntry]) -> bool
    requires { K.SIZE ≤ 64 }
    ensures { result ≡ tables.has_key (keys.same_keys K.eq K.value_of K.SIZE K.WORDS)
        key.now.bytes (added entries.now) }
{
    for entry in entries {
        if same_keys::<K>(&entry.key, key) {
            return true;
        }
    }
    false
}

// Whether two of the keys are equal, found by their hashes. `None` where there is no memory for these.
fn has_equal_hashed<K: BoardKey>(alloc: Global, entries: &[NewEntry]) -> Option<bool>
    requires { K.SIZE ≤ 64 }
    ensures { IfSome result (λ equal. equal
        ≡ tables.has_equal_keys (keys.same_keys K.eq K.value_of K.SIZE K.WORDS) (added entries.now)) }
{
    let mut met: HashSet<K> = HashSet::new(alloc);
    let mut left = entries;
    while let Some((last, before)) = left.split_last() {
        match met.insert(key_of::<K>(&last.key)) {
            Ok(true) => left = before,
            Ok(false) => return Some(true),
            Err(_) => return None,
        }
    }
    Some(false)
}

// Whether two of the keys are equal, each compared with each.
fn has_equal_compared<K: BoardKey>(entries: &[NewEntry]) -> bool
    requires { K.SIZE ≤ 64 }
    ensures { result ≡ tables.has_equal_keys (keys.same_keys K.eq K.value_of K.SIZE K.WORDS)
        (added entries.now) }
{
    for (i, entry) in entries.iter().enumerate() {
        if has_key::<K>(&entry.key, &entries[i + 1..]) {
            return true;
        }
    }
    false
}

// Whether two of the keys are equal.
fn has_equal_keys<K: BoardKey>(alloc: Global, entries: &[NewEntry]) -> bool
    requires { K.SIZE ≤ 64 }
    ensures { result ≡ tables.has_equal_keys (keys.same_keys K.eq K.value_of K.SIZE K.WORDS)
        (added entries.now) }
{
    if entries.len() >= MANY {
        if let Some(equal) = has_equal_hashed::<K>(alloc, entries) {
            return equal;
        }
    }
    has_equal_compared::<K>(entries)
}

/// Why a board is not made.
pub(crate) fn create_refusal<K: BoardKey, C>(
    alloc: Global,
    name: &ServiceName,
    entries: &[NewEntry],
    boards: &Boards<C>,
    last_thing: u64,
) -> Option<BlackboardCreateError>
    requires size { 0 < length entries.now → K.SIZE ≤ 64 }
    requires shapes { HaveShapes entries.now }
    ensures first { result ≡ calls.first_of
        (calls.create_refusals (keys.same_keys K.eq K.value_of K.SIZE K.WORDS)
        boards.now.boards name.now (added entries.now)
        ++ (spent boards.now.last || spent last_thing, BlackboardCreateError.NumbersSpent) ∷ []) }
    ensures small { IfNone result (payload_of entries.now < 2 ^ 32) }
    ensures key { IfNone result (K.SIZE ≤ 64) }
    ensures below { IfNone result ((boards.now.last < 2 ^ 64 - 2) × (last_thing < 2 ^ 64 - 2)) }
    ensures free { IfNone result
        (list_any (tables.has_name name.now) boards.now.boards ≡ false) }
{
    if boards.has_name(name) {
        return Some(BlackboardCreateError::AlreadyExists);
    }
    if entries.is_empty() {
        return Some(BlackboardCreateError::NoEntriesProvided);
    }
    if has_equal_keys::<K>(alloc, entries) || is_too_large(entries) {
        return Some(BlackboardCreateError::ServiceInCorruptedState);
    }
    if boards.last() >= LAST || last_thing >= LAST {
        return Some(BlackboardCreateError::NumbersSpent);
    }
    None
}

fn asks_above(asked: Option<u64>, limit: u64) -> bool
    ensures { result ≡ calls.asks_above asked limit }
{
    match asked {
        Some(n) => limit < n,
        None => false,
    }
}

// Whether the node has no thing of the board, and as many have one as may.
fn has_all_nodes(node: NodeId, board: &BoardRow, things: &Things) -> bool
    ensures { result ≡ calls.has_all_nodes nat_eq node things.now.things board.now }
{
    !is_node(board.number(), node, things)
        && board.max_nodes() <= things.nodes_taken(board.number())
}

/// Why a board is not opened.
pub(crate) fn open_refusal<C>(
    node: NodeId,
    name: &ServiceName,
    key: &TypeDetail,
    limits: &Limits,
    needs: &AttributeVerifier,
    boards: &Boards<C>,
    things: &Things,
    last_thing: u64,
) -> Option<BlackboardOpenError>
    ensures first { result ≡ calls.first_of
        (calls.open_refusals nat_eq things.now.things node
        (find (tables.has_name name.now) boards.now.boards) key.now limits.now needs.now
        ++ (spent last_thing, BlackboardOpenError.NumbersSpent) ∷ []) }
    ensures stands { IfNone result (IsSome (find (tables.has_name name.now) boards.now.boards)) }
    ensures alike { IfNone result (tables.holds_at (find (tables.has_name name.now) boards.now.boards)
        (λ b. types.same_type b.key key.now) ≡ true) }
    ensures room { IfNone result (tables.holds_at (find (tables.has_name name.now) boards.now.boards)
        (calls.has_all_nodes nat_eq node things.now.things) ≡ false) }
    ensures below { IfNone result (last_thing < 2 ^ 64 - 2) }
{
    let Some(board) = boards.named(name) else {
        return Some(BlackboardOpenError::DoesNotExist);
    };
    if !board.key().is(key) {
        return Some(BlackboardOpenError::IncompatibleKeys);
    }
    if !needs.verify_requirements(board.attributes()) {
        return Some(BlackboardOpenError::IncompatibleAttributes);
    }
    if asks_above(limits.max_readers, board.max_readers()) {
        return Some(BlackboardOpenError::DoesNotSupportRequestedAmountOfReaders);
    }
    if asks_above(limits.max_nodes, board.max_nodes()) {
        return Some(BlackboardOpenError::DoesNotSupportRequestedAmountOfNodes);
    }
    if has_all_nodes(node, board, things) {
        return Some(BlackboardOpenError::ExceedsMaxNumberOfNodes);
    }
    if last_thing >= LAST {
        return Some(BlackboardOpenError::NumbersSpent);
    }
    None
}

/// The number of the board with the name, which stands.
pub(crate) fn number_of_named<C>(name: &ServiceName, boards: &Boards<C>) -> u64
    requires { IsSome (find (tables.has_name name.now) boards.now.boards) }
    ensures value { result ≡ calls.number_of (find (tables.has_name name.now) boards.now.boards) }
    ensures stands { IsSome (find (tables.is_numbered result) boards.now.boards) }
{
    match boards.named(name) {
        Some(b) => b.number(),
        // A board with the name stands.
        None => unreachable!(),
    }
}

/// The limit that was asked for, raised to 1, or the default.
pub(crate) fn limit_of(default: u64, asked: Option<u64>) -> u64
    ensures value { result ≡ tables.limit_of default asked }
    ensures least { 1 ≤ default → 1 ≤ result }
{
    match asked {
        Some(n) => n.max(1),
        None => default,
    }
}
