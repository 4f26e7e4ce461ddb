//! What a factory keeps of its board, and how boards are made and opened behind the lock.
ghost use Rattle.std.specs.Prelude.{◌≡◌, ◌≤◌, ◌<◌, Some, length, option_map, All, IfOk, IsSome, OnOk, OnErr};
ghost use Rattle.board_layout.specs.Answer.{Answers, Refuses, with_value};
ghost use Rattle.board_layout.specs.Bytes.{details};
ghost use Rattle.board_layout.specs.Keys.{same_keys};
ghost use Rattle.board_layout.specs.Layout.{IsShape};
ghost use Rattle.board_model.specs.Tables.{board_at, shapes_of};
ghost use Rattle.board_service.specs.Domain as calls;
ghost use Rattle.board_service.specs.Facts.{IsHeldAs};
ghost use Rattle.board_domain.specs.Asked.{IsAsAsked, config_asked};
ghost use Rattle.board_domain.specs.Kept.{attributes_of, kept_made, seen_of, KeepsBoard};
ghost use Rattle.board_domain.specs.LentForms as lent;

use board_concepts::{AttributeSet, AttributeVerifier};
use board_handles::{BoardCells, DomainState};
use board_layout::BoardKey;
use board_model::{Limits, NewLimits};
use board_names::{AttributeError, BlackboardCreateError, BlackboardOpenError, ServiceName};
use board_service::{DomainCore, Made, NewEntry, NodeId, StaticConfig, ThingKind};
use std::alloc::AllocError;

/// A factory's thing and its board's number, and what is fixed of the board.
#[derive(Drop)]
pub(crate) struct Kept {
    pub(crate) made: Made,
    pub(crate) config: StaticConfig,
    pub(crate) attributes: AttributeSet,
}

/// What a new board is asked to be, but for its attributes: the node that asks, the name, the limits, and the entries so far.
#[derive(Drop)]
pub(crate) struct Asked {
    pub(crate) node: NodeId,
    pub(crate) name: ServiceName,
    pub(crate) limits: NewLimits,
    pub(crate) entries: Vec<NewEntry>,
}

// What is fixed of a board that stands, with its attributes.
fn kept_with(tables: &DomainCore<BoardCells>, made: Made, attributes: AttributeSet) -> Kept
    requires { Some attributes ≡ option_map attributes_of (board_at tables.now.tables made.number) }
    ensures made { result.made ≡ made }
    ensures kept { KeepsBoard tables.now result }
    ensures attributes { result.attributes ≡ attributes }
{
    // The board stands.
    let Some(config) = tables.config_of(made.number) else {
        unreachable!()
    };
    Kept {
        made,
        config,
        attributes,
    }
}

// An equal list of attributes.
fn copied(attributes: &AttributeSet) -> Result<AttributeSet, AllocError>
    ensures ok { IfOk result (λ set. set ≡ attributes.now) }
{
    match attributes.copy() {
        Ok(copied) => Ok(copied),
        Err(AttributeError::OutOfMemory) => Err(AllocError),
        // Only for want of memory is a copy refused.
        Err(_) => unreachable!(),
    }
}

// What is fixed of a board that stands.
fn kept_of(tables: &DomainCore<BoardCells>, made: Made) -> Result<Kept, AllocError>
    requires { IsSome (board_at tables.now.tables made.number) }
    ensures made { IfOk result (λ k. k.made ≡ made) }
    ensures kept { IfOk result (λ k. KeepsBoard tables.now k) }
{
    // The board stands.
    let Some(attributes) = tables.attributes_of(made.number) else {
        unreachable!()
    };
    let copied = copied(attributes)?;
    Ok(kept_with(tables, made, copied))
}

/// Makes a board, and a factory of it for a node.
///
/// # Errors
/// As the tables' `create`. All stays as it was.
pub(crate) fn new_board<K: BoardKey>(
    state: &mut DomainState,
    asked: Asked,
    attributes: AttributeSet,
) -> Result<Kept, BlackboardCreateError>
    requires size { 0 < length (seen_of asked).entries → K.SIZE ≤ 64 }
    requires shapes { All IsShape (shapes_of (seen_of asked).entries) }
    ensures answer { let same_key = same_keys K.eq K.value_of K.SIZE K.WORDS in
        let seen = seen_of asked in
        let answer = calls.create_answer state.old.tables same_key seen.name seen.entries in
        Answers (with_value kept_made result) BlackboardCreateError.OutOfMemory answer }
    ensures refused { let same_key = same_keys K.eq K.value_of K.SIZE K.WORDS in
        let seen = seen_of asked in
        let answer = calls.create_answer state.old.tables same_key seen.name seen.entries in
        Refuses (with_value kept_made result) answer }
    ensures ok { let keys = details K.type_bytes K.SIZE K.ALIGNMENT in
        let board = lent.asked_board (seen_of asked) keys attributes in
        OnOk result (lent.IsMade board state.old.tables state.new.tables) }
    ensures held { let keys = details K.type_bytes K.SIZE K.ALIGNMENT in
        IfOk result (λ k. IsHeldAs state.new.tables keys k.made.thing ThingKind.Factory) }
    ensures err { OnErr result (state.new.tables ≡ state.old.tables) }
    ensures kept { IfOk result (λ k. KeepsBoard state.new.tables k) }
    ensures config { let keys = details K.type_bytes K.SIZE K.ALIGNMENT in
        let config = config_asked keys asked.limits (length (seen_of asked).entries) in
        IfOk result (λ k. k.config ≡ config) }
    ensures attributes { IfOk result (λ k. k.attributes ≡ attributes) }
    ensures nodes { state.new.nodes ≡ state.old.nodes }
{
    state.tables.facts();
    let refusal = state
        .tables
        .create_refusal::<K>(&asked.name, asked.entries.as_slice());
    if let Some(why) = refusal {
        return Err(why);
    }
    // The factory's memory is taken before the tables change.
    let Ok(copied) = copied(&attributes) else {
        return Err(BlackboardCreateError::OutOfMemory);
    };
    let entries = asked.entries;
    let made = state.tables.create::<K>(
        asked.node,
        &asked.name,
        asked.limits.shared,
        asked.limits.max_writers,
        attributes,
        entries,
    )?;
    Ok(kept_with(&state.tables, made, copied))
}

/// Makes one more factory of a board, for a node.
///
/// # Errors
/// As the tables' `open`. All stays as it was.
pub(crate) fn open_board<K: BoardKey>(
    state: &mut DomainState,
    node: NodeId,
    name: &ServiceName,
    limits: Limits,
    verifier: &AttributeVerifier,
) -> Result<Kept, BlackboardOpenError>
    ensures answer { let keys = details K.type_bytes K.SIZE K.ALIGNMENT in
        let answer = calls.open_answer state.old.tables node name.now keys limits verifier.now in
        Answers (with_value kept_made result) BlackboardOpenError.OutOfMemory answer }
    ensures refused { let keys = details K.type_bytes K.SIZE K.ALIGNMENT in
        let answer = calls.open_answer state.old.tables node name.now keys limits verifier.now in
        Refuses (with_value kept_made result) answer }
    ensures ok { OnOk result (state.new.tables ≡ calls.after_open state.old.tables node name.now) }
    ensures held { let keys = details K.type_bytes K.SIZE K.ALIGNMENT in
        IfOk result (λ k. IsHeldAs state.new.tables keys k.made.thing ThingKind.Factory) }
    ensures err { OnErr result (state.new.tables ≡ state.old.tables) }
    ensures kept { IfOk result (λ k. KeepsBoard state.new.tables k) }
    ensures asked { let keys = details K.type_bytes K.SIZE K.ALIGNMENT in
        IfOk result (λ k. IsAsAsked keys limits verifier.now k.config k.attributes) }
    ensures nodes { state.new.nodes ≡ state.old.nodes }
{
    state.tables.facts();
    let made = state.tables.open_answer::<K>(node, name, limits, verifier)?;
    // The factory's memory is taken before the tables change.
    let Ok(kept) = kept_of(&state.tables, made) else {
        return Err(BlackboardOpenError::OutOfMemory);
    };
    match state.tables.open_unrefused(node, name) {
        Ok(_) => Ok(kept),
        Err(AllocError) => Err(BlackboardOpenError::OutOfMemory),
    }
}
