//! The things of a domain, by the numbers that callers see.
ghost use Rattle.std.specs.Prelude.{◌≡◌, ◌+◌, ◌<◌, ◌-◌, ◌^◌, ◌++◌, ◌∷◌, [], find, option_map, nat_eq, nat_lt, IfOk, OnOk, OnErr};
ghost use Rattle.board_model.specs.Tables as tables;
ghost use Rattle.board_service.specs.Told as told;
ghost use Rattle.board_things.specs.Things.{HasThing, is_thing, new_thing, thing_numbered};

use crate::ids::{NodeId, ThingId};
use board_model::Kind;
use board_things::{Held, Things};
use std::alloc::AllocError;

/// The thing with the number, where it stands.
pub(crate) fn thing_at(number: ThingId, things: &Things) -> Option<&Held>
    ensures { option_map (λ t. t.now) result ≡ find (is_thing number) things.now.things }
{
    things.at(number.0)
}

/// The thing with the number, which stands.
pub(crate) fn thing_of(number: ThingId, things: &Things) -> Held
    requires { HasThing things.now number }
    ensures { result ≡ thing_numbered number things.now.things }
{
    things.of(number.0)
}

/// Takes the thing with the number out, which stands.
pub(crate) fn take_thing(number: ThingId, things: &mut Things) -> Held
    requires { HasThing things.old number }
    ensures taken { result ≡ thing_numbered number things.old.things }
    ensures rest { things.new.things ≡ tables.without_first (is_thing number) things.old.things }
    ensures last { things.new.last ≡ things.old.last }
{
    things.take(number.0)
}

/// Whether the node has a thing of the board.
pub(crate) fn is_node(board: u64, node: NodeId, things: &Things) -> bool
    ensures { result ≡ tables.is_node nat_eq board node things.now.things }
{
    things.is_node(board, node.0)
}

/// The node with so many below it among those of the board.
pub(crate) fn node_at(board: u64, index: u64, things: &Things) -> Option<NodeId>
    ensures { result
        ≡ told.node_from nat_eq nat_lt board index things.now.things things.now.things }
{
    match things.node_at(board, index) {
        Some(node) => Some(NodeId(node)),
        None => None,
    }
}

/// Adds a thing under the next number, where there is room. Takes no memory.
pub(crate) fn push(holder: NodeId, board: u64, kind: Kind, things: &mut Things) -> ThingId
    requires below { things.old.last < 2 ^ 64 - 2 }
    requires room { 0 < things.old.room }
    ensures number { result ≡ things.old.last + 1 }
    ensures things { things.new.things
        ≡ things.old.things ++ new_thing (things.old.last + 1) holder board kind ∷ [] }
    ensures last { things.new.last ≡ things.old.last + 1 }
{
    things.push_reserved(holder.0, board, kind);
    ThingId(things.last())
}

/// Adds a thing under the next number.
///
/// # Errors
/// `AllocError` where memory is refused. The things stay.
pub(crate) fn add(
    holder: NodeId,
    board: u64,
    kind: Kind,
    things: &mut Things,
) -> Result<ThingId, AllocError>
    requires { things.old.last < 2 ^ 64 - 2 }
    ensures number { IfOk result (λ number. number ≡ things.old.last + 1) }
    ensures ok { OnOk result (things.new.things
        ≡ things.old.things ++ new_thing (things.old.last + 1) holder board kind ∷ []) }
    ensures last { OnOk result (things.new.last ≡ things.old.last + 1) }
    ensures err { OnErr result (things.new.things ≡ things.old.things) }
    ensures err_last { OnErr result (things.new.last ≡ things.old.last) }
{
    things.reserve()?;
    Ok(push(holder, board, kind, things))
}
