//! The life of a board, by typed calls under both policies and by lent forms.
//!
//! Each row is run twice, with the same expected answers. The steps are small, since each is proved before it is run.
mod attributes;
mod lent;
mod loans;
mod many;
mod published;
mod receipts;
mod released;
mod typed;

use crate::same::same;
use board_concepts::Policy;
use board_domain::{CallbackProgression, Creator, Node, Opener, PortFactory, ServiceBuilder};
use board_handles::Domain;
use board_names::{NodeName, ServiceName};
use board_service::DynamicConfig;
use std::alloc::Global;
use std::process::Abort;

fn new_domain<R: Abort>(rt: &R, alloc: Global) -> Domain {
    Domain::new(alloc).expect(rt, "memory")
}

fn node_name<R: Abort>(rt: &R, name: &str) -> NodeName {
    NodeName::new(name).expect(rt, "a name")
}

fn builder<R: Abort>(rt: &R, node: &Node, name: &str) -> ServiceBuilder {
    let name = ServiceName::new(name).expect(rt, "a name");
    node.service_builder(&name).expect(rt, "memory")
}

// What makes a board of a number and of a truth value, under the keys 1 and 2.
fn creator<P: Policy, R: Abort>(rt: &R, alloc: Global, node: &Node) -> Creator<u64, P> {
    let creator = builder(rt, node, "board").blackboard_creator::<u64, P>(alloc);
    let creator = creator.max_readers(1).max_nodes(2).max_writers(1);
    let creator = creator.add(1, 7u64).expect(rt, "memory");
    creator.add_with_default::<bool>(2).expect(rt, "memory")
}

// What makes a second board, of a number alone. It has room for more ports than a test makes.
fn second_creator<P: Policy, R: Abort>(rt: &R, alloc: Global, node: &Node) -> Creator<u64, P> {
    let creator = builder(rt, node, "second").blackboard_creator::<u64, P>(alloc);
    let creator = creator.max_writers(2);
    creator.add(1, 3u64).expect(rt, "memory")
}

// What would make the second board with a key twice.
fn twice_creator<P: Policy, R: Abort>(rt: &R, alloc: Global, node: &Node) -> Creator<u64, P> {
    let creator = second_creator::<P, R>(rt, alloc, node);
    creator.add(1, 4u64).expect(rt, "memory")
}

fn opener<P: Policy, R: Abort>(rt: &R, alloc: Global, node: &Node) -> Opener<u64, P> {
    let opener = builder(rt, node, "board").blackboard_opener::<u64, P>(alloc);
    opener.max_readers(1).max_nodes(2)
}

fn second_opener<P: Policy, R: Abort>(rt: &R, alloc: Global, node: &Node) -> Opener<u64, P> {
    builder(rt, node, "second").blackboard_opener::<u64, P>(alloc)
}

// The second board has the next number, and no attributes, as it was made and as it was opened.
fn is_second<P, R: Abort>(rt: &R, made: &PortFactory<u64, P>, opened: &PortFactory<u64, P>) {
    same(
        rt,
        &(made.unique_service_id(), opened.unique_service_id()),
        &(2, 2),
    );
    same(
        rt,
        &(made.attributes().len(), opened.attributes().len()),
        &(0, 0),
    );
}

// One more digit, and whether a walk goes on: it does until it meets `last`.
fn note(digits: &mut u64, digit: u64, last: u64) -> CallbackProgression {
    *digits = digits.wrapping_mul(10).wrapping_add(digit);
    if digit == last {
        return CallbackProgression::Stop;
    }
    CallbackProgression::Continue
}

// How many readers, writer slots and nodes are taken.
fn taken(readers: u64, writers: u64, nodes: u64) -> DynamicConfig {
    DynamicConfig {
        readers,
        writers,
        nodes,
    }
}
