//! A board is opened by what is needed of its attributes.
use super::typed::{new_board, new_node, new_reader, new_writer, read_handle};
use super::{creator, is_second, new_domain, opener, second_creator, second_opener};
use crate::same::same;
use board_concepts::{AttributeSpecifier, AttributeVerifier, Policy, Shared, Single};
use board_domain::{Node, PortFactory};
use board_names::{BlackboardCreateError, BlackboardOpenError};
use std::alloc::Global;
use std::process::Abort;
use std::sync::Wait;

// Makes a board of this unit.
fn make<P: Policy, R: Wait + Abort>(
    rt: &R,
    alloc: Global,
    node: &Node,
    unit: &str,
) -> PortFactory<u64, P> {
    let attributes = AttributeSpecifier::new(alloc).define("unit", unit);
    let attributes = attributes.expect(rt, "memory");
    let made = creator::<P, R>(rt, alloc, node).create_with_attributes(rt, attributes);
    made.expect(rt, "a free name")
}

// Opens a board that is to have this unit.
fn open<P: Policy, R: Wait + Abort>(
    rt: &R,
    alloc: Global,
    node: &Node,
    unit: &str,
) -> Result<PortFactory<u64, P>, BlackboardOpenError> {
    let needs = AttributeVerifier::new(alloc).require("unit", unit);
    let needs = needs.expect(rt, "memory");
    opener::<P, R>(rt, alloc, node).open_with_attributes(rt, &needs)
}

fn looked_at<P: Policy, R: Wait + Abort>(rt: &R, alloc: Global) {
    let domain = new_domain(rt, alloc);
    let node = new_node(rt, &domain, "one");
    let made = make::<P, R>(rt, alloc, &node, "si");
    let refused = open::<P, R>(rt, alloc, &node, "miles").err();
    same(
        rt,
        &refused,
        &Some(BlackboardOpenError::IncompatibleAttributes),
    );
    let opened = open::<P, R>(rt, alloc, &node, "si").expect(rt, "its unit");
    same(rt, &opened.attributes().len(), &1);
    same(rt, &made.attributes().len(), &1);
    let again = creator::<P, R>(rt, alloc, &node).create(rt).err();
    same(rt, &again, &Some(BlackboardCreateError::AlreadyExists));
}

#[test]
fn attributes_are_looked_at(rt: HostRuntime) {
    looked_at::<Shared, HostRuntime>(&rt, rt.alloc());
    looked_at::<Single, HostRuntime>(&rt, rt.alloc());
}

// Makes a second board, without attributes.
fn make_second<P: Policy, R: Wait + Abort>(
    rt: &R,
    alloc: Global,
    node: &Node,
) -> PortFactory<u64, P> {
    let none = AttributeSpecifier::new(alloc);
    let made = second_creator::<P, R>(rt, alloc, node).create_with_attributes(rt, none);
    made.expect(rt, "a free name")
}

// Opens the second board, of which nothing is needed.
fn open_second<P: Policy, R: Wait + Abort>(
    rt: &R,
    alloc: Global,
    node: &Node,
) -> PortFactory<u64, P> {
    let nothing = AttributeVerifier::new(alloc);
    let opened = second_opener::<P, R>(rt, alloc, node).open_with_attributes(rt, &nothing);
    opened.expect(rt, "nothing is needed")
}

// A reader of the second board has the next number of all ports, and reads that board's value.
fn is_read<P, R: Wait + Abort>(rt: &R, board: &PortFactory<u64, P>) {
    let reader = new_reader(rt, board);
    same(rt, &reader.id().0, &2);
    let value = read_handle(rt, &reader).get(rt);
    same(rt, &(*value.get_ref(), value.generation()), &(3, 1));
}

fn two_boards<P: Policy, R: Wait + Abort>(rt: &R, alloc: Global) {
    let domain = new_domain(rt, alloc);
    let node = new_node(rt, &domain, "one");
    let first = new_board::<P, R>(rt, alloc, &node);
    let writer = new_writer(rt, &first);
    same(rt, &(first.unique_service_id(), writer.id().0), &(1, 1));
    let made = make_second::<P, R>(rt, alloc, &node);
    let opened = open_second::<P, R>(rt, alloc, &node);
    is_second(rt, &made, &opened);
    is_read(rt, &opened);
}

#[test]
fn a_second_board_is_opened_under_both_policies(rt: HostRuntime) {
    two_boards::<Shared, HostRuntime>(&rt, rt.alloc());
    two_boards::<Single, HostRuntime>(&rt, rt.alloc());
}
