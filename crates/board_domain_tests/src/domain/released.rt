//! A board goes with the last value that was made of it, and its name is free again.
use super::loans::drop_loan;
use super::typed::{new_board, new_node, new_reader, new_writer, read_handle, write_handle};
use super::{creator, lent, new_domain, second_creator, second_opener, twice_creator};
use crate::same::same;
use board_concepts::{Policy, Shared, Single};
use board_domain::Node;
use board_handles::{DomainState, EntryHandle, EntryHandleMut};
use board_names::BlackboardCreateError;
use std::alloc::Global;
use std::process::Abort;
use std::sync::Wait;

type Ends<P> = (EntryHandle<u64, u64, P>, EntryHandleMut<u64, u64, P>);

// The handles of a board of which nothing else stands any more.
fn handles_alone<P: Policy, R: Wait + Abort>(rt: &R, alloc: Global, node: &Node) -> Ends<P> {
    let board = new_board::<P, R>(rt, alloc, node);
    let reader = new_reader(rt, &board);
    let writer = new_writer(rt, &board);
    let ends = (read_handle(rt, &reader), write_handle(rt, &writer));
    reader.release(rt);
    writer.release(rt);
    board.release(rt);
    ends
}

fn is_taken<P: Policy, R: Wait + Abort>(rt: &R, alloc: Global, node: &Node) {
    let taken = creator::<P, R>(rt, alloc, node).create(rt).err();
    same(rt, &taken, &Some(BlackboardCreateError::AlreadyExists));
}

fn given_back<P: Policy, R: Wait + Abort>(rt: &R, alloc: Global) {
    let domain = new_domain(rt, alloc);
    let node = new_node(rt, &domain, "one");
    let (read, write) = handles_alone::<P, R>(rt, alloc, &node);
    is_taken::<P, R>(rt, alloc, &node);
    drop_loan(rt, write);
    is_taken::<P, R>(rt, alloc, &node);
    read.release(rt);
    let again = new_board::<P, R>(rt, alloc, &node);
    same(rt, &again.unique_service_id(), &2);
}

#[test]
fn a_name_is_free_once_all_are_released(rt: HostRuntime) {
    given_back::<Shared, HostRuntime>(&rt, rt.alloc());
    given_back::<Single, HostRuntime>(&rt, rt.alloc());
}

// A key that is added twice is refused, also where the name is free.
fn is_corrupted<P: Policy, R: Wait + Abort>(rt: &R, alloc: Global, node: &Node) {
    let twice = twice_creator::<P, R>(rt, alloc, node).create(rt).err();
    same(
        rt,
        &twice,
        &Some(BlackboardCreateError::ServiceInCorruptedState),
    );
}

// A board without any port, made and opened, as a reader and a writer of it were given up.
fn made_and_opened<P: Policy, R: Wait + Abort>(rt: &R, alloc: Global, node: &Node) {
    let made = second_creator::<P, R>(rt, alloc, node).create(rt);
    let made = made.expect(rt, "a free name");
    let opened = second_opener::<P, R>(rt, alloc, node).open(rt);
    let opened = opened.expect(rt, "a board");
    new_reader(rt, &opened).release(rt);
    new_writer(rt, &opened).release(rt);
    opened.release(rt);
    made.release(rt);
}

fn made_again<P: Policy, R: Wait + Abort>(rt: &R, alloc: Global) {
    let domain = new_domain(rt, alloc);
    let node = new_node(rt, &domain, "one");
    is_corrupted::<P, R>(rt, alloc, &node);
    made_and_opened::<P, R>(rt, alloc, &node);
    let again = second_creator::<P, R>(rt, alloc, &node).create(rt);
    let again = again.expect(rt, "a name that nothing keeps");
    same(rt, &again.unique_service_id(), &2);
}

#[test]
fn no_call_takes_more_than_it_gives(rt: HostRuntime) {
    made_again::<Shared, HostRuntime>(&rt, rt.alloc());
    made_again::<Single, HostRuntime>(&rt, rt.alloc());
}

fn handles_alone_in<P: Policy, R: Abort>(
    rt: &R,
    alloc: Global,
    state: &mut DomainState,
    node: &Node,
) -> Ends<P> {
    let board = lent::new_board::<P, R>(rt, alloc, state, node);
    let reader = lent::new_reader(rt, state, &board);
    let writer = lent::new_writer(rt, state, &board);
    let read = lent::read_handle(rt, state, &reader);
    let write = lent::write_handle(rt, state, &writer);
    reader.release_in(state);
    writer.release_in(state);
    board.release_in(state);
    (read, write)
}

fn is_taken_in<P: Policy, R: Abort>(rt: &R, alloc: Global, state: &mut DomainState, node: &Node) {
    let taken = creator::<P, R>(rt, alloc, node).create_in(state).err();
    same(rt, &taken, &Some(BlackboardCreateError::AlreadyExists));
}

fn is_corrupted_in<P: Policy, R: Abort>(
    rt: &R,
    alloc: Global,
    state: &mut DomainState,
    node: &Node,
) {
    let twice = twice_creator::<P, R>(rt, alloc, node)
        .create_in(state)
        .err();
    same(
        rt,
        &twice,
        &Some(BlackboardCreateError::ServiceInCorruptedState),
    );
}

fn given_back_in<P: Policy, R: Abort>(rt: &R, alloc: Global) {
    let mut state = DomainState::new(alloc);
    let domain = new_domain(rt, alloc);
    let node = lent::new_node(rt, &mut state, &domain, "one");
    is_corrupted_in::<P, R>(rt, alloc, &mut state, &node);
    let (read, write) = handles_alone_in::<P, R>(rt, alloc, &mut state, &node);
    is_taken_in::<P, R>(rt, alloc, &mut state, &node);
    lent::drop_loan(&mut state, write);
    is_taken_in::<P, R>(rt, alloc, &mut state, &node);
    read.release_in(&mut state);
    let again = lent::new_board::<P, R>(rt, alloc, &mut state, &node);
    same(rt, &again.unique_service_id(), &2);
}

#[test]
fn a_name_is_free_once_all_are_released_in_a_lent_state(rt: HostRuntime) {
    given_back_in::<Shared, HostRuntime>(&rt, rt.alloc());
    given_back_in::<Single, HostRuntime>(&rt, rt.alloc());
}
