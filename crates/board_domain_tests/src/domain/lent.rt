//! By lent forms.
use super::published::publish;
use super::{
    creator, is_second, new_domain, node_name, note, opener, second_creator, second_opener, taken,
};
use crate::same::same;
use board_concepts::{AttributeSpecifier, AttributeVerifier, Policy, Shared, Single};
use board_domain::{Node, PortFactory};
use board_handles::{Domain, DomainState, EntryHandle, EntryHandleMut, Reader, Writer};
use board_names::{BlackboardCreateError, EntryHandleError, EntryHandleMutError};
use std::alloc::Global;
use std::process::Abort;
use std::sync::Wait;

pub(super) fn new_node<R: Abort>(
    rt: &R,
    state: &mut DomainState,
    domain: &Domain,
    name: &str,
) -> Node {
    let node = Node::new_in(state, domain, node_name(rt, name));
    node.expect(rt, "memory")
}

pub(super) fn new_board<P: Policy, R: Abort>(
    rt: &R,
    alloc: Global,
    state: &mut DomainState,
    node: &Node,
) -> PortFactory<u64, P> {
    let made = creator::<P, R>(rt, alloc, node).create_in(state);
    made.expect(rt, "a free name")
}

// The board as one node made it, and as another opened it.
#[derive(Drop)]
struct Boards<P> {
    made: PortFactory<u64, P>,
    opened: PortFactory<u64, P>,
}

fn make_boards<P: Policy, R: Abort>(rt: &R, alloc: Global, state: &mut DomainState) -> Boards<P> {
    let domain = new_domain(rt, alloc);
    let first = new_node(rt, state, &domain, "first");
    let second = new_node(rt, state, &domain, "second");
    let made = new_board::<P, R>(rt, alloc, state, &first);
    let opened = opener::<P, R>(rt, alloc, &second).open_in(state);
    let opened = opened.expect(rt, "a board");
    Boards { made, opened }
}

pub(super) fn new_reader<P, R: Abort>(
    rt: &R,
    state: &mut DomainState,
    factory: &PortFactory<u64, P>,
) -> Reader<u64, P> {
    let builder = factory.reader_builder().expect(rt, "memory");
    builder.create_in(state).expect(rt, "room for a reader")
}

pub(super) fn new_writer<P, R: Abort>(
    rt: &R,
    state: &mut DomainState,
    factory: &PortFactory<u64, P>,
) -> Writer<u64, P> {
    let builder = factory.writer_builder().expect(rt, "memory");
    builder.create_in(state).expect(rt, "room for a writer")
}

// The digits of the nodes and those of the keys, each up to `last`.
fn walks<P>(state: &DomainState, factory: &PortFactory<u64, P>, last: u64) -> (u64, u64) {
    let (mut nodes, mut keys) = (0, 0);
    factory.nodes_in(state, |node| note(&mut nodes, node.0, last));
    factory.list_keys_in(state, |key| note(&mut keys, *key, last));
    (nodes, keys)
}

// The same, by callbacks that are lent.
fn lent_walks<P>(state: &DomainState, factory: &PortFactory<u64, P>, last: u64) -> (u64, u64) {
    let (mut nodes, mut keys) = (0, 0);
    factory.visit_nodes_in(state, &mut |node| note(&mut nodes, node.0, last));
    factory.visit_keys_in(state, &mut |key| note(&mut keys, *key, last));
    (nodes, keys)
}

// What is told of a board with a reader, a writer and two nodes, and after the reader's release.
fn is_counted<P, R: Abort>(
    rt: &R,
    state: &mut DomainState,
    board: &PortFactory<u64, P>,
    reader: Reader<u64, P>,
) {
    same(rt, &walks(state, board, 9), &(12, 12));
    same(rt, &walks(state, board, 1), &(1, 1));
    same(rt, &board.dynamic_config_in(state), &taken(1, 1, 2));
    reader.release_in(state);
    same(rt, &board.dynamic_config_in(state), &taken(0, 1, 2));
}

fn ports_are_counted<P, R: Abort>(rt: &R, state: &mut DomainState, boards: &Boards<P>) {
    let writer = new_writer(rt, state, &boards.made);
    let reader = new_reader(rt, state, &boards.opened);
    same(rt, &(writer.id().0, reader.id().0), &(1, 2));
    is_counted(rt, state, &boards.made, reader);
    writer.release_in(state);
}

fn told<P: Policy, R: Abort>(rt: &R, alloc: Global) {
    let mut state = DomainState::new(alloc);
    let boards = make_boards::<P, R>(rt, alloc, &mut state);
    same(rt, &lent_walks(&state, &boards.opened, 9), &(12, 12));
    same(rt, &lent_walks(&state, &boards.opened, 1), &(1, 1));
    // In another state the factory isn't held.
    same(
        rt,
        &walks(&DomainState::new(alloc), &boards.opened, 9),
        &(0, 0),
    );
    ports_are_counted(rt, &mut state, &boards);
    let Boards { made, opened } = boards;
    made.release_in(&mut state);
    same(rt, &opened.dynamic_config_in(&state), &taken(0, 0, 1));
    opened.release_in(&mut state);
}

#[test]
fn a_board_is_told_of_a_lent_state(rt: HostRuntime) {
    told::<Shared, HostRuntime>(&rt, rt.alloc());
    told::<Single, HostRuntime>(&rt, rt.alloc());
}

// Asks for what there is not.
fn refusals<P, R: Abort>(
    rt: &R,
    state: &mut DomainState,
    reader: &Reader<u64, P>,
    writer: &Writer<u64, P>,
) {
    let second = writer.entry_in::<u64>(state, &1).err();
    same(rt, &second, &Some(EntryHandleMutError::HandleAlreadyExists));
    let missing = reader.entry_in::<u64>(state, &3).err();
    same(rt, &missing, &Some(EntryHandleError::EntryDoesNotExist));
    let other_type = reader.entry_in::<u32>(state, &1).err();
    same(rt, &other_type, &Some(EntryHandleError::EntryDoesNotExist));
}

pub(super) fn write_handle<P, R: Abort>(
    rt: &R,
    state: &mut DomainState,
    writer: &Writer<u64, P>,
) -> EntryHandleMut<u64, u64, P> {
    let handle = writer.entry_in::<u64>(state, &1);
    handle.expect(rt, "a free entry")
}

pub(super) fn read_handle<P, R: Abort>(
    rt: &R,
    state: &mut DomainState,
    reader: &Reader<u64, P>,
) -> EntryHandle<u64, u64, P> {
    let handle = reader.entry_in::<u64>(state, &1);
    handle.expect(rt, "an entry")
}

// A number's entry begins the board's cells, and the truth value's comes after it.
fn places<P, R: Abort>(
    rt: &R,
    state: &mut DomainState,
    reader: &Reader<u64, P>,
    writer: &Writer<u64, P>,
    write: &EntryHandleMut<u64, u64, P>,
) {
    let number = read_handle(rt, state, reader);
    same(rt, &number.entry_id().as_value(), &0);
    same(rt, &write.entry_id().as_value(), &0);
    let truth = reader.entry_in::<bool>(state, &2).expect(rt, "an entry");
    same(rt, &truth.entry_id().as_value(), &32);
    let truth = writer.entry_in::<bool>(state, &2);
    let truth = truth.expect(rt, "a free entry");
    same(rt, &truth.entry_id().as_value(), &32);
}

pub(super) fn drop_loan<P>(state: &mut DomainState, write: EntryHandleMut<u64, u64, P>) {
    if write.generation() < u64::MAX {
        write.loan_uninit().release_in(state);
    }
}

// The end of a handle that was given up is parked, and comes again. So does that of a loan.
fn handed_again<P, R: Abort>(rt: &R, state: &mut DomainState, writer: &Writer<u64, P>) {
    let again = write_handle(rt, state, writer);
    assert_eq!(rt; again.generation(), 3, "its end was parked");
    drop_loan(state, again);
    let again = write_handle(rt, state, writer);
    assert_eq!(rt; again.generation(), 3, "the loan's end was parked");
}

fn published<P: Policy, R: Wait + Abort>(rt: &R, alloc: Global) {
    let mut state = DomainState::new(alloc);
    let Boards { made, opened } = make_boards::<P, R>(rt, alloc, &mut state);
    let writer = new_writer(rt, &mut state, &made);
    let reader = new_reader(rt, &mut state, &opened);
    let write = write_handle(rt, &mut state, &writer);
    let mut read = read_handle(rt, &mut state, &reader);
    places(rt, &mut state, &reader, &writer, &write);
    let write = publish(rt, alloc, write, &mut read);
    refusals(rt, &mut state, &reader, &writer);
    is_counted(rt, &mut state, &opened, reader);
    read.release_in(&mut state);
    write.release_in(&mut state);
    handed_again(rt, &mut state, &writer);
}

#[test]
fn values_are_published_beside_a_lent_state(rt: HostRuntime) {
    published::<Shared, HostRuntime>(&rt, rt.alloc());
    published::<Single, HostRuntime>(&rt, rt.alloc());
}

// Makes a second board, without attributes.
fn make_second<P: Policy, R: Abort>(
    rt: &R,
    alloc: Global,
    state: &mut DomainState,
    node: &Node,
) -> PortFactory<u64, P> {
    let none = AttributeSpecifier::new(alloc);
    let made = second_creator::<P, R>(rt, alloc, node).create_with_attributes_in(state, none);
    made.expect(rt, "a free name")
}

// Opens the second board, of which nothing is needed.
fn open_second<P: Policy, R: Abort>(
    rt: &R,
    alloc: Global,
    state: &mut DomainState,
    node: &Node,
) -> PortFactory<u64, P> {
    let nothing = AttributeVerifier::new(alloc);
    let opened = second_opener::<P, R>(rt, alloc, node).open_with_attributes_in(state, &nothing);
    opened.expect(rt, "nothing is needed")
}

// A reader of the second board has the next number of all ports, and reads that board's value.
fn is_read<P, R: Wait + Abort>(rt: &R, state: &mut DomainState, board: &PortFactory<u64, P>) {
    let reader = new_reader(rt, state, board);
    same(rt, &reader.id().0, &2);
    let value = read_handle(rt, state, &reader).get(rt);
    same(rt, &(*value.get_ref(), value.generation()), &(3, 1));
}

fn two_boards<P: Policy, R: Wait + Abort>(rt: &R, alloc: Global) {
    let mut state = DomainState::new(alloc);
    let domain = new_domain(rt, alloc);
    let node = new_node(rt, &mut state, &domain, "one");
    let first = new_board::<P, R>(rt, alloc, &mut state, &node);
    let writer = new_writer(rt, &mut state, &first);
    same(rt, &(first.unique_service_id(), writer.id().0), &(1, 1));
    let made = make_second::<P, R>(rt, alloc, &mut state, &node);
    let opened = open_second::<P, R>(rt, alloc, &mut state, &node);
    is_second(rt, &made, &opened);
    is_read(rt, &mut state, &opened);
}

#[test]
fn a_second_board_is_opened_in_a_lent_state(rt: HostRuntime) {
    two_boards::<Shared, HostRuntime>(&rt, rt.alloc());
    two_boards::<Single, HostRuntime>(&rt, rt.alloc());
}

// What a writer answers who is asked for a handle of the entry while a loan is out. The loan is discarded, and its handle given up.
fn asked_beside<P>(
    state: &mut DomainState,
    writer: &Writer<u64, P>,
    write: EntryHandleMut<u64, u64, P>,
) -> Option<EntryHandleMutError> {
    if write.generation() == u64::MAX {
        return None;
    }
    let loan = write.loan_uninit();
    let second = writer.entry_in::<u64>(state, &1).err();
    loan.discard().release_in(state);
    second
}

fn one_at_a_time<P: Policy, R: Abort>(rt: &R, alloc: Global) {
    let mut state = DomainState::new(alloc);
    let domain = new_domain(rt, alloc);
    let node = new_node(rt, &mut state, &domain, "one");
    let board = new_board::<P, R>(rt, alloc, &mut state, &node);
    let writer = new_writer(rt, &mut state, &board);
    let write = write_handle(rt, &mut state, &writer);
    let second = asked_beside(&mut state, &writer, write);
    same(rt, &second, &Some(EntryHandleMutError::HandleAlreadyExists));
    write_handle(rt, &mut state, &writer).release_in(&mut state);
}

#[test]
fn a_loan_is_the_only_write_handle_of_a_lent_state(rt: HostRuntime) {
    one_at_a_time::<Shared, HostRuntime>(&rt, rt.alloc());
    one_at_a_time::<Single, HostRuntime>(&rt, rt.alloc());
}
