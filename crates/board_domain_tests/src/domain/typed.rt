//! By typed calls.
use super::loans::drop_loan;
use super::published::publish;
use super::{creator, new_domain, node_name, note, opener, taken};
use crate::same::same;
use board_concepts::{Policy, Shared, Single};
use board_domain::{MessagingPattern, Node, PortFactory};
use board_handles::{
    Domain, EntryHandle, EntryHandleMut, EntryValueUninit, PortFactoryReader, PortFactoryWriter,
    Reader, Writer,
};
use board_names::{EntryHandleError, EntryHandleMutError, ReaderCreateError, WriterCreateError};
use board_service::ThingId;
use std::alloc::Global;
use std::process::Abort;
use std::sync::Wait;

pub(super) fn new_node<R: Wait + Abort>(rt: &R, domain: &Domain, name: &str) -> Node {
    Node::new(rt, domain, node_name(rt, name)).expect(rt, "memory")
}

pub(super) fn new_board<P: Policy, R: Wait + Abort>(
    rt: &R,
    alloc: Global,
    node: &Node,
) -> PortFactory<u64, P> {
    let made = creator::<P, R>(rt, alloc, node).create(rt);
    made.expect(rt, "a free name")
}

fn open_board<P: Policy, R: Wait + Abort>(
    rt: &R,
    alloc: Global,
    node: &Node,
) -> PortFactory<u64, P> {
    let opened = opener::<P, R>(rt, alloc, node).open(rt);
    opened.expect(rt, "a board")
}

// The board as one node made it, and as another opened it.
#[derive(Drop)]
struct Boards<P> {
    made: PortFactory<u64, P>,
    opened: PortFactory<u64, P>,
}

fn make_boards<P: Policy, R: Wait + Abort>(rt: &R, alloc: Global) -> Boards<P> {
    let domain = new_domain(rt, alloc);
    let first = new_node(rt, &domain, "first");
    let second = new_node(rt, &domain, "second");
    let made = new_board::<P, R>(rt, alloc, &first);
    let opened = open_board::<P, R>(rt, alloc, &second);
    Boards { made, opened }
}

pub(super) fn new_reader<P, R: Wait + Abort>(
    rt: &R,
    factory: &PortFactory<u64, P>,
) -> Reader<u64, P> {
    let builder = factory.reader_builder().expect(rt, "memory");
    builder.create(rt).expect(rt, "room for a reader")
}

pub(super) fn new_writer<P, R: Wait + Abort>(
    rt: &R,
    factory: &PortFactory<u64, P>,
) -> Writer<u64, P> {
    let builder = factory.writer_builder().expect(rt, "memory");
    builder.create(rt).expect(rt, "room for a writer")
}

pub(super) fn read_handle<P, R: Wait + Abort>(
    rt: &R,
    reader: &Reader<u64, P>,
) -> EntryHandle<u64, u64, P> {
    reader.entry::<u64, R>(rt, &1).expect(rt, "an entry")
}

pub(super) fn write_handle<P, R: Wait + Abort>(
    rt: &R,
    writer: &Writer<u64, P>,
) -> EntryHandleMut<u64, u64, P> {
    writer.entry::<u64, R>(rt, &1).expect(rt, "a free entry")
}

// The digits of the nodes and those of the keys, each up to `last`.
fn walks<P, R: Wait>(rt: &R, factory: &PortFactory<u64, P>, last: u64) -> (u64, u64) {
    let (mut nodes, mut keys) = (0, 0);
    factory.nodes(rt, |node| note(&mut nodes, node.0, last));
    factory.list_keys(rt, |key| note(&mut keys, *key, last));
    (nodes, keys)
}

// The same, by callbacks that are lent.
fn lent_walks<P, R: Wait>(rt: &R, factory: &PortFactory<u64, P>, last: u64) -> (u64, u64) {
    let (mut nodes, mut keys) = (0, 0);
    factory.visit_nodes(rt, &mut |node| note(&mut nodes, node.0, last));
    factory.visit_keys(rt, &mut |key| note(&mut keys, *key, last));
    (nodes, keys)
}

// The SHA-1 of `Blackboard/board`.
const HASH: &[u8; 40] = b"081dc64409fb18fc57b4c36aa849ea376ffb7f25";

// What is fixed of a board, both factories tell alike.
fn are_of_one_board<P, R: Abort>(rt: &R, made: &PortFactory<u64, P>, opened: &PortFactory<u64, P>) {
    same(rt, &made.unique_service_id(), &1);
    same(rt, &opened.unique_service_id(), &1);
    same(rt, &opened.name(), &made.name());
    same(rt, &opened.static_config(), &made.static_config());
    let hash = made.service_hash().as_base64url();
    same(rt, &hash.as_bytes(), &HASH.as_slice());
}

fn limits_are_told<P, R: Abort>(rt: &R, board: &PortFactory<u64, P>) {
    let config = *board.static_config();
    same(rt, &config.entries, &2);
    same(rt, &(config.max_readers, config.max_writers), &(1, 1));
    let pattern = MessagingPattern::Blackboard(config);
    assert!(rt; pattern.is_same_pattern(&MessagingPattern::Blackboard(config)));
}

// What is told of a board with a reader, a writer and two nodes, and after the reader's release.
fn is_counted<P, R: Wait + Abort>(rt: &R, board: &PortFactory<u64, P>, reader: Reader<u64, P>) {
    same(rt, &walks(rt, board, 9), &(12, 12));
    same(rt, &walks(rt, board, 1), &(1, 1));
    same(rt, &board.dynamic_config(rt), &taken(1, 1, 2));
    reader.release(rt);
    same(rt, &board.dynamic_config(rt), &taken(0, 1, 2));
}

fn ports_are_counted<P, R: Wait + Abort>(
    rt: &R,
    made: &PortFactory<u64, P>,
    opened: &PortFactory<u64, P>,
) {
    let writer = new_writer(rt, made);
    let reader = new_reader(rt, opened);
    same(rt, &(writer.id().0, reader.id().0), &(1, 2));
    is_counted(rt, made, reader);
    writer.release(rt);
}

fn told<P: Policy, R: Wait + Abort>(rt: &R, alloc: Global) {
    let Boards { made, opened } = make_boards::<P, R>(rt, alloc);
    are_of_one_board(rt, &made, &opened);
    limits_are_told(rt, &opened);
    same(rt, &lent_walks(rt, &opened, 9), &(12, 12));
    same(rt, &lent_walks(rt, &opened, 1), &(1, 1));
    ports_are_counted(rt, &made, &opened);
    made.release(rt);
    same(rt, &opened.dynamic_config(rt), &taken(0, 0, 1));
    opened.release(rt);
}

#[test]
fn a_board_is_told_under_both_policies(rt: HostRuntime) {
    told::<Shared, HostRuntime>(&rt, rt.alloc());
    told::<Single, HostRuntime>(&rt, rt.alloc());
}

// Asks for what there is not.
fn refusals<P, R: Wait + Abort>(rt: &R, reader: &Reader<u64, P>, writer: &Writer<u64, P>) {
    let second = writer.entry::<u64, R>(rt, &1).err();
    same(rt, &second, &Some(EntryHandleMutError::HandleAlreadyExists));
    let missing = reader.entry::<u64, R>(rt, &3).err();
    same(rt, &missing, &Some(EntryHandleError::EntryDoesNotExist));
    let other_type = reader.entry::<u32, R>(rt, &1).err();
    same(rt, &other_type, &Some(EntryHandleError::EntryDoesNotExist));
}

// A number's entry begins the board's cells, and the truth value's comes after it.
fn places<P, R: Wait + Abort>(
    rt: &R,
    reader: &Reader<u64, P>,
    writer: &Writer<u64, P>,
    write: &EntryHandleMut<u64, u64, P>,
) {
    let number = read_handle(rt, reader);
    same(rt, &number.entry_id().as_value(), &0);
    same(rt, &write.entry_id().as_value(), &0);
    let truth = reader.entry::<bool, R>(rt, &2).expect(rt, "an entry");
    same(rt, &truth.entry_id().as_value(), &32);
    let truth = writer.entry::<bool, R>(rt, &2).expect(rt, "a free entry");
    same(rt, &truth.entry_id().as_value(), &32);
}

// The end of a handle that was given up is parked, and comes again. So does that of a loan.
fn handed_again<P, R: Wait + Abort>(rt: &R, writer: &Writer<u64, P>) {
    let again = write_handle(rt, writer);
    assert_eq!(rt; again.generation(), 3, "its end was parked");
    drop_loan(rt, again);
    let again = write_handle(rt, writer);
    assert_eq!(rt; again.generation(), 3, "the loan's end was parked");
}

fn published<P: Policy, R: Wait + Abort>(rt: &R, alloc: Global) {
    let Boards { made, opened } = make_boards::<P, R>(rt, alloc);
    let writer = new_writer(rt, &made);
    let reader = new_reader(rt, &opened);
    let write = write_handle(rt, &writer);
    let mut read = read_handle(rt, &reader);
    places(rt, &reader, &writer, &write);
    let write = publish(rt, alloc, write, &mut read);
    refusals(rt, &reader, &writer);
    is_counted(rt, &opened, reader);
    write.release(rt);
    handed_again(rt, &writer);
}

#[test]
fn values_are_published_under_both_policies(rt: HostRuntime) {
    published::<Shared, HostRuntime>(&rt, rt.alloc());
    published::<Single, HostRuntime>(&rt, rt.alloc());
}

fn sent<T: Send>(value: T) -> T {
    value
}

// What may go to another thread, besides the handles that a test of two threads hands over.
fn are_sent(
    factory: PortFactory<u64, Shared>,
    reader: Reader<u64, Shared>,
    writer: Writer<u64, Shared>,
) -> (
    PortFactory<u64, Shared>,
    Reader<u64, Shared>,
    Writer<u64, Shared>,
) {
    (sent(factory), sent(reader), sent(writer))
}

fn is_sent(loan: EntryValueUninit<u64, u64, Shared>) -> EntryValueUninit<u64, u64, Shared> {
    sent(loan)
}

// A builder that a factory gave borrows it. One that was made by a number asks whether its factory is held.
#[test]
fn a_builder_by_number_asks_for_its_factory(rt: HostRuntime) {
    let domain = new_domain(&rt, rt.alloc());
    let shared = domain.share().expect(&rt, "memory");
    let reader = PortFactoryReader::<u64, Shared>::new(rt.alloc(), ThingId(1), shared);
    let no_reader = reader.create(&rt).err();
    same(&rt, &no_reader, &Some(ReaderCreateError::ThingUnknown(1)));
    let writer = PortFactoryWriter::<u64, Shared>::new(rt.alloc(), ThingId(1), domain);
    let no_writer = writer.create(&rt).err();
    same(&rt, &no_writer, &Some(WriterCreateError::ThingUnknown(1)));
}

#[test]
fn nodes_are_numbered(rt: HostRuntime) {
    let domain = new_domain(&rt, rt.alloc());
    let first = new_node(&rt, &domain, "first");
    let shared = domain.share().expect(&rt, "memory");
    let second = new_node(&rt, &shared, "second");
    same(&rt, &(first.id().0, second.id().0), &(1, 2));
    same(&rt, &second.name().as_bytes(), &b"second".as_slice());
    same(&rt, &domain.lock(&rt).nodes, &2);
}
