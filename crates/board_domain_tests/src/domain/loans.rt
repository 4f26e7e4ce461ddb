//! A value is written as a loan, and published or not.
use super::new_domain;
use super::published::publish_word;
use super::typed::{new_board, new_node, new_reader, new_writer, read_handle, write_handle};
use crate::same::same;
use board_concepts::{Policy, Shared, Single};
use board_handles::{EntryHandle, EntryHandleMut, Writer};
use board_names::EntryHandleMutError;
use std::alloc::Global;
use std::process::Abort;
use std::sync::Wait;

// Writes a value into a loan, and publishes another.
fn publish_other<P>(
    write: EntryHandleMut<u64, u64, P>,
    word: u64,
    other: u64,
) -> EntryHandleMut<u64, u64, P> {
    if write.generation() == u64::MAX {
        return write;
    }
    let mut loan = write.loan_uninit();
    loan.write_word(0, word);
    loan.update_with_copy(other)
}

// Writes a value into a loan, and publishes nothing.
fn discard_word<P>(write: EntryHandleMut<u64, u64, P>, word: u64) -> EntryHandleMut<u64, u64, P> {
    if write.generation() == u64::MAX {
        return write;
    }
    let mut loan = write.loan_uninit();
    loan.write_word(0, word);
    loan.discard()
}

#[derive(Drop)]
pub(super) struct Handles<P> {
    pub(super) read: EntryHandle<u64, u64, P>,
    pub(super) write: EntryHandleMut<u64, u64, P>,
}

pub(super) fn make_handles<P: Policy, R: Wait + Abort>(rt: &R, alloc: Global) -> Handles<P> {
    let domain = new_domain(rt, alloc);
    let node = new_node(rt, &domain, "one");
    let board = new_board::<P, R>(rt, alloc, &node);
    let read = read_handle(rt, &new_reader(rt, &board));
    let write = write_handle(rt, &new_writer(rt, &board));
    Handles { read, write }
}

pub(super) fn drop_loan<P, R: Wait>(rt: &R, write: EntryHandleMut<u64, u64, P>) {
    if write.generation() < u64::MAX {
        write.loan_uninit().release(rt);
    }
}

fn lent<P: Policy, R: Wait + Abort>(rt: &R, alloc: Global) {
    let Handles { mut read, write } = make_handles::<P, R>(rt, alloc);
    let write = publish_word(write, 11);
    let write = discard_word(write, 12);
    let mut write = publish_other(write, 12, 13);
    let value = read.try_get(1).ok().expect(rt, "no one writes");
    same(rt, &(*value.get_ref(), value.generation()), &(13, 3));
    same(rt, &write.receipt().generation(), &3);
    drop_loan(rt, write);
    assert_eq!(rt; read.get(rt).generation(), 3, "nothing was published");
}

#[test]
fn a_loan_is_published_or_not(rt: HostRuntime) {
    lent::<Shared, HostRuntime>(&rt, rt.alloc());
    lent::<Single, HostRuntime>(&rt, rt.alloc());
}

// What a writer answers who is asked for a handle of the entry while a loan is out. The loan is discarded, and its handle given up.
fn asked_beside<P, R: Wait>(
    rt: &R,
    writer: &Writer<u64, P>,
    write: EntryHandleMut<u64, u64, P>,
) -> Option<EntryHandleMutError> {
    if write.generation() == u64::MAX {
        return None;
    }
    let loan = write.loan_uninit();
    let second = writer.entry::<u64, R>(rt, &1).err();
    loan.discard().release(rt);
    second
}

fn one_at_a_time<P: Policy, R: Wait + Abort>(rt: &R, alloc: Global) {
    let domain = new_domain(rt, alloc);
    let node = new_node(rt, &domain, "one");
    let board = new_board::<P, R>(rt, alloc, &node);
    let writer = new_writer(rt, &board);
    let write = write_handle(rt, &writer);
    let second = asked_beside(rt, &writer, write);
    same(rt, &second, &Some(EntryHandleMutError::HandleAlreadyExists));
    write_handle(rt, &writer).release(rt);
}

#[test]
fn a_loan_is_the_only_write_handle(rt: HostRuntime) {
    one_at_a_time::<Shared, HostRuntime>(&rt, rt.alloc());
    one_at_a_time::<Single, HostRuntime>(&rt, rt.alloc());
}
