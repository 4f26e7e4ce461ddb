//! A writer tells a reader of each of its publications.
use super::loans::{Handles, make_handles};
use super::published::publish_copy;
use crate::same::same;
use board_cell::Receipt;
use board_concepts::{Policy, Shared, Single};
use board_handles::{EntryHandle, EntryHandleMut};
use std::alloc::Global;
use std::collections::VecDeque;
use std::process::Abort;
use std::sync::{Condvar, Mutex, Wait};
use std::thread;

#[derive(Drop)]
struct Post {
    receipts: Mutex<VecDeque<Receipt>>,
    came: Condvar,
}

// Publishes a hundred values, and posts the receipt of each. It tells how many were posted.
fn publish_all<R: Wait>(rt: &R, write: EntryHandleMut<u64, u64, Shared>, post: &Post) -> u32 {
    let mut write = write;
    let mut posted = 0u32;
    for value in 1..=100u64 {
        if write.generation() < u64::MAX {
            write.update_with_copy(value);
        }
        if post.receipts.lock(rt).push_back(write.receipt()).is_ok() {
            posted = posted.wrapping_add(1);
        }
        post.came.notify_one();
    }
    posted
}

// The generation of the next receipt that was posted.
fn next_told<R: Wait>(rt: &R, post: &Post) -> u64 {
    let posted = post.receipts.lock(rt);
    let mut receipts = post.came.wait_while(rt, posted, |all| all.is_empty());
    match receipts.pop_front() {
        Some(receipt) => receipt.generation(),
        None => u64::MAX,
    }
}

// A value that is read in tries of four, with its generation, and zeros where a hundred thousand of these give up.
fn read_one(read: &mut EntryHandle<u64, u64, Shared>) -> (u64, u64) {
    for _ in 0..100_000u32 {
        if let Ok(value) = read.try_get(4) {
            return (*value.get_ref(), value.generation());
        }
    }
    (0, 0)
}

// How many of a hundred receipts were of the value that was read then, or of one before it. The first value that is
// published is 1, at generation 2, and both rise by one, so each value is the number before its generation.
fn read_all<R: Wait>(rt: &R, read: EntryHandle<u64, u64, Shared>, post: &Post) -> u32 {
    let mut read = read;
    let mut right = 0u32;
    for _ in 0..100u32 {
        let told = next_told(rt, post);
        let (value, generation) = read_one(&mut read);
        if generation >= told && value.wrapping_add(1) == generation {
            right = right.wrapping_add(1);
        }
    }
    right
}

#[test]
fn a_hundred_receipts_are_of_what_was_read(rt: HostRuntime) {
    let Handles { read, write } = make_handles::<Shared, HostRuntime>(&rt, rt.alloc());
    let receipts = VecDeque::with_capacity(rt.alloc(), 100).expect(&rt, "memory");
    let post = Post {
        receipts: Mutex::new(receipts),
        came: Condvar::new(),
    };
    let counts = thread::join(
        &rt,
        || publish_all(&rt, write, &post),
        || read_all(&rt, read, &post),
    );
    same(&rt, &counts, &(100, 100));
}

fn sent<P: Policy, R: Wait + Abort>(rt: &R, alloc: Global) {
    let Handles { read, write } = make_handles::<P, R>(rt, alloc);
    let mut write = write;
    publish_copy(&mut write, 9);
    let sent = write.sent_receipt().expect(rt, "memory");
    same(rt, &sent.generation(), &2);
    read.release(rt);
}

#[test]
fn a_receipt_goes_with_its_cell_under_both_policies(rt: HostRuntime) {
    sent::<Shared, HostRuntime>(&rt, rt.alloc());
    sent::<Single, HostRuntime>(&rt, rt.alloc());
}
