//! A writer sends the receipt of each of its publications through a list behind a lock, and a reader in another thread reads at each of them.
ghost use Rattle.std.specs.Prelude.{◌≤◌, IfSome};

use super::ends::one_cell;
use crate::same::same;
use board_cell::a_get_is_no_older;
use board_cells::{ReadEnd, SentReceipt, WriteEnd};
use std::collections::VecDeque;
use std::sync::{Condvar, Mutex, Wait};
use std::test::*;
use std::thread;

/// Receipts that were sent, the oldest first.
#[derive(Drop)]
struct Post {
    receipts: Mutex<VecDeque<SentReceipt>>,
    came: Condvar,
}

// A generation that was read at a receipt: it is the receipt's or a later one, whoever sent it.
fn read_at<R: Wait>(rt: &R, sent: SentReceipt, out: &mut Vec<u64>) -> Option<u64>
    ensures { IfSome result (λ g. sent.receipt.generation ≤ g) }
{
    a_get_is_no_older();
    let ReadEnd { cell, mut pass } = sent.into_read_end();
    if cell.words() != out.len() as u64 {
        return None;
    }
    Some(cell.get(rt, &mut pass, out))
}

// Publishes a value of one word and sends the receipt of it, where there is room.
fn publish_one<R: Wait>(rt: &R, end: &mut WriteEnd, words: &Vec<u64>, post: &Post) {
    if end.cell.words() != words.len() as u64 || end.pass.generation() == u64::MAX {
        return;
    }
    end.cell.update(&mut end.pass, words);
    if let Ok(sent) = end.receipt() {
        // There is room.
        let _ = post.receipts.lock(rt).push_back(sent);
    }
    post.came.notify_one();
}

// Publishes a hundred values.
fn publish_all<R: Wait>(rt: &R, end: WriteEnd, words: Vec<u64>, post: &Post) {
    let mut end = end;
    for _ in 0..100u32 {
        publish_one(rt, &mut end, &words, post);
    }
}

fn next<R: Wait>(rt: &R, post: &Post) -> Option<SentReceipt> {
    let posted = post.receipts.lock(rt);
    let mut receipts = post.came.wait_while(rt, posted, |all| all.is_empty());
    receipts.pop_front()
}

// How many of a hundred receipts a value was read at that is the receipt's or a later one.
fn read_all<R: Wait>(rt: &R, out: Vec<u64>, post: &Post) -> u64 {
    let mut out = out;
    let mut right = 0u64;
    for _ in 0..100u32 {
        let Some(sent) = next(rt, post) else {
            continue;
        };
        let told = sent.generation();
        match read_at(rt, sent, &mut out) {
            Some(generation) if generation >= told => right = right.wrapping_add(1),
            _ => {}
        }
    }
    right
}

#[test]
fn a_hundred_receipts_are_of_what_was_read(rt: HostRuntime) -> Result<(), Fail> {
    let alloc = rt.alloc();
    let mut cells = one_cell(alloc, 7)?;
    let end = cells.take_write(0).ok_or("the end is parked")?;
    let words = vec![in alloc; 9u64; 1]?;
    let out = vec![in alloc; 0u64; 1]?;
    let post = Post {
        receipts: Mutex::new(VecDeque::with_capacity(alloc, 100)?),
        came: Condvar::new(),
    };
    let (_, right) = thread::join(
        &rt,
        || publish_all(&rt, end, words, &post),
        || read_all(&rt, out, &post),
    );
    same(&rt, &right, &100);
    Ok(())
}
