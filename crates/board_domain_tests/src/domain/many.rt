//! A board of many entries, by keys that are equal by their bytes and by keys that aren't.
use super::typed::new_node;
use super::{builder, new_domain};
use crate::same::same;
use board_concepts::Shared;
use board_domain::{Node, PortFactory};
use board_handles::{Domain, Reader};
use board_layout::{BoardKey, F8};
use std::alloc::Global;
use std::process::Abort;
use std::sync::Wait;

// A board with these keys. The value of each is its place.
fn board_of<K: BoardKey, R: Wait + Abort>(
    rt: &R,
    alloc: Global,
    node: &Node,
    keys: &[K],
) -> PortFactory<K, Shared> {
    let mut creator = builder(rt, node, "many").blackboard_creator::<K, Shared>(alloc);
    for (place, key) in keys.iter().enumerate() {
        creator = creator.add(*key, place as u64).expect(rt, "memory");
    }
    creator.create(rt).expect(rt, "keys that differ")
}

fn reader_of<K: BoardKey, R: Wait + Abort>(
    rt: &R,
    factory: &PortFactory<K, Shared>,
) -> Reader<K, Shared> {
    let builder = factory.reader_builder().expect(rt, "memory");
    builder.create(rt).expect(rt, "room for a reader")
}

// The value under the key, which is the place of its entry.
fn place_of<K: BoardKey, R: Wait + Abort>(
    rt: &R,
    reader: &Reader<K, Shared>,
    key: &K,
) -> Option<u64> {
    match reader.entry::<u64, R>(rt, key) {
        Ok(mut handle) => {
            let place = *handle.get(rt).get_ref();
            handle.release(rt);
            Some(place)
        }
        Err(_) => None,
    }
}

// Numbers that differ, each in its first byte from the one before.
fn number(place: u64) -> u64 {
    place.wrapping_mul(0x0100_0000_0000_0003)
}

fn digit(of: u16) -> u8 {
    b'0'.wrapping_add((of % 10) as u8)
}

// A place by its three digits, and letters around them.
fn word(first: u8, place: u16, last: u8) -> F8 {
    let (hundreds, tens, ones) = (digit(place / 100), digit(place / 10), digit(place));
    F8 {
        bytes: [first, hundreds, tens, ones, last, last, last, last],
    }
}

fn numbers_are_found<R: Wait + Abort>(rt: &R, alloc: Global, domain: &Domain) {
    let node = new_node(rt, domain, "numbers");
    let mut keys = Vec::new(alloc);
    for place in 0..300u64 {
        keys.push(number(place)).expect(rt, "memory");
    }
    let reader = reader_of(rt, &board_of(rt, alloc, &node, &keys));
    for (key, place) in [
        (number(0), Some(0)),
        (number(1), Some(1)),
        (number(100), Some(100)),
        (number(299), Some(299)),
        (number(300), None),
        (1, None),
    ] {
        same(rt, &place_of(rt, &reader, &key), &place);
    }
}

fn words_are_found<R: Wait + Abort>(rt: &R, alloc: Global, domain: &Domain) {
    let node = new_node(rt, domain, "words");
    let mut keys = Vec::new(alloc);
    for place in 0..300u16 {
        keys.push(word(b'k', place, b'Z')).expect(rt, "memory");
    }
    let reader = reader_of(rt, &board_of(rt, alloc, &node, &keys));
    for (key, place) in [
        (word(b'k', 0, b'Z'), Some(0)),
        (word(b'K', 100, b'z'), Some(100)),
        (word(b'K', 299, b'Z'), Some(299)),
        (word(b'k', 300, b'Z'), None),
        (word(b'j', 0, b'Z'), None),
    ] {
        same(rt, &place_of(rt, &reader, &key), &place);
    }
}

#[test]
fn numbers_are_found_among_many(rt: HostRuntime) {
    numbers_are_found(&rt, rt.alloc(), &new_domain(&rt, rt.alloc()));
}

#[test]
fn words_are_found_among_many_whatever_their_case(rt: HostRuntime) {
    words_are_found(&rt, rt.alloc(), &new_domain(&rt, rt.alloc()));
}
