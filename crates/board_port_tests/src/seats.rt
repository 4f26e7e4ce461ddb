//! Boards of one thread.
ghost use Rattle.std.specs.Prelude.{IfOk};
ghost use Rattle.board_service.specs.Entries.{HaveShapes};

use crate::same::same;
use board_cell::SeatWords;
use board_concepts::AttributeSet;
use board_layout::{TypeDetail, TypeVariant};
use board_model::Limits;
use board_names::ServiceName;
use board_seats::{UpdateError, fresh, get, update};
use board_service::{DomainCore, Found, NewEntry, NodeId};
use std::alloc::Global;
use std::test::*;

type Words = DomainCore<SeatWords>;

const ANY: Limits = Limits {
    max_readers: None,
    max_nodes: None,
};

// A number under the key 1, and four numbers under 2.
fn two_entries(alloc: Global) -> Result<Vec<NewEntry>, Fail>
    ensures { IfOk result (λ v. HaveShapes v.items) }
{
    let first = NewEntry::of(alloc, &1u64, &7u64)?;
    let second = NewEntry::of(alloc, &2u64, &[5u64, 6, 7, 8])?;
    Ok(vec![in alloc; first, second]?)
}

// A board, and a read handle and the write handle of its second entry. What each call makes is held behind it, so nothing is asked in between.
fn new_board(alloc: Global, domain: &mut Words) -> Result<(Found, Found), Fail> {
    let name = ServiceName::new("table")?;
    let entries = two_entries(alloc)?;
    let none = AttributeSet::new(alloc);
    let board = domain.create::<u64>(NodeId(1), &name, ANY, None, none, entries)?;
    let values = TypeDetail::new::<[u64; 4]>(TypeVariant::FixedSize);
    let reader = domain.reader(board.thing)?;
    let read = domain.entry::<u64>(reader.thing, &2, &values)?;
    let writer = domain.writer(board.thing)?;
    let write = domain.entry_mut::<u64>(writer.thing, &2, &values)?;
    Ok((read, write))
}

// The generation that is read, and the last word.
fn last_word(alloc: Global, domain: &mut Words, entry: &Found) -> Result<Option<(u64, u64)>, Fail> {
    let mut words = vec![in alloc; 0; entry.shape.words as usize]?;
    match get::<u64>(domain, entry, &mut words) {
        Some(generation) => Ok(Some((generation, words.last().copied().unwrap_or(0)))),
        None => Ok(None),
    }
}

fn publish(
    alloc: Global,
    domain: &mut Words,
    entry: &Found,
    word: u64,
) -> Result<Result<u64, UpdateError>, Fail> {
    let words = vec![in alloc; word; entry.shape.words as usize]?;
    Ok(update::<u64>(domain, entry, &words))
}

#[test]
fn a_get_reads_what_was_published_last(rt: HostRuntime) -> Result<(), Fail> {
    let alloc = rt.alloc();
    let mut domain: Words = DomainCore::new(alloc);
    let (read, write) = new_board(alloc, &mut domain)?;
    same(&rt, &last_word(alloc, &mut domain, &read)?, &Some((1, 8)));
    same(&rt, &publish(alloc, &mut domain, &write, 9)?, &Ok(2));
    same(&rt, &last_word(alloc, &mut domain, &read)?, &Some((2, 9)));
    same(&rt, &fresh::<u64>(&mut domain, &read, 1), &Some(false));
    same(&rt, &fresh::<u64>(&mut domain, &read, 2), &Some(true));
    Ok(())
}
