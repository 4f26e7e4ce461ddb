//! Typed calls, by the width of the values.
ghost use Rattle.std.specs.Prelude.{◌≡◌, ◌+◌, ◌*◌, ◌^◌, ◌<◌, length, IfOk, IsTrue};
ghost use Rattle.board_cell.specs.Passes.{NotesRise};
ghost use Rattle.board_bench.specs.Handles.{HasReadSevens, HasTakenTurns, read_seen, write_seen};
ghost use Rattle.board_bench.specs.Task.{is_width};

use crate::block::Block;
use crate::typed::{Read, Write, run_gets, run_tries, run_updates};
use anyhow::Result;
use std::alloc::Global;
use std::sync::Wait;

/// A read handle of an entry of 1, 4 or 32 words.
#[derive(Drop)]
pub enum ReadHandle {
    /// Of an entry of one word.
    One(Read<u64>),
    /// Of four words.
    Four(Read<[u64; 4]>),
    /// Of 32 words.
    ThirtyTwo(Read<Block>),
}

/// The write handle of an entry of 1, 4 or 32 words.
#[derive(Drop)]
pub enum WriteHandle {
    /// Of an entry of one word.
    One(Write<u64>),
    /// Of four words.
    Four(Write<[u64; 4]>),
    /// Of 32 words.
    ThirtyTwo(Write<Block>),
}

/// This many gets of an entry of so many words, by the handle that is given back.
///
/// # Errors
/// Where a call that makes the handle is refused, or the last value isn't the first one.
pub fn typed_gets<R: Wait>(rt: &R, alloc: Global, width: u64, count: u64) -> Result<ReadHandle>
    requires { IsTrue (is_width width) }
    ensures width { IfOk result (λ h. (read_seen h).cell.width ≡ width) }
    ensures count { IfOk result (λ h. length (read_seen h).pass.notes ≡ count) }
    ensures values { IfOk result (λ h. HasReadSevens width (read_seen h)) }
    ensures rises { IfOk result (λ h. NotesRise (read_seen h).pass.notes) }
{
    Ok(match width {
        1 => ReadHandle::One(run_gets(rt, alloc, 7, count)?),
        4 => ReadHandle::Four(run_gets(rt, alloc, [7; 4], count)?),
        _ => ReadHandle::ThirtyTwo(run_gets(rt, alloc, Block { words: [7; 32] }, count)?),
    })
}

/// This many gets of one try each of an entry of so many words, by the handle that is given back.
///
/// # Errors
/// Where a call that makes the handle is refused, a try met an update, or the last value isn't the first one.
pub fn typed_tries<R: Wait>(rt: &R, alloc: Global, width: u64, count: u64) -> Result<ReadHandle>
    requires { IsTrue (is_width width) }
    ensures width { IfOk result (λ h. (read_seen h).cell.width ≡ width) }
    ensures count { IfOk result (λ h. length (read_seen h).pass.notes ≡ count) }
    ensures loads { IfOk result (λ h. length (read_seen h).pass.loads ≡ 2 * count) }
    ensures values { IfOk result (λ h. HasReadSevens width (read_seen h)) }
    ensures rises { IfOk result (λ h. NotesRise (read_seen h).pass.notes) }
{
    Ok(match width {
        1 => ReadHandle::One(run_tries(rt, alloc, 7, count)?),
        4 => ReadHandle::Four(run_tries(rt, alloc, [7; 4], count)?),
        _ => ReadHandle::ThirtyTwo(run_tries(rt, alloc, Block { words: [7; 32] }, count)?),
    })
}

/// This many updates of an entry of so many words, by the handle that is given back.
///
/// # Errors
/// Where a call that makes the handle is refused.
pub fn typed_updates<R: Wait>(rt: &R, alloc: Global, width: u64, count: u64) -> Result<WriteHandle>
    requires width { IsTrue (is_width width) }
    requires count { count < 2 ^ 40 }
    ensures width { IfOk result (λ h. (write_seen h).held.cell.width ≡ width) }
    ensures count { IfOk result (λ h. length (write_seen h).held.published ≡ count + 1) }
    ensures values { IfOk result (λ h. HasTakenTurns width count (write_seen h)) }
{
    let (one, two) = (Block { words: [1; 32] }, Block { words: [2; 32] });
    Ok(match width {
        1 => WriteHandle::One(run_updates(rt, alloc, 1, 2, count)?),
        4 => WriteHandle::Four(run_updates(rt, alloc, [1; 4], [2; 4], count)?),
        _ => WriteHandle::ThirtyTwo(run_updates(rt, alloc, one, two, count)?),
    })
}
