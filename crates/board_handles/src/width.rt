//! The width of a handle's values, as the compiler is told it.
ghost use Rattle.std.specs.Prelude.{◌≡◌, ◌+◌, ◌%◌, ◌^◌, ◌<◌, length};
ghost use Rattle.board_cell.specs.Passes.{publishing};

use board_cell::{ThreadedCell, WriterPass};
use board_layout::ZeroCopySend;
use std::mem;

/// The cell's values and the buffer have as many words as a `V`. The compiler can't see that by itself. Once told, it lays out the call that follows for this width: with no test of it, and at few words with no loop.
#[inline(always)]
pub(crate) fn know_width<V: ZeroCopySend>(cell: &ThreadedCell, words: &Vec<u64>)
    requires cell { cell.now.width ≡ V.WORDS }
    requires buffer { length words.now.items ≡ V.WORDS }
{
    if cell.words() != V::WORDS as u64 || words.len() != V::WORDS {
        // Both are the width of a `V`.
        unreachable!()
    }
}

// So many values were published, counted by twos. The compiler is told it as it is told the width.
#[inline(always)]
fn know_parity(pass: &WriterPass, parity: u64)
    requires { length pass.now.published % 2 ≡ parity }
{
    if pass.generation() % 2 != parity {
        // It is as told.
        unreachable!()
    }
}

/// Publishes the buffer's words. It stands twice, once for each of the copies in the cell that may be the spare one, and the buffer is taken out meanwhile. So each word's step knows both places but for the cell's own, and is short enough that the compiler needs no loop for up to 32 of them.
#[inline(always)]
pub(crate) fn update<V: ZeroCopySend>(
    cell: &ThreadedCell,
    pass: &mut WriterPass,
    buffer: &mut Vec<u64>,
)
    requires cell { pass.old.cell ≡ cell.now.cell }
    requires width { cell.now.width ≡ V.WORDS }
    requires buffer { length buffer.old.items ≡ V.WORDS }
    requires room { length pass.old.published + 1 < 2 ^ 64 }
    ensures published { pass.new ≡ publishing pass.old buffer.old.items }
    ensures kept { buffer.new.items ≡ buffer.old.items }
{
    let alloc = *buffer.allocator();
    let words = mem::replace(buffer, Vec::new(alloc));
    know_width::<V>(cell, &words);
    if pass.generation() % 2 == 0 {
        know_parity(pass, 0);
        cell.update(pass, &words);
    } else {
        know_parity(pass, 1);
        cell.update(pass, &words);
    }
    mem::forget(mem::replace(buffer, words));
}
