//! Values are published and read, by handles whichever call made them.
use crate::same::same;
use board_handles::{BlackboardValue, EntryHandle, EntryHandleMut};
use std::alloc::Global;
use std::process::Abort;
use std::sync::Wait;

// Publishes a value by a copy.
pub(super) fn publish_copy<P>(write: &mut EntryHandleMut<u64, u64, P>, value: u64) {
    if write.generation() < u64::MAX {
        write.update_with_copy(value);
    }
}

// Publishes a value by a loan, word by word.
pub(super) fn publish_word<P>(
    write: EntryHandleMut<u64, u64, P>,
    word: u64,
) -> EntryHandleMut<u64, u64, P> {
    if write.generation() == u64::MAX {
        return write;
    }
    let mut loan = write.loan_uninit();
    loan.write_word(0, word);
    if loan.is_filled() {
        return loan.assume_init_and_update();
    }
    loan.discard()
}

// A value is printed as a number is.
fn is_printed<R: Abort>(rt: &R, alloc: Global, value: &BlackboardValue<u64>, expected: &str) {
    let mut text = String::new(alloc);
    write!(text, "{value}").expect(rt, "memory");
    same(rt, &text.as_str(), &expected);
}

// Publishes 9 in the place of 7, which a reader sees at once.
fn update<P, R: Wait + Abort>(
    rt: &R,
    write: &mut EntryHandleMut<u64, u64, P>,
    read: &mut EntryHandle<u64, u64, P>,
) {
    let before = read.get(rt);
    same(rt, &(*before.get_ref(), before.generation()), &(7, 1));
    assert!(rt; read.is_up_to_date(&before), "nothing was published");
    publish_copy(write, 9);
    assert!(rt; !read.is_up_to_date(&before), "it was published");
}

// Publishes 9 by a copy and then 11 by a loan. A reader sees each at once, and the first is printed.
pub(super) fn publish<P, R: Wait + Abort>(
    rt: &R,
    alloc: Global,
    write: EntryHandleMut<u64, u64, P>,
    read: &mut EntryHandle<u64, u64, P>,
) -> EntryHandleMut<u64, u64, P> {
    let mut write = write;
    update(rt, &mut write, read);
    let copied = read.get(rt);
    same(rt, &(*copied.get_ref(), copied.generation()), &(9, 2));
    is_printed(rt, alloc, &copied, "9");
    let write = publish_word(write, 11);
    let lent = read.get(rt);
    same(rt, &(*lent.get_ref(), lent.generation()), &(11, 3));
    write
}
