//! Words, through their trait.
ghost use Rattle.std.specs.Prelude.{◌≡◌, length};

use crate::same::same;
use board_cell::{PlainWords, SeatWords, Words};
use std::test::*;

fn stored_and_loaded<W: Words>(words: &mut W) -> (u64, u64, u64)
    requires { length (W.list words.old) ≡ 2 }
{
    words.store(0, 7);
    (words.len(), words.load(0), words.load(1))
}

#[test]
fn words_keep_what_is_stored(rt: HostRuntime) -> Result<(), Fail> {
    let words = vec![in rt.alloc(); 1, 2]?;
    let mut seat = SeatWords::new(rt.alloc(), &words)?;
    same(&rt, &seat.load(1), &2);
    same(&rt, &stored_and_loaded(&mut seat), &(2, 7, 2));
    let mut plain = PlainWords::new(words);
    same(&rt, &stored_and_loaded(&mut plain), &(2, 7, 2));
    Ok(())
}
