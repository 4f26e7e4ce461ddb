//! The ids of a set as words of 64 bits.
ghost use Rattle.std.specs.Prelude.{◌≡◌, ◌<◌, ◌/◌, IfOk, length, not};
ghost use Rattle.std.specs.FinSet as set;
ghost use Rattle.board_event_model.specs.Ids.{Ids, IsWord, in_word};
ghost use Rattle.script_event_rows.specs.IdWords.{Become, HaveIds};

use std::alloc::{AllocError, Global};

// So many words without ids.
pub(crate) fn no_ids(alloc: Global, count: u64) -> Result<Vec<u64>, AllocError>
    ensures count { IfOk result (λ words. length words.items ≡ count) }
    ensures ids { IfOk result (λ words. HaveIds words.items set.empty) }
{
    let words = vec![in alloc; 0u64; count as usize]?;
    Ok(words)
}

// Puts an id in.
pub(crate) fn put_id(words: &mut Vec<u64>, id: u64)
    requires { id / 64 < length words.old.items }
    ensures { Become words.old.items words.new.items (λ ids. set.insert ids id) }
{
    words[(id / 64) as usize] |= 1 << (id % 64);
}

// Takes an id out.
pub(crate) fn take_id(words: &mut Vec<u64>, id: u64)
    requires { id / 64 < length words.old.items }
    ensures { Become words.old.items words.new.items (λ ids. set.remove ids id) }
{
    words[(id / 64) as usize] &= !(1 << (id % 64));
}

// The ids of a word, as bits.
pub(crate) fn word_at(words: &Vec<u64>, word: u64) -> u64
    requires { word < length words.now.items }
    ensures { (ids : Ids) → HaveIds words.now.items ids → IsWord ids word result }
{
    words[word as usize]
}

// Takes all ids of a word out.
pub(crate) fn empty_word(words: &mut Vec<u64>, word: u64)
    requires { word < length words.old.items }
    ensures { Become words.old.items words.new.items
        (λ ids. set.retain ids (λ i. not (in_word word i))) }
{
    words[word as usize] = 0;
}
