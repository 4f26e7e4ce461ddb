//! Keys of eight bytes, in which ASCII case doesn't count.
ghost use Rattle.std.specs.Prelude.{◌≡◌, map, nat_eq};
ghost use Rattle.std.specs.Cmp.{on_equiv, on_per, partial_equiv_from_equiv};
ghost use Rattle.std.specs.Cmp.Lexicographic.{pointwise, nat_list_eq_equiv};
ghost use Rattle.std.specs.Cmp.Rules.{hashing};
ghost use Rattle.std.specs.Ordering.{on};
ghost use Rattle.std.specs.Hash as fed;
ghost use Rattle.std.specs.Char.{to_ascii_lowercase};
ghost use Rattle.std.specs.Prelude.{[], ◌∷◌, codes, refl, slice_index};
ghost use Rattle.std.specs.Int.{from_le_bytes, to_le_bytes, w64};
ghost use Rattle.std.proofs.Common.{ap, rules};
ghost use Rattle.board_layout.specs.Values.{eight_bytes_word, eight_bytes_again};
ghost use Rattle.board_layout.specs.Words.{IsEightBytes};

use crate::zero_copy_send::{BoardKey, ZeroCopySend};
use std::hash::{Hash, Hasher};

/// Eight bytes. Two are equal where they are equal up to ASCII case, and equal ones hash alike.
#[derive(Clone, Copy, Debug)]
pub struct F8 {
    /// The bytes, letters as they were written.
    pub bytes: [u8; 8],
}

impl F8 {
    // The bytes with each letter in lower case.
    fn lowered(&self) -> [u8; 8]
        ensures { result ≡ map to_ascii_lowercase self.now.bytes }
    {
        let mut lowered = self.bytes;
        lowered.make_ascii_lowercase();
        lowered
    }
}

impl PartialEq for F8 {
    ghost eq = { on (λ k. map to_ascii_lowercase k.bytes) (pointwise nat_eq) };

    ghost laws = { on_per (λ k. map to_ascii_lowercase k.bytes) (partial_equiv_from_equiv nat_list_eq_equiv) };

    fn eq(&self, other: &F8) -> bool {
        self.bytes.as_slice().eq_ignore_ascii_case(&other.bytes)
    }
}

impl Eq for F8 {
    ghost laws = { on_equiv (λ k. map to_ascii_lowercase k.bytes) nat_list_eq_equiv };
}

impl Hash for F8 {
    ghost hash_input = { λ k. fed.slice fed.u8 (map to_ascii_lowercase k.bytes) };

    ghost respects_eq = { Prim.search (hashing, rules) };

    fn hash<H: Hasher>(&self, state: &mut H) {
        self.lowered().hash(state);
    }
}

// Eight bytes as a word.
fn word_of(bytes: [u8; 8]) -> u64
    ensures value { result ≡ from_le_bytes w64 bytes }
    ensures valid { IsEightBytes bytes }
{
    u64::from_le_bytes(bytes)
}

impl ZeroCopySend for F8 {
    const TYPE_NAME: &'static str = "f8";

    const SIZE: usize = 8;

    const ALIGNMENT: usize = 1;

    const WORDS: usize = 1;

    ghost type_bytes = { codes "f8" };

    ghost SIZE = { 8 };

    ghost ALIGNMENT = { 1 };

    ghost WORDS = { 1 };

    ghost IsValue = { λ k. IsEightBytes k.bytes };

    ghost words_of = { λ k. from_le_bytes w64 k.bytes ∷ [] };

    ghost value_of = { λ words. record { bytes = to_le_bytes w64 (slice_index words 0) } };

    fn name_text() -> &'static str {
        Self::TYPE_NAME
    }

    fn to_words(&self, out: &mut [u64]) {
        out[0] = word_of(self.bytes);
    }

    fn from_words(words: &[u64]) -> F8 {
        F8 {
            bytes: words[0].to_le_bytes(),
        }
    }

    ghost named = { Prim.search rules };

    ghost sized = { Prim.search rules };

    ghost aligned = { (0, Prim.search rules, refl) };

    ghost counted = { Prim.search rules };

    ghost filled = { λ k h. eight_bytes_word k.bytes h };

    ghost undoes = { λ k h. ap (λ bytes. record { bytes = bytes }) (eight_bytes_again k.bytes h) };
}

impl BoardKey for F8 {}
