//! Truth values and arrays as words.
ghost use Rattle.std.specs.Prelude.{◌≡◌, ℕ, ◌*◌, ◌%◌, ◌^◌, ◌<◌, ◌≤◌, ◌==◌, List, [], ◌∷◌, length, slice_index, All, not, cond, refl, codes};
ghost use Rattle.std.proofs.Common.{rules};
ghost use Rattle.board_layout.specs.Values.{bool_word, four_words, four_again};

use crate::zero_copy_send::{BoardKey, ZeroCopySend};

impl ZeroCopySend for bool {
    const TYPE_NAME: &'static str = "bool";

    const SIZE: usize = 1;

    const ALIGNMENT: usize = 1;

    const WORDS: usize = 1;

    ghost type_bytes = { codes "bool" };

    ghost SIZE = { 1 };

    ghost ALIGNMENT = { 1 };

    ghost WORDS = { 1 };

    ghost IsValue = { λ _. Unit {0} };

    ghost words_of = { λ x. cond x 1 0 ∷ [] };

    ghost value_of = { λ words. not (slice_index words 0 == 0) };

    fn name_text() -> &'static str {
        Self::TYPE_NAME
    }

    fn to_words(&self, out: &mut [u64]) {
        out[0] = u64::from(*self);
    }

    fn from_words(words: &[u64]) -> bool {
        words[0] != 0
    }

    ghost named = { Prim.search rules };

    ghost sized = { Prim.search rules };

    ghost aligned = { (0, Prim.search rules, refl) };

    ghost counted = { Prim.search rules };

    ghost filled = { bool_word };

    ghost undoes = { λ x h. Prim.search rules };
}

impl ZeroCopySend for [u64; 4] {
    const TYPE_NAME: &'static str = "[u64; 4]";

    const SIZE: usize = 32;

    const ALIGNMENT: usize = 8;

    const WORDS: usize = 4;

    ghost type_bytes = { codes "[u64; 4]" };

    ghost SIZE = { 32 };

    ghost ALIGNMENT = { 8 };

    ghost WORDS = { 4 };

    ghost IsValue = { λ xs. (length xs ≡ 4) × All (λ x. x < 2 ^ 64) xs };

    ghost words_of = { λ xs. slice_index xs 0 ∷ slice_index xs 1 ∷ slice_index xs 2 ∷ slice_index xs 3 ∷ [] };

    ghost value_of = { λ words. slice_index words 0 ∷ slice_index words 1 ∷ slice_index words 2 ∷ slice_index words 3 ∷ [] };

    fn name_text() -> &'static str {
        Self::TYPE_NAME
    }

    fn to_words(&self, out: &mut [u64]) {
        out[0] = self[0];
        out[1] = self[1];
        out[2] = self[2];
        out[3] = self[3];
    }

    fn from_words(words: &[u64]) -> [u64; 4] {
        [words[0], words[1], words[2], words[3]]
    }

    ghost named = { Prim.search rules };

    ghost sized = { Prim.search rules };

    ghost aligned = { (3, Prim.search rules, refl) };

    ghost counted = { Prim.search rules };

    ghost filled = { four_words };

    ghost undoes = { four_again };
}

impl BoardKey for bool {}

#[tactic(auto, using(crate::proofs::EqualBytes::four_by_bytes))]
impl BoardKey for [u64; 4] {
    fn is_equal_by_bytes() -> bool {
        true
    }
}
