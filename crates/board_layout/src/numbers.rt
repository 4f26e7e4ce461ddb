//! Numbers as words.
ghost use Rattle.std.specs.Prelude.{◌≡◌, ℕ, ◌%◌, ◌^◌, ◌<◌, List, [], ◌∷◌, slice_index, refl, codes};
ghost use Rattle.std.specs.Prelude.{FitsSigned};
ghost use Rattle.std.specs.Int.{cast_signed, cast_unsigned, w32, w64};
ghost use Rattle.std.proofs.Common.{rules};
ghost use Rattle.board_layout.specs.Values.{one_word, word_again, i32_word, i32_again, i64_word, i64_again};

use crate::zero_copy_send::{BoardKey, ZeroCopySend};

impl ZeroCopySend for u8 {
    const TYPE_NAME: &'static str = "u8";

    const SIZE: usize = 1;

    const ALIGNMENT: usize = 1;

    const WORDS: usize = 1;

    ghost type_bytes = { codes "u8" };

    ghost SIZE = { 1 };

    ghost ALIGNMENT = { 1 };

    ghost WORDS = { 1 };

    ghost IsValue = { λ x. x < 2 ^ 8 };

    ghost words_of = { λ x. x ∷ [] };

    ghost value_of = { λ words. slice_index words 0 % 2 ^ 8 };

    fn name_text() -> &'static str {
        Self::TYPE_NAME
    }

    fn to_words(&self, out: &mut [u64]) {
        out[0] = u64::from(*self);
    }

    fn from_words(words: &[u64]) -> u8 {
        (words[0] & u64::from(u8::MAX)) as u8
    }

    ghost named = { Prim.search rules };

    ghost sized = { Prim.search rules };

    ghost aligned = { (0, Prim.search rules, refl) };

    ghost counted = { Prim.search rules };

    ghost filled = { λ x h. one_word 1 x (Prim.search rules) h };

    ghost undoes = { word_again 1 };
}

impl ZeroCopySend for u16 {
    const TYPE_NAME: &'static str = "u16";

    const SIZE: usize = 2;

    const ALIGNMENT: usize = 2;

    const WORDS: usize = 1;

    ghost type_bytes = { codes "u16" };

    ghost SIZE = { 2 };

    ghost ALIGNMENT = { 2 };

    ghost WORDS = { 1 };

    ghost IsValue = { λ x. x < 2 ^ 16 };

    ghost words_of = { λ x. x ∷ [] };

    ghost value_of = { λ words. slice_index words 0 % 2 ^ 16 };

    fn name_text() -> &'static str {
        Self::TYPE_NAME
    }

    fn to_words(&self, out: &mut [u64]) {
        out[0] = u64::from(*self);
    }

    fn from_words(words: &[u64]) -> u16 {
        (words[0] & u64::from(u16::MAX)) as u16
    }

    ghost named = { Prim.search rules };

    ghost sized = { Prim.search rules };

    ghost aligned = { (1, Prim.search rules, refl) };

    ghost counted = { Prim.search rules };

    ghost filled = { λ x h. one_word 2 x (Prim.search rules) h };

    ghost undoes = { word_again 2 };
}

impl ZeroCopySend for u32 {
    const TYPE_NAME: &'static str = "u32";

    const SIZE: usize = 4;

    const ALIGNMENT: usize = 4;

    const WORDS: usize = 1;

    ghost type_bytes = { codes "u32" };

    ghost SIZE = { 4 };

    ghost ALIGNMENT = { 4 };

    ghost WORDS = { 1 };

    ghost IsValue = { λ x. x < 2 ^ 32 };

    ghost words_of = { λ x. x ∷ [] };

    ghost value_of = { λ words. slice_index words 0 % 2 ^ 32 };

    fn name_text() -> &'static str {
        Self::TYPE_NAME
    }

    fn to_words(&self, out: &mut [u64]) {
        out[0] = u64::from(*self);
    }

    fn from_words(words: &[u64]) -> u32 {
        (words[0] & u64::from(u32::MAX)) as u32
    }

    ghost named = { Prim.search rules };

    ghost sized = { Prim.search rules };

    ghost aligned = { (2, Prim.search rules, refl) };

    ghost counted = { Prim.search rules };

    ghost filled = { λ x h. one_word 4 x (Prim.search rules) h };

    ghost undoes = { word_again 4 };
}

impl ZeroCopySend for u64 {
    const TYPE_NAME: &'static str = "u64";

    const SIZE: usize = 8;

    const ALIGNMENT: usize = 8;

    const WORDS: usize = 1;

    ghost type_bytes = { codes "u64" };

    ghost SIZE = { 8 };

    ghost ALIGNMENT = { 8 };

    ghost WORDS = { 1 };

    ghost IsValue = { λ x. x < 2 ^ 64 };

    ghost words_of = { λ x. x ∷ [] };

    ghost value_of = { λ words. slice_index words 0 };

    fn name_text() -> &'static str {
        Self::TYPE_NAME
    }

    fn to_words(&self, out: &mut [u64]) {
        out[0] = *self;
    }

    fn from_words(words: &[u64]) -> u64 {
        words[0]
    }

    ghost named = { Prim.search rules };

    ghost sized = { Prim.search rules };

    ghost aligned = { (3, Prim.search rules, refl) };

    ghost counted = { Prim.search rules };

    ghost filled = { λ x h. one_word 8 x (Prim.search rules) h };

    ghost undoes = { λ x h. refl };
}

impl ZeroCopySend for i32 {
    const TYPE_NAME: &'static str = "i32";

    const SIZE: usize = 4;

    const ALIGNMENT: usize = 4;

    const WORDS: usize = 1;

    ghost type_bytes = { codes "i32" };

    ghost SIZE = { 4 };

    ghost ALIGNMENT = { 4 };

    ghost WORDS = { 1 };

    ghost IsValue = { λ x. FitsSigned w32 x };

    ghost words_of = { λ x. cast_unsigned w32 x ∷ [] };

    ghost value_of = { λ words. cast_signed w32 (slice_index words 0 % 2 ^ 32) };

    fn name_text() -> &'static str {
        Self::TYPE_NAME
    }

    fn to_words(&self, out: &mut [u64]) {
        out[0] = u64::from(self.cast_unsigned());
    }

    fn from_words(words: &[u64]) -> i32 {
        ((words[0] & u64::from(u32::MAX)) as u32).cast_signed()
    }

    ghost named = { Prim.search rules };

    ghost sized = { Prim.search rules };

    ghost aligned = { (2, Prim.search rules, refl) };

    ghost counted = { Prim.search rules };

    ghost filled = { i32_word };

    ghost undoes = { i32_again };
}

impl ZeroCopySend for i64 {
    const TYPE_NAME: &'static str = "i64";

    const SIZE: usize = 8;

    const ALIGNMENT: usize = 8;

    const WORDS: usize = 1;

    ghost type_bytes = { codes "i64" };

    ghost SIZE = { 8 };

    ghost ALIGNMENT = { 8 };

    ghost WORDS = { 1 };

    ghost IsValue = { λ x. FitsSigned w64 x };

    ghost words_of = { λ x. cast_unsigned w64 x ∷ [] };

    ghost value_of = { λ words. cast_signed w64 (slice_index words 0) };

    fn name_text() -> &'static str {
        Self::TYPE_NAME
    }

    fn to_words(&self, out: &mut [u64]) {
        out[0] = self.cast_unsigned();
    }

    fn from_words(words: &[u64]) -> i64 {
        words[0].cast_signed()
    }

    ghost named = { Prim.search rules };

    ghost sized = { Prim.search rules };

    ghost aligned = { (3, Prim.search rules, refl) };

    ghost counted = { Prim.search rules };

    ghost filled = { i64_word };

    ghost undoes = { i64_again };
}

#[tactic(auto, using(crate::proofs::EqualBytes::u8_by_bytes))]
impl BoardKey for u8 {
    fn is_equal_by_bytes() -> bool {
        true
    }
}

#[tactic(auto, using(crate::proofs::EqualBytes::u16_by_bytes))]
impl BoardKey for u16 {
    fn is_equal_by_bytes() -> bool {
        true
    }
}

#[tactic(auto, using(crate::proofs::EqualBytes::u32_by_bytes))]
impl BoardKey for u32 {
    fn is_equal_by_bytes() -> bool {
        true
    }
}

#[tactic(auto, using(crate::proofs::EqualBytes::u64_by_bytes))]
impl BoardKey for u64 {
    fn is_equal_by_bytes() -> bool {
        true
    }
}

#[tactic(auto, using(crate::proofs::EqualBytes::i32_by_bytes))]
impl BoardKey for i32 {
    fn is_equal_by_bytes() -> bool {
        true
    }
}

#[tactic(auto, using(crate::proofs::EqualBytes::i64_by_bytes))]
impl BoardKey for i64 {
    fn is_equal_by_bytes() -> bool {
        true
    }
}
