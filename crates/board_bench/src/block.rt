//! Values of 32 words.
ghost use Rattle.std.specs.Prelude.{◌≡◌, ◌<◌, ◌^◌, length, All, codes, refl};
ghost use Rattle.std.proofs.Common.{rules};
ghost use Rattle.board_bench.specs.Blocks.{block_words};

use board_layout::ZeroCopySend;

/// A value of 32 words.
#[derive(Clone, Copy, Debug, PartialEq, Eq)]
pub struct Block {
    /// The words.
    pub words: [u64; 32],
}

impl ZeroCopySend for Block {
    const TYPE_NAME: &'static str = "block";

    const SIZE: usize = 256;

    const ALIGNMENT: usize = 8;

    const WORDS: usize = 32;

    ghost type_bytes = { codes "block" };

    ghost SIZE = { 256 };

    ghost ALIGNMENT = { 8 };

    ghost WORDS = { 32 };

    ghost IsValue = { λ x. (length x.words ≡ 32) × All (λ word. word < 2 ^ 64) x.words };

    ghost words_of = { λ x. x.words };

    ghost value_of = { λ words. record { words = words } };

    fn name_text() -> &'static str {
        Self::TYPE_NAME
    }

    fn to_words(&self, out: &mut [u64]) {
        out.copy_from_slice(&self.words);
    }

    fn from_words(words: &[u64]) -> Block {
        Block {
            words: [
                words[0], words[1], words[2], words[3], words[4], words[5], words[6], words[7],
                words[8], words[9], words[10], words[11], words[12], words[13], words[14],
                words[15], words[16], words[17], words[18], words[19], words[20], words[21],
                words[22], words[23], words[24], words[25], words[26], words[27], words[28],
                words[29], words[30], words[31],
            ],
        }
    }

    ghost named = { Prim.search rules };

    ghost sized = { Prim.search rules };

    ghost aligned = { (3, Prim.search rules, refl) };

    ghost counted = { Prim.search rules };

    ghost filled = { block_words };

    ghost undoes = { λ x h. refl };
}
