//! How fast a car goes and how far it came: a value of two fields, which is copied as two words.
ghost use Rattle.std.specs.Prelude.{◌≡◌, ◌^◌, ◌<◌, [], ◌∷◌, slice_index, refl, codes};
ghost use Rattle.std.proofs.Common.{rules};
ghost use Rattle.gullinsu.specs.OwnTypes.{two_words};

use crate::prelude::ZeroCopySend;

/// How fast a car goes, and how far it came.
#[derive(Clone, Copy)]
pub struct Motion {
    /// In kilometres an hour.
    pub speed: u64,
    /// In metres.
    pub distance: u64,
}

impl Motion {
    /// Of a car that has not set out.
    pub const STILL: Motion = Motion {
        speed: 0,
        distance: 0,
    };
}

/// A field as a word.
pub(super) fn word(field: u64) -> u64
    ensures same { result ≡ field }
    ensures small { field < 2 ^ 64 }
{
    field
}

impl ZeroCopySend for Motion {
    const TYPE_NAME: &'static str = "Motion";

    const SIZE: usize = 16;

    const ALIGNMENT: usize = 8;

    const WORDS: usize = 2;

    ghost type_bytes = { codes "Motion" };

    ghost SIZE = { 16 };

    ghost ALIGNMENT = { 8 };

    ghost WORDS = { 2 };

    ghost IsValue = { λ m. (m.speed < 2 ^ 64) × (m.distance < 2 ^ 64) };

    ghost words_of = { λ m. m.speed ∷ m.distance ∷ [] };

    ghost value_of = { λ words. record { speed = slice_index words 0; distance = slice_index words 1 } };

    fn name_text() -> &'static str {
        Self::TYPE_NAME
    }

    fn to_words(&self, out: &mut [u64]) {
        out[0] = word(self.speed);
        out[1] = word(self.distance);
    }

    fn from_words(words: &[u64]) -> Motion {
        Motion {
            speed: words[0],
            distance: words[1],
        }
    }

    ghost named = { Prim.search rules };

    ghost sized = { Prim.search rules };

    ghost aligned = { (3, Prim.search rules, refl) };

    ghost counted = { Prim.search rules };

    ghost filled = { λ m h. two_words m.speed m.distance h };

    ghost undoes = { λ m h. refl };
}
