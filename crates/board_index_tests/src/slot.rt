//! A slot of a store: a type of keys of one's own that says its keys are equal only where their bytes are.
ghost use Rattle.std.specs.Prelude.{◌≡◌, ◌^◌, ◌<◌, [], ◌∷◌, slice_index, refl, codes};
ghost use Rattle.std.proofs.Common.{rules};
ghost use Rattle.gullinsu.specs.OwnTypes.{two_words};

use gullinsu::prelude::{BoardKey, ZeroCopySend};

/// A slot of a store.
#[derive(Clone, Copy, PartialEq, Eq, Hash)]
pub struct Slot {
    /// The number of its shelf.
    pub shelf: u64,
    /// Its number on the shelf.
    pub number: u64,
}

// A field as a word.
fn word(field: u64) -> u64
    ensures same { result ≡ field }
    ensures small { field < 2 ^ 64 }
{
    field
}

impl ZeroCopySend for Slot {
    const TYPE_NAME: &'static str = "Slot";

    const SIZE: usize = 16;

    const ALIGNMENT: usize = 8;

    const WORDS: usize = 2;

    ghost type_bytes = { codes "Slot" };

    ghost SIZE = { 16 };

    ghost ALIGNMENT = { 8 };

    ghost WORDS = { 2 };

    ghost IsValue = { λ s. (s.shelf < 2 ^ 64) × (s.number < 2 ^ 64) };

    ghost words_of = { λ s. s.shelf ∷ s.number ∷ [] };

    ghost value_of = { λ words. record { shelf = slice_index words 0; number = slice_index words 1 } };

    fn name_text() -> &'static str {
        Self::TYPE_NAME
    }

    fn to_words(&self, out: &mut [u64]) {
        out[0] = word(self.shelf);
        out[1] = word(self.number);
    }

    fn from_words(words: &[u64]) -> Slot {
        Slot {
            shelf: words[0],
            number: words[1],
        }
    }

    ghost named = { Prim.search rules };

    ghost sized = { Prim.search rules };

    ghost aligned = { (3, Prim.search rules, refl) };

    ghost counted = { Prim.search rules };

    ghost filled = { λ s h. two_words s.shelf s.number h };

    ghost undoes = { λ s h. refl };
}

#[tactic(auto, using(crate::proofs::SlotKeys::slot_by_bytes))]
impl BoardKey for Slot {
    fn is_equal_by_bytes() -> bool {
        true
    }
}
