//! Where a car stands: a value of three fields, by the lemmas for any number of them.
ghost use Rattle.std.specs.Prelude.{◌^◌, ◌<◌, [], ◌∷◌, slice_index, refl, codes};
ghost use Rattle.std.proofs.Common.{rules};
ghost use Rattle.gullinsu.specs.OwnTypes.{none_small, one_more, whole_words};

use super::motion::word;
use crate::prelude::ZeroCopySend;
use std::test::*;

/// Where a car stands.
#[derive(Clone, Copy)]
struct Position {
    x: u64,
    y: u64,
    z: u64,
}

impl ZeroCopySend for Position {
    const TYPE_NAME: &'static str = "Position";

    const SIZE: usize = 24;

    const ALIGNMENT: usize = 8;

    const WORDS: usize = 3;

    ghost type_bytes = { codes "Position" };

    ghost SIZE = { 24 };

    ghost ALIGNMENT = { 8 };

    ghost WORDS = { 3 };

    ghost IsValue = { λ p. (p.x < 2 ^ 64) × (p.y < 2 ^ 64) × (p.z < 2 ^ 64) };

    ghost words_of = { λ p. p.x ∷ p.y ∷ p.z ∷ [] };

    ghost value_of = { λ words. record {
      x = slice_index words 0;
      y = slice_index words 1;
      z = slice_index words 2;
    } };

    fn name_text() -> &'static str {
        Self::TYPE_NAME
    }

    fn to_words(&self, out: &mut [u64]) {
        out[0] = word(self.x);
        out[1] = word(self.y);
        out[2] = word(self.z);
    }

    fn from_words(words: &[u64]) -> Position {
        Position {
            x: words[0],
            y: words[1],
            z: words[2],
        }
    }

    ghost named = { Prim.search rules };

    ghost sized = { Prim.search rules };

    ghost aligned = { (3, Prim.search rules, refl) };

    ghost counted = { Prim.search rules };

    ghost filled = { λ p h.
        let last = one_more p.z [] h.2 none_small in
        let behind = one_more p.y (p.z ∷ []) h.1 last in
        whole_words (p.x ∷ p.y ∷ p.z ∷ []) 24 3 refl refl (one_more p.x (p.y ∷ p.z ∷ []) h.0 behind) };

    ghost undoes = { λ p h. refl };
}

#[test]
fn three_fields_are_three_words(rt: HostRuntime) -> Result<(), Fail> {
    let mut words = [0, 0, 0];
    let position = Position { x: 5, y: 6, z: 7 };
    position.to_words(&mut words);
    assert_eq!(rt; words, [5, 6, 7]);
    let read = Position::from_words(&words);
    assert_eq!(rt; (read.x, read.y, read.z), (5, 6, 7));
    Ok(())
}
