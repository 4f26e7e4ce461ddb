//! Words in plain memory, for one thread.
ghost use Rattle.std.specs.Prelude.{◌≡◌};

use crate::words::Words;
use std::marker::Model;

/// Words in plain memory.
#[derive(Drop, Debug)]
pub struct PlainWords {
    words: Vec<u64>,
}

impl Model for PlainWords {
    ghost use Rattle.std.specs.Prelude.{List, ℕ};

    ghost Value = { List ℕ };

    ghost view = { λ s. s.words.items };
}

impl PlainWords {
    /// The words of a board, which are these.
    pub fn new(words: Vec<u64>) -> PlainWords
        ensures { result ≡ words.items }
    {
        PlainWords { words }
    }

    /// The words, in order.
    pub fn as_slice(&self) -> &[u64]
        ensures { result.now ≡ self.now }
    {
        self.words.as_slice()
    }
}

impl Words for PlainWords {
    ghost list = { λ s. s };

    fn len(&self) -> u64 {
        self.words.len() as u64
    }

    fn load(&mut self, index: u64) -> u64 {
        self.words[index as usize]
    }

    fn store(&mut self, index: u64, value: u64) {
        self.words[index as usize] = value;
    }
}
