//! Values as they were read.
ghost use Rattle.std.specs.Prelude.{◌≡◌};

use std::fmt;
use std::marker::Model;

/// A value of an entry, with the generation at which it was read.
#[derive(Drop, Debug)]
pub struct BlackboardValue<V> {
    value: V,
    generation: u64,
}

impl<V> Model for BlackboardValue<V> {
    ghost use Rattle.board_handles.specs.Handles.{ValueSeen};

    ghost Value = { ValueSeen V };

    ghost view = { λ s. record { value = s.value; generation = s.generation } };
}

impl<V> BlackboardValue<V> {
    pub(crate) fn new(value: V, generation: u64) -> BlackboardValue<V>
        ensures { result ≡ record { value = value; generation = generation } }
    {
        BlackboardValue { value, generation }
    }

    /// The value.
    pub fn get_ref(&self) -> &V
        ensures { result.now ≡ self.now.value }
    {
        &self.value
    }

    /// How many values were published before it, and itself.
    pub fn generation(&self) -> u64
        ensures { result ≡ self.now.generation }
    {
        self.generation
    }
}

impl<V: fmt::Display> fmt::Display for BlackboardValue<V> {
    fn fmt<W: fmt::Write>(&self, f: &mut fmt::Formatter<W>) -> fmt::Result {
        self.value.fmt(f)
    }
}
