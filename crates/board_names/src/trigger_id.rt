//! The number that a notifier hands to a listener.
ghost use Rattle.std.specs.Prelude.{◌≡◌, ℕ};

use std::marker::Model;

/// The number that a notifier hands to a listener. Clauses see it as that number.
#[derive(Clone, Copy, Debug, PartialEq, Eq, Hash, PartialOrd, Ord)]
pub struct TriggerId {
    value: usize,
}

/// The id of an event is the number that it triggers.
pub type EventId = TriggerId;

impl Model for TriggerId {
    ghost use Rattle.std.specs.Prelude.{ℕ};

    ghost Value = { ℕ };

    ghost view = { λ id. id.value };

    ghost inverse = { λ n. record { value = n } };
}

impl TriggerId {
    /// The id with this number.
    pub fn new(value: usize) -> TriggerId
        ensures { result ≡ value }
    {
        TriggerId { value }
    }

    /// Its number.
    pub fn as_value(&self) -> usize
        ensures { result ≡ self.now }
    {
        self.value
    }
}

impl Default for TriggerId {
    ghost is_default = { λ id. id ≡ 0 };

    fn default() -> TriggerId {
        TriggerId { value: 0 }
    }
}
