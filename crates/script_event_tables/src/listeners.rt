//! The parties of listeners, and which of the listeners are one party's.
ghost use Rattle.std.specs.Prelude.{◌≡◌, ◌++◌, ◌∷◌, [], ◌<◌, OnErr, OnOk, length, slice_index_or};
ghost use Rattle.script_event_tables.specs.Listeners.{last_of};

use board_model::Name;
use std::alloc::{AllocError, Global};
use std::collections::HashMap;
use std::marker::Model;

/// The parties of listeners in the order of their making. From a party's last listener each leads to the one before it, so no
/// other party's is passed. Contracts see the list of the parties.
#[derive(Drop)]
pub(crate) struct Listeners {
    parties: Vec<Name>,
    // where the party's listener before this one stands
    before: Vec<Option<usize>>,
    // where a party's last listener stands
    last: HashMap<Name, usize>,
}

impl Model for Listeners {
    ghost use Rattle.std.specs.Prelude.{ℕ, List};
    ghost use Rattle.script_event_tables.specs.Listeners.{AreChained};

    ghost Value = { List (List ℕ) };

    ghost view = { λ d. d.parties.items };

    ghost invariant = { λ d. AreChained d.last d.parties.items d.before.items };
}

impl Listeners {
    // No listeners. Takes no memory.
    pub(crate) fn new(alloc: Global) -> Listeners
        ensures { result ≡ [] }
    {
        Listeners {
            parties: Vec::new(alloc),
            before: Vec::new(alloc),
            last: HashMap::new(alloc),
        }
    }

    // Where the party's last listener stands.
    pub(crate) fn last(&self, party: &Name) -> Option<usize>
        ensures { result ≡ last_of party.now self.now (length self.now) }
    {
        self.last.get(party).copied()
    }

    // Where the last listener before this one stands that is of the same party.
    pub(crate) fn before(&self, place: usize) -> Option<usize>
        requires { place < length self.now }
        ensures { result ≡ last_of (slice_index_or self.now place []) self.now place }
    {
        self.before[place]
    }

    // Adds a listener of the party behind the others.
    pub(crate) fn push(&mut self, party: Name) -> Result<(), AllocError>
        ensures ok { OnOk result (self.new ≡ self.old ++ party ∷ []) }
        ensures err { OnErr result (self.new ≡ self.old) }
    {
        self.parties.reserve(1)?;
        self.before.reserve(1)?;
        let place = self.parties.len();
        let before = self.last.insert(party, place)?;
        self.parties.push_reserved(party);
        self.before.push_reserved(before);
        Ok(())
    }
}
