//! What parties hold under their names. A party that holds nothing has no row.
ghost use Rattle.std.specs.Prelude.{◌≡◌, ℕ, List, None, OnErr, OnOk, Some, option_map};
ghost use Rattle.script_events.specs.Calls.{HasAt, listened_in, notified_in};
ghost use Rattle.script_events.specs.PartyEvents.{held_in, own_in};

use crate::holdings::Holdings;
use crate::rows::Holding;
use board_model::Name;
use std::alloc::{AllocError, Global};
use std::collections::HashMap;

/// What each party holds.
#[derive(Drop)]
pub(crate) struct Things {
    pub(crate) alloc: Global,
    pub(crate) parties: HashMap<Name, Holdings>,
}

impl Things {
    /// Nobody holds anything. Takes no memory.
    pub(crate) fn new(alloc: Global) -> Things
        ensures { (p n : List ℕ) → held_in result p n ≡ None }
    {
        Things {
            alloc,
            parties: HashMap::new(alloc),
        }
    }

    /// What a party holds, where it holds something.
    pub(crate) fn of(&self, party: &Name) -> Option<&Holdings>
        ensures { option_map (λ own. own.now) result ≡ own_in self.now party.now }
    {
        self.parties.get(party)
    }

    /// What a party holds under a name.
    #[inline(always)]
    pub(crate) fn get(&self, party: &Name, name: &Name) -> Option<Holding>
        ensures { result ≡ held_in self.now party.now name.now }
    {
        match self.parties.get(party) {
            Some(own) => own.get(name),
            None => None,
        }
    }

    /// The event that a party's listener of this name is of.
    pub(crate) fn listened(&self, party: &Name, name: &Name) -> Option<u64>
        ensures { result ≡ listened_in (held_in self.now party.now name.now) }
    {
        match self.get(party, name) {
            Some(Holding::Listener(event)) => Some(event),
            Some(Holding::Notifier(_)) => None,
            None => None,
        }
    }

    /// The event that a party's notifier of this name is of.
    pub(crate) fn notified(&self, party: &Name, name: &Name) -> Option<u64>
        ensures { result ≡ notified_in (held_in self.now party.now name.now) }
    {
        match self.get(party, name) {
            Some(Holding::Listener(_)) => None,
            Some(Holding::Notifier(event)) => Some(event),
            None => None,
        }
    }

    /// The party holds this under the name.
    ///
    /// # Errors
    /// `AllocError` where memory is refused. Each party holds what it held.
    pub(crate) fn put(
        &mut self,
        party: Name,
        name: Name,
        holding: Holding,
    ) -> Result<(), AllocError>
        ensures ok { OnOk result
            (HasAt (held_in self.old) (held_in self.new) party name (Some holding)) }
        ensures err { OnErr result ((p n : List ℕ)
            → held_in self.new p n ≡ held_in self.old p n) }
    {
        if let Some(own) = self.parties.get_mut(&party) {
            return own.put(self.alloc, name, holding);
        }
        let _ = self.parties.insert(party, Holdings::One(name, holding))?;
        Ok(())
    }

    /// Takes what the party holds under the name. Takes no memory.
    pub(crate) fn take(&mut self, party: &Name, name: &Name) -> Option<Holding>
        ensures value { result ≡ held_in self.old party.now name.now }
        ensures left { HasAt (held_in self.old) (held_in self.new) party.now name.now None }
    {
        let Some(own) = self.parties.get_mut(party) else {
            return None;
        };
        let holding = own.take(name);
        if own.is_empty() {
            let _ = self.parties.remove(party);
        }
        holding
    }
}
