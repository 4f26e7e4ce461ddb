//! The events of a script, as its parties see them.
ghost use Rattle.std.specs.Prelude.{◌≡◌, true, IsSome, IsSomeAnd};
ghost use Rattle.board_event_core.specs.EventTable.{event_at};
ghost use Rattle.script_model.specs.ScriptEvents.{holds_event, no_events, runs_on_events};
ghost use Rattle.script_events.specs.PartyEvents.{OfEach, Represents};

use crate::rows::CallTask;
use crate::things::Things;
use board_event_core::Events;
use board_event_model::EventKind;
use board_model::Name;
use std::alloc::Global;
use std::collections::HashMap;

/// Events, the listeners and notifiers that parties hold of them, and the calls that run.
#[derive(Drop)]
pub struct PartyEvents {
    pub(crate) alloc: Global,
    pub(crate) events: Events,
    /// What each party holds, by the names that it gave.
    pub(crate) things: Things,
    /// What the parties have still to do that run a call on events.
    pub(crate) calls: HashMap<Name, CallTask>,
}

impl PartyEvents {
    /// No events. Takes no memory.
    pub fn new(alloc: Global) -> PartyEvents
        ensures { Represents result no_events }
    {
        PartyEvents {
            alloc,
            events: Events::new(alloc),
            things: Things::new(alloc),
            calls: HashMap::new(alloc),
        }
    }

    /// Whether a call of the party runs on events. Where none runs at all, the party isn't looked up.
    #[inline(always)]
    pub fn runs(&self, party: &Name) -> bool
        ensures { OfEach self.now (λ x. result ≡ runs_on_events x party.now) }
    {
        if self.calls.is_empty() {
            return false;
        }
        self.calls.contains_key(party)
    }

    /// Whether the party holds a listener or a notifier under the name.
    pub fn holds(&self, party: &Name, name: &Name) -> bool
        ensures { OfEach self.now (λ x. result ≡ holds_event x party.now name.now) }
    {
        self.things.get(party, name).is_some()
    }

    /// The kind of an event.
    pub fn kind_of(&self, event: u64) -> EventKind
        requires { IsSome (event_at self.now.events event) }
        ensures { IsSomeAnd (event_at self.now.events event) (λ e. result ≡ e.kind) }
    {
        self.events.kind_of(event)
    }

    /// The bytes of the name of an event.
    pub fn name_of(&self, event: u64) -> &[u8]
        requires { IsSome (event_at self.now.events event) }
        ensures { IsSomeAnd (event_at self.now.events event) (λ e. result.now ≡ e.name) }
    {
        self.events.full_name_of(event)
    }
}
