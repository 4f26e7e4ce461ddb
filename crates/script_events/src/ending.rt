//! What ends: a listener or a notifier, a wait that expires, a party.
ghost use Rattle.std.specs.Prelude.{◌≡◌, ℕ, List, true, IfSome};
ghost use Rattle.std.specs.HashMap.{IsUnique, get, values};
ghost use Rattle.std.specs.Str.{bytes_eq};
ghost use Rattle.script_model.specs.ScriptEvents.{events_abandoned, holds_event};
ghost use Rattle.script_events.specs.Calls.{IsMarkable, marked, marked_gone};
ghost use Rattle.script_events.specs.PartyEvents.{IsLed, IsTurned, IsUniqueIn, OfEach, Represents, all_in, expiry, named_by, thing_let_go};

use crate::holdings::Holdings;
use crate::party_events::PartyEvents;
use crate::rows::Holding;
use board_event_core::Events;
use board_model::{Name, Reason};
use std::collections::HashMap;

/// Counts a listener as gone.
fn mark(holding: &Holding, events: &mut Events)
    requires { IsMarkable events.old holding.now }
    ensures { events.new ≡ marked holding.now events.old }
{
    match holding {
        Holding::Listener(event) => events.mark_gone(*event),
        Holding::Notifier(_) => {}
    }
}

/// Counts the listeners of a party as gone, which holds these.
fn mark_listeners(own: &HashMap<Name, Holding>, events: &mut Events)
    requires { (name : List ℕ) → IfSome (get bytes_eq own.now name) (IsMarkable events.old) }
    ensures marked { events.new ≡ marked_gone (values own.now) events.old }
    ensures unique { IsUnique bytes_eq own.now }
{
    for holding in own.values() {
        mark(holding, events);
    }
}

/// Counts the listeners of a party as gone, which holds this.
fn mark_own(own: &Holdings, events: &mut Events)
    requires { (name : List ℕ) → IfSome (named_by own.now name) (IsMarkable events.old) }
    ensures marked { events.new ≡ marked_gone (all_in own.now) events.old }
    ensures unique { IsUniqueIn own.now }
{
    match own {
        Holdings::Nothing => {}
        Holdings::One(_, holding) => mark(holding, events),
        Holdings::Many(all) => mark_listeners(all, events),
    }
}

impl PartyEvents {
    /// Takes away the listener or the notifier that a party holds under a name. Takes no memory.
    pub fn release(&mut self, party: &Name, name: &Name)
        requires led { IsLed self.old }
        requires held { OfEach self.old (λ x. holds_event x party.now name.now ≡ true) }
        ensures { OfEach self.old (λ x. Represents self.new (thing_let_go x party.now name.now)) }
    {
        match self.things.take(party, name) {
            Some(Holding::Listener(event)) => self.events.release_listener(event),
            Some(Holding::Notifier(event)) => self.events.release_notifier(event),
            // The party holds something.
            None => unreachable!(),
        }
    }

    /// The call of a party ends where it is a timed wait whose last step found nothing; else it tells why not. Takes no memory.
    pub fn expire(&mut self, party: &Name) -> Option<Reason>
        requires { IsLed self.old }
        ensures { OfEach self.old (λ x. IsTurned self.new x (expiry x party.now) result) }
    {
        let Some(task) = self.calls.get(party) else {
            return Some(Reason::Idle);
        };
        if !task.may_end() {
            return Some(Reason::NotWaiting);
        }
        let _ = self.calls.remove(party);
        None
    }

    /// The call of a party runs no more, its listeners count as gone, and its names are never freed. Takes no memory.
    pub fn abandon(&mut self, party: &Name)
        requires { IsLed self.old }
        ensures { OfEach self.old (λ x. Represents self.new (events_abandoned x party.now)) }
    {
        let _ = self.calls.remove(party);
        if let Some(own) = self.things.of(party) {
            mark_own(own, &mut self.events);
        }
    }
}
