//! Steps of calls on events.
ghost use Rattle.std.specs.Prelude.{◌≡◌, ℕ, List, true, IfOk, IsSomeAnd, OnErr};
ghost use Rattle.board_event_model.specs.EventCalls.{owed};
ghost use Rattle.board_event_core.specs.EventTable.{CanPerformAt, event_at};
ghost use Rattle.script_model.specs.ScriptEvents.{runs_on_events};
ghost use Rattle.script_events.specs.Calls.{CanStep, GoesOn, IsWentOn, StepsTo, TakesAt, goes_on};
ghost use Rattle.script_events.specs.Left.{IsCutAt, IsCutShort, IsPerformed};
ghost use Rattle.script_events.specs.PartyEvents.{Gives, IsLed, OfEach, StepMayWant, Steps, event_call, held_in};

use crate::asking::{add_notifier, listen};
use crate::party_events::PartyEvents;
use crate::rows::{Act, CallTask};
use crate::things::Things;
use board_event_core::Events;
use board_event_model::{EventAccess, EventAnswer};
use board_model::Name;
use script_model::{EventReply, end_told, is_last, is_waiting, report};
use std::alloc::{AllocError, Global};
use std::mem;

/// What a step was told.
#[derive(Drop, Debug)]
pub enum Stepped {
    /// A listener or a notifier was asked for.
    Asked(EventReply),
    /// A call made an access to its event, and maybe ended.
    Acted {
        /// The number of the event.
        event: u64,
        /// The access.
        access: EventAccess,
        /// The event's answer.
        answer: EventAnswer,
        /// What the call was told, where it has ended.
        told: Option<EventReply>,
    },
}

impl PartyEvents {
    /// The call that a party runs on events makes its step.
    ///
    /// # Errors
    /// `AllocError` where memory is refused: only where a listener or a notifier is made, or an access gives ids. The call then
    /// runs no more, and what it has done to the events is not undone. Parties hold what they held, and other calls run on.
    #[inline(always)]
    pub fn step(&mut self, party: &Name) -> Result<Stepped, AllocError>
        requires led { IsLed self.old }
        requires runs { OfEach self.old (λ x. runs_on_events x party.now ≡ true) }
        ensures told { IfOk result (Steps self.old self.new party.now) }
        ensures memory { OnErr result (StepMayWant self.old party.now) }
        ensures left { OnErr result (IsCutShort self.old self.new party.now) }
    {
        let Some(task) = self.calls.get_mut(party) else {
            // The party runs a call.
            unreachable!()
        };
        let stepped = task.step(self.alloc, party, &mut self.events, &mut self.things);
        if !goes_on(&stepped) {
            let _ = self.calls.remove(party);
        }
        stepped
    }
}

/// Whether the call goes on that was told so.
fn goes_on(stepped: &Result<Stepped, AllocError>) -> bool
    ensures { result ≡ goes_on stepped.now }
{
    match stepped {
        Ok(
            Stepped::Acted {
                event: _,
                access: _,
                answer: _,
                told,
            },
        ) => told.is_none(),
        Ok(Stepped::Asked(_)) => false,
        Err(_) => false,
    }
}

impl CallTask {
    /// The next step of a party's call. What is left of one that has ended is of no use.
    fn step(
        &mut self,
        alloc: Global,
        party: &Name,
        events: &mut Events,
        things: &mut Things,
    ) -> Result<Stepped, AllocError>
        requires { CanStep events.old self.old }
        ensures told { IfOk result (StepsTo events.old (held_in things.old) events.new
            (held_in things.new) party.now self.old self.new) }
        ensures memory { OnErr result
            (TakesAt events.old (held_in things.old) party.now self.old) }
        ensures things { OnErr result ((p n : List ℕ)
            → held_in things.new p n ≡ held_in things.old p n) }
        ensures events { OnErr result (IsCutAt events.old events.new self.old) }
    {
        match self {
            CallTask::Listen {
                listener,
                kind,
                event,
                max,
            } => {
                let reply = listen(events, things, *party, *listener, *kind, event, *max)?;
                Ok(Stepped::Asked(reply))
            }
            CallTask::Notifier {
                notifier,
                kind,
                event,
            } => {
                let reply = add_notifier(events, things, *party, *notifier, *kind, event)?;
                Ok(Stepped::Asked(reply))
            }
            CallTask::Act(act) => act.step(alloc, events),
        }
    }
}

impl Act {
    /// A call makes the access that it owes. One that ends is told its ids, and keeps none.
    fn step(&mut self, alloc: Global, events: &mut Events) -> Result<Stepped, AllocError>
        requires goes_on { GoesOn (event_call self.old.call) }
        requires can { CanPerformAt events.old self.old.event (owed (event_call self.old.call)) }
        ensures told { IfOk result (IsWentOn events.old events.new self.old self.new) }
        ensures memory { OnErr result (IsSomeAnd (event_at events.old self.old.event)
            (λ e. Gives e (event_call self.old.call))) }
        ensures events { OnErr result
            (IsPerformed events.old events.new self.old.event (owed (event_call self.old.call))) }
    {
        let event = self.event;
        let step = self.call.step(events, event);
        report(step.progress, &mut self.told)?;
        if is_last(step.progress) {
            let ids = mem::replace(&mut self.told, Vec::new(alloc));
            let told = end_told(self.call.is_for_all(), step.progress, ids);
            return Ok(Stepped::Acted {
                event,
                access: step.access,
                answer: step.answer,
                told: Some(told),
            });
        }
        self.waited = is_waiting(step.progress);
        Ok(Stepped::Acted {
            event,
            access: step.access,
            answer: step.answer,
            told: None,
        })
    }
}
