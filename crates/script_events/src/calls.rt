//! Calls on an event: their accesses.
ghost use Rattle.std.specs.Prelude.{◌≡◌};
ghost use Rattle.board_event_model.specs.EventCalls as calls;
ghost use Rattle.board_event_core.specs.EventTable.{CanPerformAt};
ghost use Rattle.script_model.specs.ScriptEvents as model;
ghost use Rattle.script_events.specs.Calls.{GoesOn, IsActStep, may_end};
ghost use Rattle.script_events.specs.PartyEvents.{event_call};

use crate::rows::{ActiveCall, CallTask};
use board_event_core::{EventStep, Events, notify_step, wait_step};
use board_event_model::WaitMode;

impl ActiveCall {
    /// Makes the access that the call owes, and hands it the answer.
    pub(crate) fn step(&mut self, events: &mut Events, event: u64) -> EventStep
        requires goes_on { GoesOn (event_call self.old) }
        requires can { CanPerformAt events.old event (calls.owed (event_call self.old)) }
        ensures { IsActStep events.old events.new event (event_call self.old)
            (event_call self.new) result }
    {
        match self {
            ActiveCall::Notify(call) => notify_step(events, event, call),
            ActiveCall::Wait(call) => wait_step(events, event, call),
        }
    }

    /// Whether it is a wait for all ids.
    pub(crate) fn is_for_all(&self) -> bool
        ensures { result ≡ model.is_for_all (event_call self.now) }
    {
        match self {
            ActiveCall::Notify(_) => false,
            ActiveCall::Wait(call) => call.is_many(),
        }
    }

    /// Whether it is a timed wait.
    fn is_timed(&self) -> bool
        ensures { result ≡ calls.is_timed (event_call self.now) }
    {
        match self {
            ActiveCall::Notify(_) => false,
            ActiveCall::Wait(call) => match call.mode() {
                WaitMode::Timed => true,
                WaitMode::Try => false,
                WaitMode::Block => false,
            },
        }
    }
}

impl CallTask {
    /// Whether it is a timed wait whose last access found nothing.
    pub(crate) fn may_end(&self) -> bool
        ensures { result ≡ may_end self.now }
    {
        match self {
            CallTask::Act(act) => act.call.is_timed() && act.waited,
            CallTask::Listen {
                listener: _,
                kind: _,
                event: _,
                max: _,
            } => false,
            CallTask::Notifier {
                notifier: _,
                kind: _,
                event: _,
            } => false,
        }
    }
}
