//! Calls on events begin.
ghost use Rattle.std.specs.Prelude.{◌≡◌, ◌||◌, false, IfOk, IsSome, IsSomeAnd, OnErr};
ghost use Rattle.board_event_core.specs.EventTable.{event_at};
ghost use Rattle.script_model.specs.ScriptEvents.{holds_event, notify_call, runs_on_events, wait_call};
ghost use Rattle.script_events.specs.Calls.{IsCheckedBy, IsNewAct};
ghost use Rattle.script_events.specs.PartyEvents.{BeginMayWant, Begins, IsLed, OfEach, event_call};
ghost use Rattle.script_events.specs.Left.{IsUnchanged};

use crate::party_events::PartyEvents;
use crate::rows::{Act, ActiveCall, CallTask};
use board_event_core::{NotifyCall, WaitCall};
use board_event_model::{EventKind, WaitMode};
use board_model::{Name, Reason};
use script_model::EventRequest;
use std::alloc::AllocError;

impl PartyEvents {
    /// A call of a party that runs none begins, or is refused. `taken`: boards hold the name of what it makes for the party; of
    /// a notify or a wait, which make nothing, it says nothing.
    ///
    /// # Errors
    /// `AllocError` where memory is refused, and no rule refuses the call. Then nothing has changed.
    #[inline(always)]
    pub fn begin(
        &mut self,
        party: Name,
        request: EventRequest,
        taken: bool,
    ) -> Result<Option<Reason>, AllocError>
        requires led { IsLed self.old }
        requires free { OfEach self.old (λ x. runs_on_events x party ≡ false) }
        ensures told { IfOk result (Begins self.old self.new party request taken) }
        ensures memory { OnErr result (BeginMayWant self.old party request taken) }
        ensures left { OnErr result (IsUnchanged self.old self.new) }
    {
        match self.check(&party, request, taken) {
            Ok(task) => {
                let _ = self.calls.insert(party, task)?;
                Ok(None)
            }
            Err(why) => Ok(Some(why)),
        }
    }

    /// The call that is to begin, or why it is refused.
    #[inline(always)]
    fn check(&self, party: &Name, request: EventRequest, taken: bool) -> Result<CallTask, Reason>
        requires { IsLed self.now }
        ensures { OfEach self.now (λ x. IsCheckedBy x party.now request taken result) }
    {
        match request {
            EventRequest::ListenBits {
                listener,
                event,
                max,
            } => {
                if self.is_taken(party, &listener, taken) {
                    return Err(Reason::Taken);
                }
                Ok(CallTask::Listen {
                    listener,
                    kind: EventKind::Bits,
                    event,
                    max,
                })
            }
            EventRequest::ListenQueue { listener, event } => {
                if self.is_taken(party, &listener, taken) {
                    return Err(Reason::Taken);
                }
                Ok(CallTask::Listen {
                    listener,
                    kind: EventKind::Queue,
                    event,
                    max: 0,
                })
            }
            EventRequest::Notifier {
                notifier,
                kind,
                event,
            } => {
                if self.is_taken(party, &notifier, taken) {
                    return Err(Reason::Taken);
                }
                Ok(CallTask::Notifier {
                    notifier,
                    kind,
                    event,
                })
            }
            EventRequest::Notify { notifier, id } => {
                match self.things.notified(party, &notifier) {
                    Some(event) => {
                        let call = self.notify_call(event, id);
                        Ok(self.act(event, call))
                    }
                    None => Err(Reason::Unknown),
                }
            }
            EventRequest::Wait {
                listener,
                many,
                mode,
            } => match self.things.listened(party, &listener) {
                Some(event) => {
                    let call = self.wait_call(event, many, mode);
                    Ok(self.act(event, call))
                }
                None => Err(Reason::Unknown),
            },
        }
    }

    /// Whether the party holds something under the name, of events or of boards.
    fn is_taken(&self, party: &Name, name: &Name, taken: bool) -> bool
        ensures { OfEach self.now (λ x. result ≡ (taken || holds_event x party.now name.now)) }
    {
        if taken {
            return true;
        }
        self.holds(party, name)
    }

    /// A notify of an event.
    fn notify_call(&self, event: u64, id: u64) -> ActiveCall
        requires { IsSome (event_at self.now.events event) }
        ensures { IsSomeAnd (event_at self.now.events event)
            (λ e. event_call result ≡ notify_call e id) }
    {
        match self.events.kind_of(event) {
            EventKind::Bits => ActiveCall::Notify(NotifyCall::bits(id, self.events.max_of(event))),
            EventKind::Queue => ActiveCall::Notify(NotifyCall::queue(id)),
        }
    }

    /// A wait on an event.
    fn wait_call(&self, event: u64, many: bool, mode: WaitMode) -> ActiveCall
        requires { IsSome (event_at self.now.events event) }
        ensures { IsSomeAnd (event_at self.now.events event)
            (λ e. event_call result ≡ wait_call e many mode) }
    {
        match self.events.kind_of(event) {
            EventKind::Bits => {
                let words = self.events.max_of(event) / 64 + 1;
                ActiveCall::Wait(WaitCall::bits(words, many, mode))
            }
            EventKind::Queue => ActiveCall::Wait(WaitCall::queue(many, mode)),
        }
    }

    /// A call that has taken no access.
    fn act(&self, event: u64, call: ActiveCall) -> CallTask
        ensures { IsNewAct result event (event_call call) }
    {
        CallTask::Act(Act {
            event,
            call,
            told: Vec::new(self.alloc),
            waited: false,
        })
    }
}
