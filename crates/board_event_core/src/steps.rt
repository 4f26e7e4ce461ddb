//! One step of a call: the access that it owes, made on the events; and the looks at words without ids, which a wait may leave out.
ghost use Rattle.std.specs.Prelude.{◌≡◌, ◌≢◌};
ghost use Rattle.board_event_model.specs.NotifyCalls.{notify_owed};
ghost use Rattle.board_event_model.specs.WaitCalls.{wait_owed};
ghost use Rattle.board_event_core.specs.EventTable.{CanPerformAt, event_at};
ghost use Rattle.board_event_core.specs.Passing.{PassesOver, ids_at};
ghost use Rattle.board_event_core.specs.Steps.{IsNotifyStep, IsWaitStep};

use crate::events::Events;
use crate::notify_call::NotifyCall;
use crate::wait_call::WaitCall;
use board_event_model::{EventAccess, EventAnswer, EventProgress, NotifyStage, WaitStage};

/// A step of a call: its access, the answer, and what the call has come to.
#[derive(Clone, Copy, Debug, PartialEq, Eq)]
pub struct EventStep {
    /// The access that was owed.
    pub access: EventAccess,
    /// What the event answered.
    pub answer: EventAnswer,
    /// What the call has come to with it.
    pub progress: EventProgress,
}

/// Makes the access that a notify owes, and hands the call its answer.
pub fn notify_step(events: &mut Events, event: u64, call: &mut NotifyCall) -> EventStep
    requires goes_on { call.old.stage ≢ NotifyStage.Finished }
    requires can { CanPerformAt events.old event (notify_owed call.old.id call.old.stage) }
    ensures { IsNotifyStep events.old events.new event call.old call.new result }
{
    let access = call.next();
    let answer = events.perform(event, access);
    let progress = call.took(answer);
    EventStep {
        access,
        answer,
        progress,
    }
}

/// Makes the access that a wait owes, and hands the call its answer.
pub fn wait_step(events: &mut Events, event: u64, call: &mut WaitCall) -> EventStep
    requires goes_on { call.old.stage ≢ WaitStage.Finished }
    requires can { CanPerformAt events.old event (wait_owed call.old.stage) }
    ensures { IsWaitStep events.old events.new event call.old call.new result }
{
    let access = call.next();
    let answer = events.perform(event, access);
    let progress = call.took(answer);
    EventStep {
        access,
        answer,
        progress,
    }
}

/// May leave out looks that a wait owes at words without ids: it goes on as it would with the answers to them. How many is
/// a matter of speed alone.
pub fn pass_empty_words(events: &Events, event: u64, call: &mut WaitCall)
    ensures passes { PassesOver (ids_at (event_at events.now event)) call.old call.new }
    ensures on { call.old.stage ≢ WaitStage.Finished → call.new.stage ≢ WaitStage.Finished }
{
    let Some(word) = call.word() else {
        return;
    };
    if events.allows(event, EventAccess::Scan(word)) {
        call.go_on_to(events.next_word(event, word));
    }
}
