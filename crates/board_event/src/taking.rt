//! Calls on events that nobody else has, driven to their end.
ghost use Rattle.std.specs.Prelude.{◌≡◌, Err, None};
ghost use Rattle.board_names.specs.declared.errors.event.NotifierNotifyError.TheVariants.{Disconnected};
ghost use Rattle.board_event.specs.Ends.{NoneOfKind};
ghost use Rattle.board_event.specs.LentForms.{CallsOnAll, CallsOnReachedAt, ChangesAt, KeepsRestAt, LeavesAt, OnEventAt, OnKindAt, all_taken, notified, notify_answer, reached_taken};
ghost use Rattle.board_event.specs.Taking.{FoundNone, OneTaken, notify_begun, wait_begun};

use crate::accesses::{hand_over, notify_access, wait_access};
use board_event_core::{
    EventKind, EventProgress, Events, NotifierNotifyError, NotifyCall, TriggerId, WaitCall,
    WaitMode, table_stands,
};

/// A wait on events of this kind and with this greatest id.
pub(crate) fn wait_call(kind: EventKind, max: u64, many: bool, mode: WaitMode) -> WaitCall
    ensures { result ≡ wait_begun kind max many mode }
{
    match kind {
        EventKind::Bits => WaitCall::bits(max / 64 + 1, many, mode),
        EventKind::Queue => WaitCall::queue(many, mode),
    }
}

/// A notify on events of this kind and with this greatest id.
pub(crate) fn notify_call(kind: EventKind, max: u64, id: u64) -> NotifyCall
    ensures { result ≡ notify_begun kind max id }
{
    match kind {
        EventKind::Bits => NotifyCall::bits(id, max),
        EventKind::Queue => NotifyCall::queue(id),
    }
}

/// Notifies an event of an id.
pub(crate) fn notify_once(
    events: &mut Events,
    event: u64,
    kind: EventKind,
    max: u64,
    id: u64,
) -> Result<(), NotifierNotifyError>
    ensures answer { OnKindAt kind event events.old (λ e. result ≡ notify_answer kind max id e) }
    ensures after { LeavesAt kind event events.old events.new (notified kind max id) }
    ensures gone { NoneOfKind kind event events.old → result ≡ Err Disconnected }
    ensures stays { NoneOfKind kind event events.old → events.new ≡ events.old }
{
    let mut call = notify_call(kind, max, id);
    while !call.is_done() {
        match notify_access(events, event, &mut call) {
            EventProgress::More => {}
            EventProgress::Refused(why) => return Err(why),
            _ => return Ok(()),
        }
    }
    Ok(())
}

/// Takes the next id of an event, where one waits.
pub(crate) fn take_one(events: &mut Events, event: u64, kind: EventKind, max: u64) -> Option<u64>
    ensures one { OnKindAt kind event events.old (λ e. OneTaken kind max e events.old events.new event result) }
    ensures none { OnEventAt kind max event events.old (FoundNone result) }
    ensures rest { KeepsRestAt event events.old events.new }
    ensures gone { NoneOfKind kind event events.old → result ≡ None }
    ensures stays { NoneOfKind kind event events.old → events.new ≡ events.old }
{
    table_stands(events);
    let mut call = wait_call(kind, max, false, WaitMode::Try);
    while !call.is_done() {
        let Some(progress) = wait_access(events, event, &mut call) else {
            return None;
        };
        match progress {
            EventProgress::Id { id, last: _ } => return Some(id),
            _ => {}
        }
    }
    None
}

/// Takes all ids of an event, and hands each to the callback.
pub(crate) fn take_all<F: FnMut(TriggerId)>(
    events: &mut Events,
    event: u64,
    kind: EventKind,
    max: u64,
    callback: &mut F,
)
    requires { F.IsAlwaysCallable callback.old }
    ensures callable { F.IsAlwaysCallable callback.new }
    ensures calls { OnEventAt kind max event events.old (CallsOnAll F.step callback.old callback.new kind) }
    ensures after { ChangesAt kind max event events.old events.new (all_taken kind) }
    ensures reached { CallsOnReachedAt F.step callback.old callback.new kind max event events.old }
    ensures left { LeavesAt kind event events.old events.new (reached_taken kind max) }
    ensures rest { KeepsRestAt event events.old events.new }
    ensures stays { NoneOfKind kind event events.old → events.new ≡ events.old }
    ensures uncalled { NoneOfKind kind event events.old → callback.new ≡ callback.old }
{
    table_stands(events);
    let mut call = wait_call(kind, max, true, WaitMode::Try);
    while !call.is_done() {
        let Some(progress) = wait_access(events, event, &mut call) else {
            return;
        };
        hand_over(callback, progress);
    }
}
