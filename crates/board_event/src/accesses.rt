//! One access of a call on events: asked for first, then made.
ghost use Rattle.std.specs.Prelude.{◌≡◌, ◌≢◌, ◌≤◌, ◌<◌, ◌+◌, ◌^◌};
ghost use Rattle.std.specs.Int.{bit_at};
ghost use Rattle.board_event_model.specs.EventCalls.{reported};
ghost use Rattle.board_event.specs.LentForms.{CallsOn};
ghost use Rattle.board_event.specs.Accesses.{IsInRange, IsNotifyAccess, IsWaitAccess};
ghost use Rattle.board_event_model.specs.Ids.{ids_of_bits};

use board_event_core::{
    EventAccess, EventProgress, Events, NotifierNotifyError, NotifyCall, NotifyStage, TriggerId,
    WaitCall, WaitStage, notify_step, wait_step,
};

/// Makes the access that a wait owes, where the event can take it, and tells what the wait has come to.
pub(crate) fn wait_access(
    events: &mut Events,
    event: u64,
    call: &mut WaitCall,
) -> Option<EventProgress>
    requires { call.old.stage ≢ WaitStage.Finished }
    ensures { IsWaitAccess events.old events.new event call.old call.new result }
{
    if !events.allows(event, call.next()) {
        return None;
    }
    Some(wait_step(events, event, call).progress)
}

/// Makes the access that a notify owes, and tells what the notify has come to. Where the event can't take the access, a
/// post is left out, and else the listener is gone.
pub(crate) fn notify_access(events: &mut Events, event: u64, call: &mut NotifyCall) -> EventProgress
    requires { call.old.stage ≢ NotifyStage.Finished }
    ensures { IsNotifyAccess events.old events.new event call.old call.new result }
{
    let access = call.next();
    if events.allows(event, access) {
        return notify_step(events, event, call).progress;
    }
    match access {
        EventAccess::Post => EventProgress::Notified,
        _ => EventProgress::Refused(NotifierNotifyError::Disconnected),
    }
}

/// Hands the ids that a step reports to the callback, the least first.
pub(crate) fn hand_over<F: FnMut(TriggerId)>(callback: &mut F, progress: EventProgress)
    requires { F.IsAlwaysCallable callback.old }
    ensures callable { F.IsAlwaysCallable callback.new }
    ensures calls { IsInRange progress → CallsOn F.step callback.old (reported progress) callback.new }
{
    match progress {
        EventProgress::Id { id, last: _ } => callback(TriggerId::new(id as usize)),
        EventProgress::Took {
            base,
            bits,
            last: _,
        } => {
            let count = bits_of_word();
            hand_over_bits(callback, base, bits, count)
        }
        _ => {}
    }
}

/// How many bits a word has.
fn bits_of_word() -> u64
    ensures { result ≡ 64 }
{
    64
}

/// Hands the ids of a word's first bits to the callback, the least first.
fn hand_over_bits<F: FnMut(TriggerId)>(callback: &mut F, base: u64, bits: u64, count: u64)
    requires callable { F.IsAlwaysCallable callback.old }
    requires few { count ≤ 64 }
    ensures callable { F.IsAlwaysCallable callback.new }
    ensures calls { base + count ≤ 2 ^ 64 → CallsOn F.step callback.old (ids_of_bits base bits count) callback.new }
{
    for bit in 0..count {
        hand_over_bit(callback, base, bits, bit);
    }
}

/// Hands the id of a bit to the callback, where the bit is set.
fn hand_over_bit<F: FnMut(TriggerId)>(callback: &mut F, base: u64, bits: u64, bit: u64)
    requires callable { F.IsAlwaysCallable callback.old }
    requires within { bit < 64 }
    ensures callable { F.IsAlwaysCallable callback.new }
    ensures called { bit_at bits bit ≡ 1 → base + bit < 2 ^ 64 → F.step callback.old (base + bit) tt callback.new }
    ensures left { bit_at bits bit ≡ 0 → callback.new ≡ callback.old }
{
    if bits >> bit & 1 == 1 {
        callback(TriggerId::new(base.saturating_add(bit) as usize));
    }
}
