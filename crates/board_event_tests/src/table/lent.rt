//! What a caller knows of a table that it is lent, and did not follow from `new`.
ghost use Rattle.std.specs.Prelude.{◌≡◌, ◌≢◌, IsFalse, IsSome, IsTrue, None};
ghost use Rattle.board_event_core.specs.EventTable.{CanPerformAt, event_at};

use super::{Deed, full_name, tell};
use crate::same::same;
use board_event_core::{EventAccess, EventAnswer, EventKind, Events, table_stands};

/// Whether nobody holds an event under this number. Then none stands there.
fn is_unheld(events: &Events, event: u64) -> bool
    ensures { IsTrue result → event_at events.now event ≡ None }
{
    table_stands(events);
    !events.has_listener(event) && !events.has_notifier(event)
}

/// Lets the last holder of an event go, where its listener is the last, and tells whether it was. The event goes with it.
fn last_goes(events: &mut Events, event: u64) -> bool
    requires { IsSome (event_at events.old event) }
    ensures gone { IsTrue result → event_at events.new event ≡ None }
    ensures stays { IsFalse result → events.new ≡ events.old }
{
    table_stands(events);
    if events.has_notifier(event) {
        return false;
    }
    events.release_listener(event);
    true
}

/// Takes the oldest id of a queue and puts another one behind the rest. No queue has so many that there is no room then.
fn pops_and_pushes(events: &mut Events, event: u64, id: u64) -> EventAnswer
    requires { CanPerformAt events.old event EventAccess.Pop }
    ensures { result ≢ EventAnswer.Full }
{
    table_stands(events);
    let _ = events.perform(event, EventAccess::Pop);
    events.perform(event, EventAccess::Push(id))
}

#[test]
fn a_number_without_ends_has_no_event(rt: HostRuntime) {
    let mut events = Events::new(rt.alloc());
    let name = full_name(&rt, b"ev");
    assert!(rt; is_unheld(&events, 1));
    let _ = tell(&mut events, &name, Deed::Listen(EventKind::Bits, 63));
    assert!(rt; !is_unheld(&events, 1));
    if events.has_listener(1) {
        assert!(rt; last_goes(&mut events, 1));
    }
    assert!(rt; is_unheld(&events, 1));
}

#[test]
fn a_popped_id_makes_room(rt: HostRuntime) {
    let mut events = Events::new(rt.alloc());
    let name = full_name(&rt, b"ev");
    let _ = tell(&mut events, &name, Deed::Listen(EventKind::Queue, 65535));
    if events.allows(1, EventAccess::Pop) {
        same(&rt, &pops_and_pushes(&mut events, 1, 7), &EventAnswer::Done);
    }
    if events.allows(1, EventAccess::Pop) {
        same(
            &rt,
            &events.perform(1, EventAccess::Pop),
            &EventAnswer::Id(7),
        );
    }
}
