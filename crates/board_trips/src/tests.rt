//! Which ids a round trip sends, takes and sends back, and that another one is told; and the trips of two threads.
use crate::trips::{echo, ends_of, run_trips, send};
use board_event::{
    EventListener, EventNotifier, Listener, Notifier, QueueOfIds, SetOfIds, TriggerId,
};
use std::alloc::Global;
use std::fmt::Debug;
use std::process::Abort;
use std::sync::Wait;
use std::test::*;

// Fails with both values where they differ.
fn same<T: PartialEq + Debug>(rt: &impl Abort, found: &T, wanted: &T) {
    assert_eq!(rt; *found, *wanted);
}

// The ids of this many round trips, in turn.
fn id_of(i: u64) -> TriggerId {
    TriggerId::new((i % 64) as usize)
}

fn notify_all<R: Wait>(rt: &R, to: &EventNotifier<QueueOfIds>, count: u64) -> Result<(), Fail> {
    for i in 0..count {
        to.notify(rt, id_of(i))?;
    }
    Ok(())
}

fn takes_all<R: Wait + Abort>(
    rt: &R,
    from: &EventListener<QueueOfIds>,
    count: u64,
) -> Result<(), Fail> {
    for i in 0..count {
        same(rt, &from.try_wait_one(rt)?, &Some(id_of(i)));
    }
    same(rt, &from.try_wait_one(rt)?, &None);
    Ok(())
}

#[test]
fn each_round_trip_sends_an_id_and_takes_one(rt: HostRuntime) -> Result<(), Fail> {
    let (there, to_there) = ends_of::<QueueOfIds, HostRuntime>(&rt, rt.alloc())?;
    let (back, to_back) = ends_of::<QueueOfIds, HostRuntime>(&rt, rt.alloc())?;
    notify_all(&rt, &to_back, 200)?;
    same(&rt, &send(&rt, &to_there, &back, 200)?.number(), &200);
    takes_all(&rt, &back, 0)?;
    takes_all(&rt, &there, 200)
}

fn notify_each<R: Wait>(rt: &R, to: &EventNotifier<QueueOfIds>, ids: &[usize]) -> Result<(), Fail> {
    for id in ids {
        to.notify(rt, TriggerId::new(*id))?;
    }
    Ok(())
}

// The ids that come back are those of the trips, but for the last one.
fn is_told<R: Wait + Abort>(rt: &R, alloc: Global, ids: &[usize]) -> Result<(), Fail> {
    let (_there, to_there) = ends_of::<QueueOfIds, R>(rt, alloc)?;
    let (back, to_back) = ends_of::<QueueOfIds, R>(rt, alloc)?;
    notify_each(rt, &to_back, ids)?;
    assert!(rt; send(rt, &to_there, &back, ids.len() as u64).is_err());
    Ok(())
}

#[test]
fn another_id_that_comes_back_is_told(rt: HostRuntime) -> Result<(), Fail> {
    is_told(&rt, rt.alloc(), &[1])?;
    is_told(&rt, rt.alloc(), &[0, 0])
}

#[test]
fn the_ids_that_came_are_sent_back(rt: HostRuntime) -> Result<(), Fail> {
    let (there, to_there) = ends_of::<QueueOfIds, HostRuntime>(&rt, rt.alloc())?;
    let (back, to_back) = ends_of::<QueueOfIds, HostRuntime>(&rt, rt.alloc())?;
    notify_each(&rt, &to_there, &[7, 3, 3])?;
    echo(&rt, &there, &to_back, 3)?;
    for id in [7, 3, 3] {
        same(&rt, &back.try_wait_one(&rt)?, &Some(TriggerId::new(id)));
    }
    takes_all(&rt, &back, 0)?;
    takes_all(&rt, &there, 0)
}

#[test]
fn ends_whose_listener_is_gone_end_a_trip(rt: HostRuntime) -> Result<(), Fail> {
    let (gone, to_gone) = ends_of::<QueueOfIds, HostRuntime>(&rt, rt.alloc())?;
    let (here, to_here) = ends_of::<QueueOfIds, HostRuntime>(&rt, rt.alloc())?;
    gone.release(&rt);
    notify_each(&rt, &to_here, &[0, 0])?;
    assert!(rt; send(&rt, &to_gone, &here, 1).is_err());
    assert!(rt; echo(&rt, &here, &to_gone, 1).is_err());
    Ok(())
}

#[test]
fn trips_over_sets_are_counted_in_both_threads(rt: HostRuntime) -> Result<(), Fail> {
    let trips = run_trips::<SetOfIds, HostRuntime>(&rt, rt.alloc(), 10)?;
    let counts = (trips.made.number(), trips.echoed.number());
    same(&rt, &counts, &(10, 10));
    Ok(())
}
