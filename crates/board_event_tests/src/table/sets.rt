//! A set of ids and a count of signals, by their traits.
use crate::same::same;
use board_event_core::{
    BitSet, IdTracker, NotifierNotifyError, Semaphore, SignalMechanism, TriggerId,
};
use std::process::Abort;

fn adds<R: Abort, T: IdTracker>(rt: &R, ids: &mut T, rows: &[(usize, bool)]) {
    for (id, fits) in rows {
        let answer = ids.add(TriggerId::new(*id));
        let expected = if *fits {
            Ok(())
        } else {
            Err(NotifierNotifyError::TriggerIdOutOfBounds)
        };
        same(rt, &answer, &expected);
    }
}

#[test]
fn ids_are_taken_the_least_first(rt: HostRuntime) {
    let mut set = BitSet::new(rt.alloc(), TriggerId::new(63)).expect(&rt, "memory");
    same(&rt, &set.trigger_id_max(), &TriggerId::new(63));
    adds(&rt, &mut set, &[(3, true), (64, false)]);
    same(&rt, &set.acquire(), &Some(TriggerId::new(3)));
    same(&rt, &set.acquire(), &None);
    let mut wide = BitSet::new(rt.alloc(), TriggerId::new(130)).expect(&rt, "memory");
    adds(
        &rt,
        &mut wide,
        &[(130, true), (64, true), (3, true), (64, true), (131, false)],
    );
    let mut seen = 0usize;
    wide.acquire_all(|id| seen = seen.wrapping_mul(1000).wrapping_add(id.as_value()));
    same(&rt, &seen, &3064130);
    same(&rt, &wide.acquire(), &None);
}

#[test]
fn signals_are_counted(rt: HostRuntime) {
    let mut signals = Semaphore::new();
    same(&rt, &signals.init(), &Ok(()));
    same(&rt, &signals.notify(), &Ok(()));
    same(&rt, &signals.notify(), &Ok(()));
    for expected in [true, true, false] {
        same(&rt, &signals.try_wait(), &Ok(expected));
    }
}
