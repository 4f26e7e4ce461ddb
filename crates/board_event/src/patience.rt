//! How long a wait sleeps after a look that found nothing.
use std::sync::{Condvar, MutexGuard, Wait};
use std::time::{Clock, Duration, Instant};

/// How long a wait sleeps after a look that found nothing.
pub(crate) trait Patience<R> {
    /// Lets go of the lock and sleeps until a notify comes, and tells whether the wait goes on.
    fn sleep<T>(&self, rt: &R, arrived: &Condvar, held: MutexGuard<'_, T>) -> bool;
}

/// Until a notify comes.
pub(crate) struct Forever;

impl<R: Wait> Patience<R> for Forever {
    fn sleep<T>(&self, rt: &R, arrived: &Condvar, held: MutexGuard<'_, T>) -> bool {
        let _ = arrived.wait(rt, held);
        true
    }
}

/// Until a notify comes, or the time is up.
#[derive(Drop)]
pub(crate) struct Until {
    start: Option<Instant>,
    timeout: Duration,
}

impl Until {
    /// From now on. A clock that can't be read ends the wait at once.
    pub(crate) fn after<R: Clock>(rt: &R, timeout: Duration) -> Until {
        Until {
            start: Instant::now(rt).ok(),
            timeout,
        }
    }

    /// The time that is left, if some is.
    fn left<R: Clock>(&self, rt: &R) -> Option<Duration> {
        let passed = self.start?.elapsed(rt).ok()?;
        let left = self.timeout.checked_sub(passed)?;
        if left.is_zero() { None } else { Some(left) }
    }
}

impl<R: Wait + Clock> Patience<R> for Until {
    fn sleep<T>(&self, rt: &R, arrived: &Condvar, held: MutexGuard<'_, T>) -> bool {
        match self.left(rt) {
            None => false,
            Some(left) => {
                let _ = arrived.wait_timeout(rt, held, left);
                true
            }
        }
    }
}
