//! A count of signals.
ghost use Rattle.std.specs.Prelude.{◌≡◌, ◌<◌, ◌+◌, ◌-◌, ◌^◌, nat_lt};

use crate::signal_mechanism::SignalMechanism;
use board_names::{ListenerCreateError, ListenerWaitError, NotifierNotifyError};
use std::marker::Model;

/// A count of signals. Clauses see it as that number.
#[derive(Drop, Debug)]
pub struct Semaphore {
    count: u64,
}

impl Model for Semaphore {
    ghost use Rattle.std.specs.Prelude.{ℕ};

    ghost Value = { ℕ };

    ghost view = { λ s. s.count };
}

impl Semaphore {
    /// Whether one signal more can be posted.
    pub(crate) fn has_room(&self) -> bool
        ensures { result ≡ nat_lt self.now (2 ^ 64 - 1) }
    {
        self.count < u64::MAX
    }

    /// Adds a signal.
    pub(crate) fn post(&mut self)
        requires { self.old < 2 ^ 64 - 1 }
        ensures { self.new ≡ self.old + 1 }
    {
        self.count += 1;
    }

    /// Takes a signal, and tells whether there was one.
    pub(crate) fn take(&mut self) -> bool
        ensures took { result ≡ nat_lt 0 self.old }
        ensures left { self.new ≡ self.old - 1 }
    {
        if self.count == 0 {
            return false;
        }
        self.count -= 1;
        true
    }
}

impl SignalMechanism for Semaphore {
    ghost count_of = { λ s. s };

    fn new() -> Semaphore {
        Semaphore { count: 0 }
    }

    fn init(&mut self) -> Result<(), ListenerCreateError> {
        Ok(())
    }

    fn notify(&mut self) -> Result<(), NotifierNotifyError> {
        self.post();
        Ok(())
    }

    fn try_wait(&mut self) -> Result<bool, ListenerWaitError> {
        Ok(self.take())
    }
}
