//! What tells a listener that there is something to take.
ghost use Rattle.std.specs.Prelude.{◌≡◌, ◌<◌, ◌+◌, ◌-◌, ◌^◌, ℕ, nat_lt, Ok};

use board_names::{ListenerCreateError, ListenerWaitError, NotifierNotifyError};

/// Signals that were posted and not yet taken. Clauses see how many.
pub trait SignalMechanism: Sized {
    ghost count_of: { Self → ℕ };

    /// No signals.
    fn new() -> Self
        ensures { count_of result ≡ 0 };

    /// Makes it ready; it is never refused.
    fn init(&mut self) -> Result<(), ListenerCreateError>
        ensures answer { result ≡ Ok tt }
        ensures after { count_of self.new ≡ count_of self.old };

    /// Posts a signal; it is never refused.
    fn notify(&mut self) -> Result<(), NotifierNotifyError>
        requires { count_of self.old < 2 ^ 64 - 1 }
        ensures answer { result ≡ Ok tt }
        ensures after { count_of self.new ≡ count_of self.old + 1 };

    /// Takes a signal, and tells whether there was one. It doesn't wait, and is never refused.
    fn try_wait(&mut self) -> Result<bool, ListenerWaitError>
        ensures answer { result ≡ Ok (nat_lt 0 (count_of self.old)) }
        ensures after { count_of self.new ≡ count_of self.old - 1 };
}
