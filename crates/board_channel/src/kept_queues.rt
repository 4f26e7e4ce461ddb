//! Queues behind a lock, of which it stays known whether they overflow.
ghost use Rattle.std.specs.Prelude.{◌≡◌, true, false};

use crate::queue::Queue;

/// A queue whose oldest number makes room where it is full.
#[derive(Drop)]
pub struct OverflowingQueue {
    pub(crate) queue: Queue,
    ghost overflows: { queue.overflow ≡ true },
}

/// A queue that refuses a number where it is full.
#[derive(Drop)]
pub struct RefusingQueue {
    pub(crate) queue: Queue,
    ghost refuses: { queue.overflow ≡ false },
}
