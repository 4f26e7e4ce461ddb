//! Numbers in order, up to a capacity.
ghost use Rattle.std.specs.Prelude.{◌≡◌, ℕ, ◌+◌, ◌<◌, ◌≤◌, List, [], ◌∷◌, ◌++◌, Some, None, Ok, Err, length, IfOk, IsErrOf, IsOkUnless, max, slice_get, Bool, false};
ghost use Rattle.board_channel.specs.Queue.{QueueView, sent, send_answer, received, empty_queue};

use board_names::{CommunicationChannelCreateError, CommunicationChannelSendError};
use std::alloc::Global;
use std::collections::VecDeque;
use std::marker::Model;

/// Numbers in order, at most `capacity` of them. Clauses see the numbers, the capacity and whether it overflows.
///
/// It has all its memory from the start. No queue has more numbers than its capacity, and none has a capacity of 0:
/// `capacity` says it of any queue that it is asked of, also of one from behind a lock.
#[derive(Drop)]
pub struct Queue {
    items: VecDeque<u64>,
    capacity: usize,
    overflow: bool,
}

impl Model for Queue {
    ghost use Rattle.std.specs.Prelude.{◌≤◌, ◌<◌};
    ghost use Rattle.std.specs.VecDeque.{deque_capacity, deque_len};
    ghost use Rattle.board_channel.specs.Queue.{QueueView};

    ghost Value = { QueueView };

    ghost view = { λ q. record { items = q.items.items; capacity = q.capacity; overflow = q.overflow } };

    ghost invariant = { λ q. (0 < q.capacity)
        × (q.capacity ≤ deque_capacity q.items)
        × (deque_len q.items ≤ q.capacity) };
}

impl Queue {
    /// An empty queue. A capacity of 0 counts as 1.
    ///
    /// # Errors
    /// `OutOfMemory`.
    pub fn new(
        alloc: Global,
        capacity: usize,
        overflow: bool,
    ) -> Result<Queue, CommunicationChannelCreateError>
        ensures value { IfOk result (λ queue. queue ≡ empty_queue capacity overflow) }
        ensures memory { IsOkUnless result CommunicationChannelCreateError.OutOfMemory }
    {
        let capacity = capacity.max(1);
        match VecDeque::with_capacity(alloc, capacity) {
            Ok(items) => Ok(Queue {
                items,
                capacity,
                overflow,
            }),
            Err(_) => Err(CommunicationChannelCreateError::OutOfMemory),
        }
    }

    /// Adds a number at the end. Where there is no room and the queue overflows, the oldest number makes room, and comes
    /// back. Takes no memory.
    ///
    /// # Errors
    /// `ReceiverCacheIsFull` where there is no room and the queue doesn't overflow. It stays as it was.
    pub fn try_send(&mut self, value: u64) -> Result<Option<u64>, CommunicationChannelSendError>
        ensures answer { result ≡ send_answer self.old }
        ensures after { self.new ≡ sent self.old value }
        ensures fits { length self.new.items ≤ self.new.capacity }
    {
        if self.items.len() < self.capacity {
            let _ = self.items.push_back(value);
            return Ok(None);
        }
        if !self.overflow {
            return Err(CommunicationChannelSendError::ReceiverCacheIsFull);
        }
        let oldest = self.items.pop_front();
        let _ = self.items.push_back(value);
        Ok(oldest)
    }

    /// Takes the oldest number. Takes no memory.
    pub fn receive(&mut self) -> Option<u64>
        ensures value { result ≡ slice_get self.old.items 0 }
        ensures after { self.new ≡ received self.old }
        ensures fits { length self.new.items ≤ self.new.capacity }
    {
        self.items.pop_front()
    }

    /// How many numbers it holds.
    pub fn capacity(&self) -> usize
        ensures value { result ≡ self.now.capacity }
        ensures some { 0 < self.now.capacity }
        ensures fits { length self.now.items ≤ self.now.capacity }
    {
        self.capacity
    }

    /// Whether it gives its oldest number back in place of a refusal.
    pub fn overflows(&self) -> bool
        ensures { result ≡ self.now.overflow }
    {
        self.overflow
    }
}
