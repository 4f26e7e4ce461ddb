//! A queue behind its lock.
ghost use Rattle.std.specs.Prelude.{◌≡◌, ℕ, List, Bool, true, false, IfOk, IsOk};
ghost use Rattle.board_channel.specs.LockedQueue.{overflows};
ghost use Rattle.board_channel.specs.TypedCalls.{MaySend};

use crate::duplex::Duplex;
use crate::kept_queues::{OverflowingQueue, RefusingQueue};
use crate::queue::Queue;
use board_names::{CommunicationChannelReceiveError, CommunicationChannelSendError};
use std::alloc::{AllocError, Global};
use std::sync::{Arc, Mutex, Wait};

/// A queue that many values share, behind a lock of its own.
#[derive(Drop)]
pub enum LockedQueue {
    /// It gives its oldest number back in place of a refusal.
    Overflowing(Arc<Mutex<OverflowingQueue>, Global>),
    /// It refuses.
    Refusing(Arc<Mutex<RefusingQueue>, Global>),
}

impl LockedQueue {
    pub(crate) fn new(alloc: Global, queue: Queue) -> Result<LockedQueue, AllocError>
        ensures { IfOk result (λ locked. overflows locked ≡ queue.overflow) }
    {
        if queue.overflows() {
            let queue = OverflowingQueue { queue };
            Ok(LockedQueue::Overflowing(Arc::new(alloc, Mutex::new(queue))?))
        } else {
            let queue = RefusingQueue { queue };
            Ok(LockedQueue::Refusing(Arc::new(alloc, Mutex::new(queue))?))
        }
    }

    /// One more owner of the same queue.
    pub(crate) fn share(&self) -> Result<LockedQueue, AllocError>
        ensures { IfOk result (λ shared. overflows shared ≡ overflows self.now) }
    {
        match self {
            LockedQueue::Overflowing(queue) => Ok(LockedQueue::Overflowing(Arc::try_clone(queue)?)),
            LockedQueue::Refusing(queue) => Ok(LockedQueue::Refusing(Arc::try_clone(queue)?)),
        }
    }

    pub(crate) fn overflows(&self) -> bool
        ensures { result ≡ overflows self.now }
    {
        matches!(self, LockedQueue::Overflowing(_))
    }

    /// `send_in` of this end behind the lock.
    pub(crate) fn send<R: Wait>(
        &self,
        rt: &R,
        end: &Duplex,
        value: &u64,
    ) -> Result<Option<u64>, CommunicationChannelSendError>
        ensures { MaySend (overflows self.now) result }
    {
        match self {
            LockedQueue::Overflowing(queue) => end.send_in(&mut queue.lock(rt).queue, value),
            LockedQueue::Refusing(queue) => end.send_in(&mut queue.lock(rt).queue, value),
        }
    }

    /// `receive_in` of this end behind the lock.
    pub(crate) fn receive<R: Wait>(
        &self,
        rt: &R,
        end: &Duplex,
    ) -> Result<Option<u64>, CommunicationChannelReceiveError>
        ensures { IsOk result }
    {
        match self {
            LockedQueue::Overflowing(queue) => end.receive_in(&mut queue.lock(rt).queue),
            LockedQueue::Refusing(queue) => end.receive_in(&mut queue.lock(rt).queue),
        }
    }
}
