//! Channels by full names.
ghost use Rattle.std.specs.Prelude.{◌≡◌, ℕ, ◌<◌, ◌≤◌, List, [], ◌∷◌, Some, None, Ok, Err, OnOk, OnErr, is_some, IfOk, IsOkUnless, max, Bool};
ghost use Rattle.board_layout.specs.Answer.{Answers, Refuses};
ghost use Rattle.board_names.specs.Table.{at, putting};
ghost use Rattle.board_channel.specs.Channels.{size_in, size_of, create_answer, open_answer};

use crate::locked_queue::LockedQueue;
use crate::queue::Queue;
use board_names::{
    CommunicationChannelCreateError, CommunicationChannelOpenError, FilePath, NameTable,
    NamedConceptDoesExistError, Registry, Table,
};
use std::alloc::{AllocError, Global};
use std::marker::Model;

/// A queue that many values share. Clauses see how many numbers it holds, at least one, and whether it overflows; its numbers
/// stand behind its own lock.
#[derive(Drop)]
pub struct SharedQueue {
    pub(crate) queue: LockedQueue,
    capacity: usize,
}

impl Model for SharedQueue {
    ghost use Rattle.std.specs.Prelude.{◌<◌};
    ghost use Rattle.board_channel.specs.Channels.{Size};
    ghost use Rattle.board_channel.specs.LockedQueue.{overflows};

    ghost Value = { Size };

    ghost view = { λ q. record { capacity = q.capacity; overflow = overflows q.queue } };

    ghost invariant = { λ q. 0 < q.capacity };
}

impl SharedQueue {
    /// An empty queue. A capacity of 0 counts as 1.
    ///
    /// # Errors
    /// `OutOfMemory`.
    pub fn new(
        alloc: Global,
        capacity: usize,
        overflow: bool,
    ) -> Result<SharedQueue, CommunicationChannelCreateError>
        ensures value { IfOk result (λ shared. shared ≡ size_of capacity overflow) }
        ensures memory { IsOkUnless result CommunicationChannelCreateError.OutOfMemory }
    {
        SharedQueue::of(alloc, Queue::new(alloc, capacity, overflow)?)
    }

    /// The queue behind a lock of its own. What it tells is what this queue is.
    fn of(alloc: Global, queue: Queue) -> Result<SharedQueue, CommunicationChannelCreateError>
        ensures value { IfOk result (λ shared. shared ≡ size_in queue) }
        ensures memory { IsOkUnless result CommunicationChannelCreateError.OutOfMemory }
    {
        let capacity = queue.capacity();
        match LockedQueue::new(alloc, queue) {
            Ok(queue) => Ok(SharedQueue { queue, capacity }),
            Err(_) => Err(CommunicationChannelCreateError::OutOfMemory),
        }
    }

    /// One more owner of the same queue.
    ///
    /// # Errors
    /// `AllocError` where memory is refused.
    pub fn share(&self) -> Result<SharedQueue, AllocError>
        ensures { IfOk result (λ shared. shared ≡ self.now) }
    {
        Ok(SharedQueue {
            queue: self.queue.share()?,
            capacity: self.capacity,
        })
    }

    /// How many numbers it holds.
    pub fn capacity(&self) -> usize
        ensures value { result ≡ self.now.capacity }
        ensures some { 0 < self.now.capacity }
    {
        self.capacity
    }

    /// Whether it gives its oldest number back in place of a refusal.
    pub fn overflows(&self) -> bool
        ensures { result ≡ self.now.overflow }
    {
        self.queue.overflows()
    }
}

/// Channels by full names. Clauses see the pairs of name and size, in the order of the names.
///
/// The names ascend and differ, as in each `NameTable`: `name_count` says it.
#[derive(Drop)]
pub struct Channels {
    names: Table<SharedQueue>,
    alloc: Global,
}

impl Model for Channels {
    ghost use Rattle.std.specs.Prelude.{ℕ, List};
    ghost use Rattle.board_channel.specs.Channels.{Size};

    ghost Value = { List (List ℕ × Size) };

    ghost view = { λ c. c.names.entries };
}

impl Channels {
    /// Makes a channel under a name, and shares its queue.
    ///
    /// # Errors
    /// `AlreadyExists` where the name is held; `OutOfMemory`. The channels stay as they were.
    pub fn create(
        &mut self,
        name: &FilePath,
        capacity: usize,
        overflow: bool,
    ) -> Result<SharedQueue, CommunicationChannelCreateError>
        ensures value { IfOk result (λ shared. shared ≡ size_of capacity overflow) }
        ensures answer { let size = size_of capacity overflow in let held = at self.old name.now in
            Answers result CommunicationChannelCreateError.OutOfMemory (create_answer size held) }
        ensures refused { let size = size_of capacity overflow in
            Refuses result (create_answer size (at self.old name.now)) }
        ensures ok { let size = size_of capacity overflow in
            OnOk result (self.new ≡ putting self.old name.now size) }
        ensures err { OnErr result (self.new ≡ self.old) }
    {
        if self.names.contains_key(name) {
            return Err(CommunicationChannelCreateError::AlreadyExists);
        }
        let queue = SharedQueue::new(self.alloc, capacity, overflow)?;
        let Ok(shared) = queue.share() else {
            return Err(CommunicationChannelCreateError::OutOfMemory);
        };
        match self.names.insert(name, queue) {
            Ok(_) => Ok(shared),
            Err(_) => Err(CommunicationChannelCreateError::OutOfMemory),
        }
    }

    /// Shares the queue of the channel under a name.
    ///
    /// # Errors
    /// `DoesNotExist` where the name isn't held; `OutOfMemory`.
    pub fn open(&self, name: &FilePath) -> Result<SharedQueue, CommunicationChannelOpenError>
        ensures answer { let held = at self.now name.now in
            Answers result CommunicationChannelOpenError.OutOfMemory (open_answer held) }
        ensures refused { Refuses result (open_answer (at self.now name.now)) }
    {
        match self.names.get(name) {
            None => Err(CommunicationChannelOpenError::DoesNotExist),
            Some(queue) => match queue.share() {
                Ok(shared) => Ok(shared),
                Err(_) => Err(CommunicationChannelOpenError::OutOfMemory),
            },
        }
    }
}

impl NameTable for Channels {
    type Value = SharedQueue;

    ghost entries = { λ c. c };

    ghost existence = { λ one. Ok (is_some one) };

    fn new(alloc: Global) -> Channels {
        Channels {
            names: Table::new(alloc),
            alloc,
        }
    }

    fn table(&self) -> &Table<SharedQueue> {
        &self.names
    }

    fn does_exist(&self, name: &FilePath) -> Result<bool, NamedConceptDoesExistError> {
        Ok(self.names.contains_key(name))
    }

    fn remove(&mut self, name: &FilePath) -> bool {
        self.names.remove(name).is_some()
    }
}

/// Channels that many values share, behind a lock.
pub type ChannelRegistry = Registry<Channels>;
