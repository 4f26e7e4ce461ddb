//! Events that many values share.
ghost use Rattle.std.specs.Sync.Mutex.{mutex_guard_value};
ghost use Rattle.board_event_core.specs.EventTable.{IsEventTable};

use crate::events_of::{EventsOf, KindOfEvents, QueueOfIds, SetOfIds};
use board_event_core::table_stands;
use board_names::{Registry, RegistryError};
use std::alloc::Global;
use std::sync::{Arc, Condvar, MutexGuard, Wait};

/// Events of one kind that many values share, behind a lock. Who waits for an id sleeps on `arrived`.
#[derive(Drop)]
pub struct EventRegistry<K> {
    pub(crate) names: Registry<EventsOf<K>>,
    pub(crate) arrived: Arc<Condvar, Global>,
}

impl<K: KindOfEvents + Drop> EventRegistry<K> {
    /// No events.
    ///
    /// # Errors
    /// `OutOfMemory`.
    pub fn new(alloc: Global) -> Result<EventRegistry<K>, RegistryError> {
        let names = Registry::new(alloc)?;
        match Arc::new(alloc, Condvar::new()) {
            Ok(arrived) => Ok(EventRegistry { names, arrived }),
            Err(_) => Err(RegistryError::OutOfMemory),
        }
    }

    /// One more owner of the same events.
    ///
    /// # Errors
    /// `OutOfMemory`.
    pub fn share(&self) -> Result<EventRegistry<K>, RegistryError> {
        let names = self.names.share()?;
        let arrived = share_signal(&self.arrived)?;
        Ok(EventRegistry { names, arrived })
    }

    /// The events themselves, once no one else has them.
    pub fn lock<R: Wait>(&self, rt: &R) -> MutexGuard<'_, EventsOf<K>>
        ensures table { IsEventTable (mutex_guard_value result) }
    {
        let state = self.names.lock(rt);
        table_stands(state.events());
        state
    }
}

/// One more owner of what sleepers wait on.
pub(crate) fn share_signal(
    arrived: &Arc<Condvar, Global>,
) -> Result<Arc<Condvar, Global>, RegistryError> {
    match Arc::try_clone(arrived) {
        Ok(arrived) => Ok(arrived),
        Err(_) => Err(RegistryError::OutOfMemory),
    }
}

/// Sets of ids that many values share.
pub type BitRegistry = EventRegistry<SetOfIds>;

/// Queues of ids that many values share.
pub type QueueRegistry = EventRegistry<QueueOfIds>;
