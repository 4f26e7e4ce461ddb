//! Domains: what many nodes share.
ghost use Rattle.std.specs.Prelude.{IsOkUnless};
ghost use Rattle.std.specs.Sync.Mutex.{mutex_guard_value};
ghost use Rattle.board_names.specs.declared.errors.service.DomainError.TheVariants.{OutOfMemory};
ghost use Rattle.board_service.specs.Facts.{IsDomain};

use crate::state::DomainState;
use board_names::DomainError;
use std::alloc::{AllocError, Global};
use std::sync::{Arc, Mutex, MutexGuard, Wait};

/// A domain: the boards that its nodes share, behind a lock.
#[derive(Drop)]
pub struct Domain {
    state: Arc<Mutex<DomainState>>,
}

impl Domain {
    /// A domain with no nodes and no boards.
    ///
    /// # Errors
    /// `OutOfMemory`.
    pub fn new(alloc: Global) -> Result<Domain, DomainError>
        ensures memory { IsOkUnless result OutOfMemory }
    {
        match Arc::new(alloc, Mutex::new(DomainState::new(alloc))) {
            Ok(state) => Ok(Domain { state }),
            Err(_) => Err(DomainError::OutOfMemory),
        }
    }

    /// One more owner of the same domain.
    ///
    /// # Errors
    /// `AllocError` where one more owner is refused.
    pub fn share(&self) -> Result<Domain, AllocError> {
        let state = Arc::try_clone(&self.state)?;
        Ok(Domain { state })
    }

    /// What stands behind the lock, once no one else has it.
    pub fn lock<R: Wait>(&self, rt: &R) -> MutexGuard<'_, DomainState>
        ensures facts { IsDomain (mutex_guard_value result).tables }
    {
        let state = self.state.lock(rt);
        state.tables.facts();
        state
    }
}
