//! Names that many values share.
use crate::errors::concept::RegistryError;
use crate::name_table::NameTable;
use std::alloc::Global;
use std::sync::{Arc, Mutex, MutexGuard, Wait};

/// Names that many values share, behind a lock.
#[derive(Drop)]
pub struct Registry<T> {
    state: Arc<Mutex<T>, Global>,
}

impl<T: NameTable + Drop> Registry<T> {
    /// No names.
    ///
    /// # Errors
    /// `OutOfMemory`.
    pub fn new(alloc: Global) -> Result<Registry<T>, RegistryError> {
        match Arc::new(alloc, Mutex::new(T::new(alloc))) {
            Ok(state) => Ok(Registry { state }),
            Err(_) => Err(RegistryError::OutOfMemory),
        }
    }

    /// One more owner of the same names.
    ///
    /// # Errors
    /// `OutOfMemory`.
    pub fn share(&self) -> Result<Registry<T>, RegistryError> {
        match Arc::try_clone(&self.state) {
            Ok(state) => Ok(Registry { state }),
            Err(_) => Err(RegistryError::OutOfMemory),
        }
    }

    /// The names themselves, once no one else has them.
    pub fn lock<R: Wait>(&self, rt: &R) -> MutexGuard<'_, T> {
        self.state.lock(rt)
    }
}
