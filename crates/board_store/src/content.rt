//! Bytes that many values share.
ghost use Rattle.std.specs.Prelude.{◌≡◌, ℕ, ◌+◌, ◌-◌, ◌<◌, ◌≤◌, ◌==◌, ◌↔◌, List, [], ◌∷◌, ◌++◌, length, drop, IfOk, IsErrOf, OnOk, OnErr};
ghost use Rattle.board_store.specs.Reading.{ReadsInto};

use board_names::StaticStorageReadError;
use std::alloc::{AllocError, Global};
use std::marker::Model;
use std::sync::Arc;

/// Bytes that many values share. Clauses see them as a list.
#[derive(Drop)]
pub struct Content {
    bytes: Arc<Vec<u8>, Global>,
}

impl Model for Content {
    ghost use Rattle.std.specs.Prelude.{ℕ, List};

    ghost Value = { List ℕ };

    ghost view = { λ c. c.bytes.value.items };
}

impl Content {
    /// A copy of these bytes.
    ///
    /// # Errors
    /// `AllocError` where memory is refused.
    pub fn of(alloc: Global, contents: &[u8]) -> Result<Content, AllocError>
        ensures { IfOk result (λ c. c ≡ contents.now) }
    {
        let bytes = Vec::from_slice(alloc, contents)?;
        let bytes = Arc::new(alloc, bytes)?;
        Ok(Content { bytes })
    }

    /// One more owner of the same bytes.
    ///
    /// # Errors
    /// `AllocError` where memory is refused.
    pub fn share(&self) -> Result<Content, AllocError>
        ensures { IfOk result (λ c. c ≡ self.now) }
    {
        let bytes = Arc::try_clone(&self.bytes)?;
        Ok(Content { bytes })
    }

    /// The bytes.
    pub fn as_bytes(&self) -> &[u8]
        ensures { result.now ≡ self.now }
    {
        self.bytes.as_slice()
    }

    /// How many bytes there are.
    pub fn len(&self) -> u64
        ensures { result ≡ length self.now }
    {
        self.as_bytes().len() as u64
    }

    /// Whether there is no byte.
    pub fn is_empty(&self) -> bool
        ensures { result ≡ (length self.now == 0) }
    {
        self.as_bytes().is_empty()
    }

    /// Fills the front of `buffer` with the bytes. The rest of it stays.
    ///
    /// # Errors
    /// `BufferTooSmall` where the buffer is shorter. It stays as it was.
    pub fn read(&self, buffer: &mut [u8]) -> Result<(), StaticStorageReadError>
        ensures { ReadsInto self.now buffer.old buffer.new result }
    {
        let bytes = self.as_bytes();
        if buffer.len() < bytes.len() {
            return Err(StaticStorageReadError::BufferTooSmall);
        }
        buffer[..bytes.len()].copy_from_slice(bytes);
        Ok(())
    }
}
