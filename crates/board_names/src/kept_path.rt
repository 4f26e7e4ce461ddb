//! The full name of a file on the heap.
ghost use Rattle.std.specs.Prelude.{◌≡◌, ℕ, ◌+◌, ◌≤◌, List, length, IfOk};

use crate::file_path::FilePath;
use board_layout::Text;
use std::alloc::{AllocError, Global};
use std::marker::Model;

/// A full name on the heap, by as many bytes as it has. Clauses see it as the list of its bytes.
#[derive(Drop)]
pub struct KeptPath {
    bytes: Vec<u8>,
}

impl Model for KeptPath {
    ghost use Rattle.std.specs.Prelude.{ℕ, ◌≤◌, List, length};

    ghost Value = { List ℕ };

    ghost view = { λ k. k.bytes.items };

    ghost invariant = { λ k. length k.bytes.items ≤ 1021 };
}

impl KeptPath {
    /// This full name.
    ///
    /// # Errors
    /// `AllocError` where memory is refused.
    pub fn of(alloc: Global, path: &FilePath) -> Result<KeptPath, AllocError>
        ensures { IfOk result (λ kept. kept ≡ path.now) }
    {
        Ok(KeptPath {
            bytes: Vec::from_slice(alloc, path.as_bytes())?,
        })
    }

    /// Its bytes.
    pub fn as_bytes(&self) -> &[u8]
        ensures { result.now ≡ self.now }
    {
        self.bytes.as_slice()
    }

    /// The full name itself.
    pub fn path(&self) -> FilePath
        ensures { result ≡ self.now }
    {
        FilePath::from_text(Text::of(self.bytes.as_slice()))
    }
}
