//! A file in memory.
ghost use Rattle.std.specs.Prelude.{◌≡◌, ℕ, List, ◌++◌, IfOk};
ghost use Rattle.board_files.specs.Files.{new_file, lengthened, finished};

use board_store::Content;
use std::alloc::{AllocError, Global};
use std::marker::Model;

/// A file in memory. Clauses see whether it is final, and its bytes.
#[derive(Drop)]
pub(crate) struct StoredFile {
    is_final: bool,
    content: Content,
}

impl Model for StoredFile {
    ghost use Rattle.board_files.specs.Files.{File};

    ghost Value = { File };

    ghost view = { λ f. record { is_final = f.is_final; bytes = f.content } };
}

impl StoredFile {
    /// An empty file that isn't final.
    pub fn new(alloc: Global) -> Result<StoredFile, AllocError>
        ensures { IfOk result (λ file. file ≡ new_file) }
    {
        Ok(StoredFile {
            is_final: false,
            content: Content::of(alloc, &[])?,
        })
    }

    /// Whether nobody may write it any more.
    pub fn is_final(&self) -> bool
        ensures { result ≡ self.now.is_final }
    {
        self.is_final
    }

    /// Its bytes.
    pub fn as_bytes(&self) -> &[u8]
        ensures { result.now ≡ self.now.bytes }
    {
        self.content.as_bytes()
    }

    /// The file with more bytes at its end.
    pub fn lengthened(&self, alloc: Global, more: &[u8]) -> Result<StoredFile, AllocError>
        ensures { IfOk result (λ file. file ≡ lengthened more.now self.now) }
    {
        let mut bytes = Vec::from_slice(alloc, self.content.as_bytes())?;
        bytes.extend_from_slice(more)?;
        Ok(StoredFile {
            is_final: self.is_final,
            content: Content::of(alloc, &bytes)?,
        })
    }

    /// The file, which nobody may write any more.
    pub fn finished(&self) -> Result<StoredFile, AllocError>
        ensures { IfOk result (λ file. file ≡ finished self.now) }
    {
        Ok(StoredFile {
            is_final: true,
            content: self.content.share()?,
        })
    }
}
