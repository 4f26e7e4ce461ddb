//! A change of files in memory.
ghost use Rattle.std.specs.Prelude.{◌≡◌, ℕ, List, IfOk, OnOk, OnErr};
ghost use Rattle.board_names.specs.Table.{putting};
ghost use Rattle.board_files.specs.Changes.{applied, FreesName};

use crate::stored_file::StoredFile;
use board_names::{FilePath, Table};
use board_store::Content;
use std::alloc::{AllocError, Global};

/// A change of files in memory.
#[derive(Drop)]
pub(crate) enum Change {
    /// An empty file was made under this name.
    Made(FilePath),
    /// These bytes were added to a file.
    Wrote(FilePath, Content),
    /// A file was made final.
    Finished(FilePath),
    /// A file was removed.
    Removed(FilePath),
}

impl Change {
    /// The same change once more.
    pub fn share(&self) -> Result<Change, AllocError>
        ensures { IfOk result (λ change. change ≡ self.now) }
    {
        match self {
            Change::Made(name) => Ok(Change::Made(*name)),
            Change::Wrote(name, bytes) => Ok(Change::Wrote(*name, bytes.share()?)),
            Change::Finished(name) => Ok(Change::Finished(*name)),
            Change::Removed(name) => Ok(Change::Removed(*name)),
        }
    }

    /// Makes the change. Where memory is refused, all stays.
    pub fn apply(&self, alloc: Global, files: &mut Table<StoredFile>) -> Result<(), AllocError>
        ensures ok { OnOk result (files.new.entries ≡ applied self.now files.old.entries) }
        ensures err { OnErr result (files.new.entries ≡ files.old.entries) }
        ensures frees { OnOk result (FreesName self.now files.new.entries) }
    {
        match self {
            Change::Made(name) => put(files, name, StoredFile::new(alloc)?),
            Change::Wrote(name, bytes) => {
                let Some(file) = files.get(name) else {
                    return Ok(());
                };
                let longer = file.lengthened(alloc, bytes.as_bytes())?;
                put(files, name, longer)
            }
            Change::Finished(name) => {
                let Some(file) = files.get(name) else {
                    return Ok(());
                };
                let last = file.finished()?;
                put(files, name, last)
            }
            Change::Removed(name) => {
                files.remove(name);
                Ok(())
            }
        }
    }
}

/// Puts a file under a name.
fn put(files: &mut Table<StoredFile>, name: &FilePath, file: StoredFile) -> Result<(), AllocError>
    ensures ok { OnOk result (files.new.entries ≡ putting files.old.entries name.now file) }
    ensures err { OnErr result (files.new.entries ≡ files.old.entries) }
{
    files.insert(name, file)?;
    Ok(())
}
