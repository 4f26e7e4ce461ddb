//! Static storage over files.
//!
//! `Files` says what is asked of files: they are made, written at their end, made final, and removed. `MemoryFiles` has
//! them in memory, and fails where it is told to. `specs/Files` says what each call answers and leaves, where something
//! is known of the files, and what its moments are: the files after each change so far.
//!
//! `FileLocked` and `FileStorage` are the static storage over any `Files` (`specs/Storage`). A storage is made by one
//! write and then made final, so whoever stops between two calls leaves a name that isn't there, a file that isn't
//! final, or the whole contents (`store_whole`, and `store_and_read` for a whole life).
#![tactic(auto)]

mod changes;
mod file_locked;
mod file_storage;
mod files;
mod held_files;
mod laws;
mod memory_files;
mod stored_file;

pub use board_names::{
    Configuration, FileName, FilePath, NamedConceptConfiguration, NamedConceptListError,
    NamedConceptRemoveError, Path, StaticStorageCreateError, StaticStorageOpenError,
    StaticStorageReadError, StaticStorageUnlockError,
};
pub use file_locked::FileLocked;
pub use file_storage::FileStorage;
pub use files::{Files, FilesError};
pub use laws::{LifeError, StoreError, store_and_read, store_whole};
pub use memory_files::MemoryFiles;
