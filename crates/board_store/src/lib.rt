//! Static storage: bytes that are written once under a name.
//!
//! `Statics` is the table of storages, each locked or with its bytes, seen as pairs of name and storage (`specs/Statics`);
//! `specs/Storage` says what a builder and what it makes are seen as, and what their calls answer.
//!
//! A typed call takes its registry's lock and calls its lent form, whose name ends in `_in` and whose contract says the
//! answers.
#![tactic(auto)]

mod builder;
mod content;
mod locked;
pub mod static_storage;
mod statics;
mod storage;

pub use board_names::{
    Configuration, FileName, FilePath, NameTable, NamedConcept, NamedConceptBuilder,
    NamedConceptConfiguration, NamedConceptMgmt, Path, RegistryError, StaticStorageCreateError,
    StaticStorageOpenError, StaticStorageReadError, StaticStorageUnlockError, Table, list_names,
};
pub use builder::Builder;
pub use content::Content;
pub use locked::Locked;
pub use static_storage::{
    StaticStorage, StaticStorageBuilder, StaticStorageContent, StaticStorageLocked,
};
pub use statics::{StaticRegistry, Statics, Stored};
pub use storage::Storage;
