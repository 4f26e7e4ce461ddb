//! Static storage: bytes that are written once under a name, in memory or over files.
pub use board_files::{
    FileLocked, FileStorage, Files, FilesError, LifeError, MemoryFiles, StoreError, store_and_read,
    store_whole,
};
pub use board_names::{
    Configuration, FileName, FilePath, NamedConceptConfiguration, Path, RegistryError,
};
pub use board_store::static_storage::Local;
pub use board_store::{
    Builder, Content, Locked, NameTable, NamedConcept, NamedConceptBuilder, NamedConceptMgmt,
    StaticRegistry, StaticStorage, StaticStorageBuilder, StaticStorageContent, StaticStorageLocked,
    Statics, Storage, Stored,
};
