//! Static storages by full names.
ghost use Rattle.std.specs.Prelude.{◌≡◌, ◌≢◌, ℕ, ◌+◌, ◌-◌, ◌<◌, ◌≤◌, ◌==◌, ◌↔◌, List, [], ◌∷◌, ◌++◌, length, Some, None, true, is_some, IfOk, IsErrOf, OnOk, OnErr, IsTrue, IsSome, IfSome, option_map};
ghost use Rattle.board_layout.specs.Answer.{Answers, Refuses};
ghost use Rattle.board_names.specs.Table.{at, putting, without, name_at};
ghost use Rattle.board_store.specs.Statics.{bytes_of, locked_of, with_bytes, create_answer, whole_answer, open_answer, unlock_answer};
ghost use Rattle.board_store.specs.Storage.{exists_answer};

use crate::content::Content;
use board_names::{
    FilePath, NameTable, NamedConceptDoesExistError, Registry, StaticStorageCreateError,
    StaticStorageOpenError, StaticStorageUnlockError, Table,
};
use std::alloc::{AllocError, Global};
use std::marker::Model;

/// What stands under a name: a storage that is still to be filled, or one with its bytes.
#[derive(Drop)]
pub enum Stored {
    /// The name is held, and the bytes are still to come.
    Locked,
    /// The bytes, which stay.
    Final(Content),
}

/// Static storages by full names. Clauses see the pairs of name and storage, in the order of the names.
///
/// The names ascend and differ, as in each `NameTable`: `name_count` says it.
#[derive(Drop)]
pub struct Statics {
    names: Table<Stored>,
    alloc: Global,
}

impl Model for Statics {
    ghost use Rattle.std.specs.Prelude.{ℕ, List};
    ghost use Rattle.board_store.specs.declared.statics.Stored.{Stored};

    ghost Value = { List (List ℕ × Stored) };

    ghost view = { λ s. s.names.entries };
}

impl Statics {
    /// Takes a name for a storage that is still to be filled.
    ///
    /// # Errors
    /// `AlreadyExists` where the name is held; `OutOfMemory`. The storages stay as they were.
    pub fn create_locked(&mut self, name: &FilePath) -> Result<(), StaticStorageCreateError>
        ensures answer { let held = at self.old name.now in
            Answers result StaticStorageCreateError.OutOfMemory (create_answer held) }
        ensures refused { Refuses result (create_answer (at self.old name.now)) }
        ensures ok { OnOk result (self.new ≡ putting self.old name.now Stored.Locked) }
        ensures err { OnErr result (self.new ≡ self.old) }
    {
        if self.names.contains_key(name) {
            return Err(StaticStorageCreateError::AlreadyExists);
        }
        match self.names.insert(name, Stored::Locked) {
            Ok(_) => Ok(()),
            Err(_) => Err(StaticStorageCreateError::OutOfMemory),
        }
    }

    /// Takes a name for a storage with these bytes, and hands them back, shared.
    ///
    /// # Errors
    /// `AlreadyExists` where the name is held; `OutOfMemory`. The storages stay as they were.
    pub fn create(
        &mut self,
        name: &FilePath,
        contents: &[u8],
    ) -> Result<Content, StaticStorageCreateError>
        ensures value { IfOk result (λ content. content ≡ contents.now) }
        ensures answer { let whole = whole_answer contents.now (at self.old name.now) in
            Answers result StaticStorageCreateError.OutOfMemory whole }
        ensures refused { Refuses result (whole_answer contents.now (at self.old name.now)) }
        ensures ok { OnOk result (self.new ≡ with_bytes self.old name.now contents.now) }
        ensures err { OnErr result (self.new ≡ self.old) }
    {
        if self.names.contains_key(name) {
            return Err(StaticStorageCreateError::AlreadyExists);
        }
        let Ok(content) = Content::of(self.alloc, contents) else {
            return Err(StaticStorageCreateError::OutOfMemory);
        };
        let Ok(shared) = content.share() else {
            return Err(StaticStorageCreateError::OutOfMemory);
        };
        match self.names.insert(name, Stored::Final(content)) {
            Ok(_) => Ok(shared),
            Err(_) => Err(StaticStorageCreateError::OutOfMemory),
        }
    }

    /// Gives the storage of a locked name its bytes, and hands them back, shared.
    ///
    /// # Errors
    /// `InternalError` where the name isn't held locked; `OutOfMemory`. The storages stay as they were.
    pub fn unlock(
        &mut self,
        name: &FilePath,
        contents: &[u8],
    ) -> Result<Content, StaticStorageUnlockError>
        ensures value { IfOk result (λ content. content ≡ contents.now) }
        ensures answer { let locked = locked_of self.old name.now in
            Answers result StaticStorageUnlockError.OutOfMemory (unlock_answer contents.now locked) }
        ensures refused { let locked = locked_of self.old name.now in
            Refuses result (unlock_answer contents.now locked) }
        ensures ok { OnOk result (self.new ≡ with_bytes self.old name.now contents.now) }
        ensures err { OnErr result (self.new ≡ self.old) }
    {
        if self.is_locked(name) != Some(true) {
            return Err(StaticStorageUnlockError::InternalError);
        }
        match self.fill(name, contents) {
            Ok(content) => Ok(content),
            Err(_) => Err(StaticStorageUnlockError::OutOfMemory),
        }
    }

    /// Gives the storage of a name that is known to be locked its bytes, and hands them back, shared.
    pub(crate) fn fill(&mut self, name: &FilePath, contents: &[u8]) -> Result<Content, AllocError>
        requires { locked_of self.old name.now ≡ Some true }
        ensures value { IfOk result (λ content. content ≡ contents.now) }
        ensures ok { OnOk result (self.new ≡ with_bytes self.old name.now contents.now) }
        ensures err { OnErr result (self.new ≡ self.old) }
    {
        let content = Content::of(self.alloc, contents)?;
        let shared = content.share()?;
        // The name is held, so the table doesn't grow.
        let Ok(_) = self.names.insert(name, Stored::Final(content)) else {
            unreachable!()
        };
        Ok(shared)
    }

    /// The content of a name that isn't locked, shared.
    ///
    /// # Errors
    /// `DoesNotExist` where the name isn't held; `InitializationNotYetFinalized` where it is locked; `OutOfMemory`.
    pub fn try_open(&self, name: &FilePath) -> Result<Content, StaticStorageOpenError>
        ensures answer { let held = at self.now name.now in
            Answers result StaticStorageOpenError.OutOfMemory (open_answer held) }
        ensures refused { Refuses result (open_answer (at self.now name.now)) }
    {
        match self.names.get(name) {
            None => Err(StaticStorageOpenError::DoesNotExist),
            Some(Stored::Locked) => Err(StaticStorageOpenError::InitializationNotYetFinalized),
            Some(Stored::Final(content)) => match content.share() {
                Ok(shared) => Ok(shared),
                Err(_) => Err(StaticStorageOpenError::OutOfMemory),
            },
        }
    }

    /// The bytes of a name that isn't locked.
    pub fn bytes_of(&self, name: &FilePath) -> Option<&[u8]>
        ensures { option_map (λ b. b.now) result ≡ bytes_of self.now name.now }
    {
        match self.names.get(name) {
            Some(Stored::Final(content)) => Some(content.as_bytes()),
            _ => None,
        }
    }

    /// Whether a name is locked, where it is held.
    pub fn is_locked(&self, name: &FilePath) -> Option<bool>
        ensures { result ≡ locked_of self.now name.now }
    {
        match self.names.get(name) {
            None => None,
            Some(Stored::Locked) => Some(true),
            Some(Stored::Final(_)) => Some(false),
        }
    }
}

impl NameTable for Statics {
    type Value = Stored;

    ghost entries = { λ s. s };

    ghost existence = { exists_answer };

    fn new(alloc: Global) -> Statics {
        Statics {
            names: Table::new(alloc),
            alloc,
        }
    }

    fn table(&self) -> &Table<Stored> {
        &self.names
    }

    fn does_exist(&self, name: &FilePath) -> Result<bool, NamedConceptDoesExistError> {
        match self.is_locked(name) {
            None => Ok(false),
            Some(false) => Ok(true),
            Some(true) => Err(NamedConceptDoesExistError::UnderlyingResourcesBeingSetUp),
        }
    }

    fn remove(&mut self, name: &FilePath) -> bool {
        self.names.remove(name).is_some()
    }
}

/// Static storages that many values share, behind a lock.
pub type StaticRegistry = Registry<Statics>;
