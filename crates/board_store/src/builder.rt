//! How a static storage is made or opened.
ghost use Rattle.std.specs.Prelude.{◌≡◌, ℕ, ◌∷◌, ◌++◌, List, Bool, Some, None, true, IfOk, OnOk, OnErr};
ghost use Rattle.board_layout.specs.Answer.{Answers, Refuses};
ghost use Rattle.board_names.specs.declared.errors.static_storage.StaticStorageCreateError.TheVariants.{AlreadyExists, OutOfMemory};
ghost use Rattle.board_names.specs.declared.errors.static_storage.StaticStorageOpenError.TheVariants.{OutOfMemory as NoMemory};
ghost use Rattle.board_store.specs.Storage.{storage_of, started_builder, storing, look_answer, create_of, bytes_made, locked_of_builder, lock_of, open_of};
ghost use Rattle.board_store.specs.TypedCalls.{MayCreate, MayOpen};
ghost use Rattle.board_store.specs.declared.statics.Stored.TheVariants.{Locked as Stood, Final};

use crate::content::Content;
use crate::locked::Locked;
use crate::static_storage::{StaticStorage, StaticStorageBuilder};
use crate::statics::{StaticRegistry, Statics};
use crate::storage::Storage;
use board_names::{
    Configuration, FileName, NamePlace, NameRequest, NamedConceptBuilder, RegistryError,
    StaticStorageCreateError, StaticStorageOpenError,
};
use std::alloc::Global;
use std::marker::Model;
use std::sync::Wait;

/// A builder of a static storage. Clauses see its name, its configuration and whether what it makes owns the name.
#[derive(Drop)]
pub struct Builder {
    request: NameRequest<Statics>,
    owns: bool,
}

impl Model for Builder {
    ghost use Rattle.board_store.specs.Storage.{BuilderView};

    ghost Value = { BuilderView };

    ghost view = { λ b. record { named = b.request; owns = b.owns } };
}

impl Builder {
    /// `create` over the storages themselves.
    ///
    /// # Errors
    /// `AlreadyExists` where the name is held; `OutOfMemory`. The storages stay as they were.
    pub fn create_in(
        self,
        state: &mut Statics,
        alloc: Global,
        contents: &[u8],
    ) -> Result<Storage, StaticStorageCreateError>
        ensures answer { Answers result OutOfMemory (create_of self contents.now state.old) }
        ensures refused { Refuses result (create_of self contents.now state.old) }
        ensures ok { OnOk result (state.new ≡ storing state.old self (Final contents.now)) }
        ensures err { OnErr result (state.new ≡ state.old) }
    {
        let content = self.create_content(state, contents)?;
        Ok(self.into_storage(content))
    }

    /// `create_locked` over the storages themselves.
    ///
    /// # Errors
    /// `AlreadyExists` where the name is held; `OutOfMemory`. The storages stay as they were.
    pub fn create_locked_in(
        self,
        state: &mut Statics,
        alloc: Global,
    ) -> Result<Locked, StaticStorageCreateError>
        ensures answer { Answers result OutOfMemory (lock_of self state.old) }
        ensures refused { Refuses result (lock_of self state.old) }
        ensures ok { OnOk result (state.new ≡ storing state.old self Stood) }
        ensures err { OnErr result (state.new ≡ state.old) }
    {
        let place = self.request.place();
        state.create_locked(place.path())?;
        Ok(Locked::at(place, self.owns))
    }

    /// One look of `open`, over the storages themselves.
    ///
    /// # Errors
    /// `DoesNotExist` where the name isn't held; `InitializationNotYetFinalized` where it is locked; `OutOfMemory`.
    pub fn open_in(self, state: &mut Statics) -> Result<Storage, StaticStorageOpenError>
        ensures answer { Answers result NoMemory (open_of self state.old) }
        ensures refused { Refuses result (open_of self state.old) }
        ensures stays { state.new ≡ state.old }
    {
        let content = self.look_in(state)?;
        Ok(self.into_storage(content))
    }

    fn create_locking<R: Wait>(
        &self,
        rt: &R,
        contents: &[u8],
    ) -> Result<Content, StaticStorageCreateError>
        ensures value { IfOk result (λ content. content ≡ contents.now) }
        ensures refused { MayCreate result }
    {
        let mut state = self.request.lock(rt);
        self.create_content(&mut state, contents)
    }

    fn create_content(
        &self,
        state: &mut Statics,
        contents: &[u8],
    ) -> Result<Content, StaticStorageCreateError>
        ensures value { IfOk result (λ content. content ≡ contents.now) }
        ensures answer { Answers result OutOfMemory (bytes_made self.now contents.now state.old) }
        ensures refused { Refuses result (bytes_made self.now contents.now state.old) }
        ensures ok { OnOk result (state.new ≡ storing state.old self.now (Final contents.now)) }
        ensures err { OnErr result (state.new ≡ state.old) }
    {
        state.create(&self.request.path(), contents)
    }

    fn look_in(&self, state: &mut Statics) -> Result<Content, StaticStorageOpenError>
        ensures answer { Answers result NoMemory (look_answer self.now state.old) }
        ensures refused { Refuses result (look_answer self.now state.old) }
        ensures stays { state.new ≡ state.old }
    {
        state.try_open(&self.request.path())
    }

    fn look<R: Wait>(&self, rt: &R) -> Result<Content, StaticStorageOpenError>
        ensures { MayOpen result }
    {
        let mut state = self.request.lock(rt);
        self.look_in(&mut state)
    }

    /// Looks once more than `polls`, or until the name isn't locked.
    fn poll<R: Wait>(&self, rt: &R, polls: u32) -> Result<Content, StaticStorageOpenError>
        ensures { MayOpen result }
    {
        for _ in 0..polls {
            match self.look(rt) {
                Err(StaticStorageOpenError::InitializationNotYetFinalized) => {}
                answer => return answer,
            }
        }
        self.look(rt)
    }

    fn into_storage(self, content: Content) -> Storage
        ensures { result ≡ storage_of self content }
    {
        Storage::at(self.request.place(), self.owns, content)
    }
}

fn take<R: Wait>(rt: &R, place: &NamePlace<Statics>) -> Result<(), StaticStorageCreateError>
    ensures { MayCreate result }
{
    let mut state = place.lock(rt);
    state.create_locked(place.path())
}

impl NamedConceptBuilder for Builder {
    type Registry = StaticRegistry;

    ghost named = { λ b. b.named };

    ghost Told = { Bool };

    ghost told = { λ b. b.owns };

    ghost untold = { true };

    fn new(name: &FileName, registry: &StaticRegistry) -> Result<Builder, RegistryError>
        ensures { IfOk result (λ b. b ≡ started_builder name.now) }
    {
        let request = NameRequest::new(name, &Storage::default_suffix(), registry)?;
        Ok(Builder {
            request,
            owns: true,
        })
    }

    fn config(mut self, config: &Configuration) -> Builder
        ensures { result ≡ record self { named = record self.named { config = config.now } } }
    {
        self.request = self.request.with(config);
        self
    }
}

impl StaticStorageBuilder for Builder {
    type Storage = Storage;

    type Locked = Locked;

    ghost owns_it = { λ b. b.owns };

    ghost owns_as_told = { λ x y h. h };

    ghost owns_untold = { λ x h. h };

    fn has_ownership(mut self, value: bool) -> Builder
        ensures { result ≡ record self { owns = value } }
    {
        self.owns = value;
        self
    }

    fn create<R: Wait>(
        self,
        rt: &R,
        alloc: Global,
        contents: &[u8],
    ) -> Result<Storage, StaticStorageCreateError>
        ensures storage { IfOk result (λ storage. storage ≡ storage_of self contents.now) }
        ensures refused { MayCreate result }
    {
        let content = self.create_locking(rt, contents)?;
        Ok(self.into_storage(content))
    }

    fn create_locked<R: Wait>(
        self,
        rt: &R,
        alloc: Global,
    ) -> Result<Locked, StaticStorageCreateError>
        ensures locked { IfOk result (λ locked. locked ≡ locked_of_builder self) }
        ensures refused { MayCreate result }
    {
        let place = self.request.place();
        take(rt, &place)?;
        Ok(Locked::at(place, self.owns))
    }

    fn open<R: Wait>(self, rt: &R, polls: u32) -> Result<Storage, StaticStorageOpenError>
        ensures storage { IfOk result (λ storage. storage ≡ storage_of self storage.bytes) }
        ensures refused { MayOpen result }
    {
        let content = self.poll(rt, polls)?;
        Ok(self.into_storage(content))
    }
}
