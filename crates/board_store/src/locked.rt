//! A static storage that is still to be filled.
ghost use Rattle.std.specs.Prelude.{◌≡◌, ℕ, List, Bool, IfOk, IsTrue, OnOk, OnErr, IsErrOf};
ghost use Rattle.board_layout.specs.Answer.{Answers, Refuses};
ghost use Rattle.board_names.specs.Table.{let_go, putting, IsFree};
ghost use Rattle.board_names.specs.declared.errors.static_storage.StaticStorageUnlockError.TheVariants.{OutOfMemory};
ghost use Rattle.board_store.specs.Storage.{filled, unlock_of};
ghost use Rattle.board_store.specs.TypedCalls.{MayUnlock};
ghost use Rattle.board_store.specs.declared.statics.Stored.TheVariants.{Final};

use crate::content::Content;
use crate::static_storage::StaticStorageLocked;
use crate::statics::Statics;
use crate::storage::Storage;
use board_names::{FileName, NamePlace, NamedConcept, StaticStorageUnlockError};
use std::alloc::Global;
use std::marker::Model;
use std::sync::Wait;

/// A static storage that is still to be filled. Clauses see its name, its full name and whether it owns the name.
#[derive(Drop)]
pub struct Locked {
    place: NamePlace<Statics>,
    owns: bool,
}

impl Model for Locked {
    ghost use Rattle.board_store.specs.Storage.{LockedView};

    ghost Value = { LockedView };

    ghost view = { λ l. record { place = l.place; owns = l.owns } };
}

impl Locked {
    pub(crate) fn at(place: NamePlace<Statics>, owns: bool) -> Locked
        ensures { result ≡ record { place = place; owns = owns } }
    {
        Locked { place, owns }
    }

    /// `unlock` over the storages themselves.
    ///
    /// # Errors
    /// `InternalError` where the name isn't held locked; `OutOfMemory`. The storages stay as they were.
    pub fn unlock_in(
        self,
        state: &mut Statics,
        alloc: Global,
        contents: &[u8],
    ) -> Result<Storage, StaticStorageUnlockError>
        ensures answer { Answers result OutOfMemory (unlock_of self contents.now state.old) }
        ensures refused { Refuses result (unlock_of self contents.now state.old) }
        ensures ok { let path = self.place.path in
            OnOk result (state.new ≡ putting state.old path (Final contents.now)) }
        ensures err { OnErr result (state.new ≡ state.old) }
    {
        let content = state.unlock(self.place.path(), contents)?;
        Ok(self.into_storage(content))
    }

    fn fill<R: Wait>(&self, rt: &R, contents: &[u8]) -> Result<Content, StaticStorageUnlockError>
        ensures value { IfOk result (λ content. content ≡ contents.now) }
        ensures refused { MayUnlock result }
    {
        let mut state = self.place.lock(rt);
        state.unlock(self.place.path(), contents)
    }

    fn into_storage(self, content: Content) -> Storage
        ensures { result ≡ filled self content }
    {
        Storage::at(self.place, self.owns, content)
    }

    /// `release` over the storages themselves: those in which it was made.
    pub fn release_in(self, state: &mut Statics)
        ensures after { state.new ≡ let_go state.old self.owns self.place.path }
        ensures gone { IsTrue self.owns → IsFree state.new self.place.path }
    {
        self.place.let_go(state, self.owns);
    }
}

impl NamedConcept for Locked {
    ghost name_of = { λ l. l.place.name };

    fn name(&self) -> &FileName {
        self.place.name()
    }
}

impl StaticStorageLocked for Locked {
    type Storage = Storage;

    ghost is_to_own = { λ l. l.owns };

    fn unlock<R: Wait>(
        self,
        rt: &R,
        alloc: Global,
        contents: &[u8],
    ) -> Result<Storage, StaticStorageUnlockError>
        ensures storage { IfOk result (λ storage. storage ≡ filled self contents.now) }
        ensures refused { MayUnlock result }
    {
        let content = self.fill(rt, contents)?;
        Ok(self.into_storage(content))
    }

    fn release<R: Wait>(self, rt: &R) {
        let mut state = self.place.lock(rt);
        self.place.let_go(&mut state, self.owns);
    }
}
