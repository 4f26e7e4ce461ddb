//! A static storage that has its bytes.
ghost use Rattle.std.specs.Prelude.{◌≡◌, ℕ, ◌==◌, ◌<◌, ◌++◌, ◌↔◌, List, Bool, true, false, length, drop, codes, IsTrue, OnOk, OnErr, IsErrOf};
ghost use Rattle.board_names.specs.Table.{let_go, IsFree};

use crate::builder::Builder;
use crate::content::Content;
use crate::locked::Locked;
use crate::static_storage::{StaticStorage, StaticStorageContent};
use crate::statics::{StaticRegistry, Statics};
use board_names::{FileName, NamePlace, NamedConcept, NamedConceptMgmt, StaticStorageReadError};
use std::marker::Model;
use std::sync::{MutexGuard, Wait};

/// A static storage that has its bytes, and keeps them when its name is gone.
///
/// Clauses see its name, its full name, whether it owns the name, and the bytes.
#[derive(Drop)]
pub struct Storage {
    place: NamePlace<Statics>,
    owns: bool,
    content: Content,
}

impl Model for Storage {
    ghost use Rattle.board_store.specs.Storage.{StorageView};

    ghost Value = { StorageView };

    ghost view = { λ s. record { place = s.place; owns = s.owns; bytes = s.content } };
}

impl Storage {
    pub(crate) fn at(place: NamePlace<Statics>, owns: bool, content: Content) -> Storage
        ensures { result ≡ record { place = place; owns = owns; bytes = content } }
    {
        Storage {
            place,
            owns,
            content,
        }
    }

    /// `release` over the storages themselves: those in which it was made or opened.
    pub fn release_in(self, state: &mut Statics)
        ensures after { state.new ≡ let_go state.old self.owns self.place.path }
        ensures gone { IsTrue self.owns → IsFree state.new self.place.path }
    {
        self.place.let_go(state, self.owns);
    }
}

impl NamedConcept for Storage {
    ghost name_of = { λ s. s.place.name };

    fn name(&self) -> &FileName {
        self.place.name()
    }
}

impl NamedConceptMgmt for Storage {
    type Names = Statics;

    type Registry = StaticRegistry;

    fn lock<'a, R: Wait>(rt: &R, registry: &'a StaticRegistry) -> MutexGuard<'a, Statics> {
        registry.lock(rt)
    }
}

impl StaticStorageContent for Storage {
    ghost content_of = { λ s. s.bytes };

    ghost is_owner = { λ s. s.owns };
}

impl StaticStorage for Storage {
    type Builder = Builder;

    type Locked = Locked;

    fn len(&self) -> u64 {
        self.content.len()
    }

    fn is_empty(&self) -> bool {
        self.content.is_empty()
    }

    fn read(&self, buffer: &mut [u8]) -> Result<(), StaticStorageReadError> {
        self.content.read(buffer)
    }

    fn release_ownership(&mut self)
        ensures { self.new ≡ record self.old { owns = false } }
    {
        self.owns = false;
    }

    fn acquire_ownership(&mut self)
        ensures { self.new ≡ record self.old { owns = true } }
    {
        self.owns = true;
    }

    fn release<R: Wait>(self, rt: &R) {
        let mut state = self.place.lock(rt);
        self.place.let_go(&mut state, self.owns);
    }

    fn default_suffix() -> FileName {
        FileName::from_valid(b".static_storage")
    }
}
