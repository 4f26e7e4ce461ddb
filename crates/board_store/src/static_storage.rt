//! What a static storage does: bytes are written once under a name, and then read by whoever opens it.
ghost use Rattle.std.specs.Prelude.{◌≡◌, ℕ, ◌==◌, ◌<◌, ◌++◌, ◌↔◌, List, Bool, true, false, length, drop, codes, IfOk, IsErrOf, OnOk, OnErr};
ghost use Rattle.board_store.specs.Reading.{ReadsInto};
ghost use Rattle.board_store.specs.TypedCalls.{MayCreate, MayOpen, MayUnlock};

use board_names::{
    FileName, NamedConcept, NamedConceptBuilder, NamedConceptMgmt, StaticStorageCreateError,
    StaticStorageOpenError, StaticStorageReadError, StaticStorageUnlockError,
};
use std::alloc::Global;
use std::sync::Wait;

/// The static storage of this process.
pub type Local = crate::storage::Storage;

/// A named value with bytes, which may own its name.
///
/// A builder and a locked storage say by it what they make, and a `StaticStorage` names the two.
pub trait StaticStorageContent: NamedConcept {
    ghost content_of: { Self → List ℕ };

    ghost is_owner: { Self → Bool };
}

/// A static storage that has its bytes.
pub trait StaticStorage: NamedConceptMgmt + StaticStorageContent + Sized {
    /// What makes it.
    type Builder: StaticStorageBuilder<Storage = Self, Registry = Self::Registry>;

    /// It, before it has its bytes.
    type Locked: StaticStorageLocked<Storage = Self>;

    /// How many bytes there are.
    fn len(&self) -> u64
        ensures { result ≡ length (Self.content_of self.now) };

    /// Whether there is no byte.
    fn is_empty(&self) -> bool
        ensures { result ≡ (length (Self.content_of self.now) == 0) };

    /// Fills the front of `buffer` with the bytes. The rest of it stays.
    ///
    /// # Errors
    /// `BufferTooSmall` where the buffer is shorter.
    fn read(&self, buffer: &mut [u8]) -> Result<(), StaticStorageReadError>
        ensures { ReadsInto (Self.content_of self.now) buffer.old buffer.new result };

    /// Leaves the name when the storage is released.
    fn release_ownership(&mut self)
        ensures name { Self.name_of self.new ≡ Self.name_of self.old }
        ensures content { Self.content_of self.new ≡ Self.content_of self.old }
        ensures owns { Self.is_owner self.new ≡ false };

    /// Lets the name go when the storage is released.
    fn acquire_ownership(&mut self)
        ensures name { Self.name_of self.new ≡ Self.name_of self.old }
        ensures content { Self.content_of self.new ≡ Self.content_of self.old }
        ensures owns { Self.is_owner self.new ≡ true };

    /// Gives the storage up, and its name where it owns it.
    ///
    /// The name is that of its builder's registry. What a lent form made or opened stands in the table that was lent, and
    /// is given up by `release_in` of that table: `release` would let the name go in the registry, whoever holds it there.
    fn release<R: Wait>(self, rt: &R);

    /// The suffix that a builder starts with.
    fn default_suffix() -> FileName
        ensures { result ≡ codes ".static_storage" };
}

/// A builder of a static storage, which owns its name unless told otherwise.
pub trait StaticStorageBuilder: NamedConceptBuilder {
    /// What it makes.
    type Storage: StaticStorageContent;

    /// What it makes that is still to be filled.
    type Locked: StaticStorageLocked<Storage = Self::Storage>;

    ghost owns_it: { Self → Bool };

    /// Whether what is made owns its name.
    fn has_ownership(self, value: bool) -> Self
        ensures owner { owns_it result ≡ value }
        ensures named { Self.named result ≡ Self.named self };

    /// A storage with these bytes.
    ///
    /// # Errors
    /// `AlreadyExists` where the name is held; `OutOfMemory`. The storages stay as they were.
    fn create<R: Wait>(
        self,
        rt: &R,
        alloc: Global,
        contents: &[u8],
    ) -> Result<Self::Storage, StaticStorageCreateError>
        ensures name { IfOk result (λ s. Self.Storage.name_of s ≡ (Self.named self).name) }
        ensures content { IfOk result (λ s. Self.Storage.content_of s ≡ contents.now) }
        ensures owner { IfOk result (λ s. Self.Storage.is_owner s ≡ owns_it self) }
        ensures refused { MayCreate result };

    /// A storage that is still to be filled.
    ///
    /// # Errors
    /// `AlreadyExists` where the name is held; `OutOfMemory`.
    fn create_locked<R: Wait>(
        self,
        rt: &R,
        alloc: Global,
    ) -> Result<Self::Locked, StaticStorageCreateError>
        ensures name { IfOk result (λ l. Self.Locked.name_of l ≡ (Self.named self).name) }
        ensures owner { IfOk result (λ l. Self.Locked.is_to_own l ≡ owns_it self) }
        ensures refused { MayCreate result };

    /// The storage that stands under the name. Looks `polls + 1` times at most, and gives the lock back in between.
    ///
    /// # Errors
    /// `DoesNotExist` where the name isn't held; `InitializationNotYetFinalized` where each look found it locked;
    /// `OutOfMemory`.
    fn open<R: Wait>(self, rt: &R, polls: u32) -> Result<Self::Storage, StaticStorageOpenError>
        ensures name { IfOk result (λ s. Self.Storage.name_of s ≡ (Self.named self).name) }
        ensures owner { IfOk result (λ s. Self.Storage.is_owner s ≡ owns_it self) }
        ensures refused { MayOpen result };

    /// Whether it owns the name is part of what a builder was told.
    ghost owns_as_told: { (x y : Self) → Self.told x ≡ Self.told y → owns_it x ≡ owns_it y };

    /// A builder that was told nothing owns it.
    ghost owns_untold: { (x : Self) → Self.told x ≡ Self.untold → owns_it x ≡ true };
}

/// A static storage that is still to be filled.
pub trait StaticStorageLocked: NamedConcept + Sized {
    /// What it becomes.
    type Storage: StaticStorageContent;

    ghost is_to_own: { Self → Bool };

    /// The storage with these bytes.
    ///
    /// # Errors
    /// `InternalError` where the name isn't held locked; `OutOfMemory`. The name stays as it is.
    fn unlock<R: Wait>(
        self,
        rt: &R,
        alloc: Global,
        contents: &[u8],
    ) -> Result<Self::Storage, StaticStorageUnlockError>
        ensures name { IfOk result (λ s. Self.Storage.name_of s ≡ Self.name_of self) }
        ensures content { IfOk result (λ s. Self.Storage.content_of s ≡ contents.now) }
        ensures owner { IfOk result (λ s. Self.Storage.is_owner s ≡ is_to_own self) }
        ensures refused { MayUnlock result };

    /// Gives the storage up, and its name where it owns it.
    ///
    /// The name is that of its builder's registry, also where a lent form made it in another table: see `release_in`.
    fn release<R: Wait>(self, rt: &R);
}
