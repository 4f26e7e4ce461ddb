//! What all named things share: a name, a builder, and the calls on all things of one kind.
ghost use Rattle.std.specs.Prelude.{◌≡◌, ℕ, List, Option, Ok, is_some, IfOk, IsOk, IsOkUnless, codes};
ghost use Rattle.std.specs.Map.{keys_of};
ghost use Rattle.board_names.specs.Concept.{Named, under};
ghost use Rattle.board_names.specs.Configuration.{full_name};
ghost use Rattle.board_names.specs.Extraction.{Lists, FullNamesAscend};
ghost use Rattle.board_names.specs.Table.{without, IsFree};

use crate::configuration::{Configuration, NamedConceptConfiguration};
use crate::errors::concept::{
    NamedConceptDoesExistError, NamedConceptListError, NamedConceptPathHintRemoveError,
    NamedConceptRemoveError, RegistryError,
};
use crate::file_name::FileName;
use crate::name_table::NameTable;
use crate::path::Path;
use crate::table::list_names;
use std::alloc::Global;
use std::sync::{MutexGuard, Wait};

/// A value with the name that was given to its builder.
pub trait NamedConcept {
    ghost name_of: { Self → List ℕ };

    /// The name.
    fn name(&self) -> &FileName
        ensures { result.now ≡ name_of self.now };
}

/// A builder of named values, which lie in a registry.
///
/// Clauses see what it was told: `named` is the name and the configuration, and `told` all else. It starts with `untold`.
pub trait NamedConceptBuilder: Sized {
    /// What shares the names.
    type Registry;

    ghost named: { Self → Named };

    ghost Told: { Type 0 } = { Unit {0} };

    ghost told: { Self → Self.Told };

    ghost untold: { Self.Told };

    /// A builder for this name.
    ///
    /// # Errors
    /// `OutOfMemory` where the registry could not be shared.
    fn new(name: &FileName, registry: &Self::Registry) -> Result<Self, RegistryError>
        ensures name { IfOk result (λ b. (named b).name ≡ name.now) }
        ensures told { IfOk result (λ b. told b ≡ untold) };

    /// The builder with this configuration. All else that it was told stays.
    fn config(self, config: &Configuration) -> Self
        ensures named { named result ≡ record (named self) { config = config.now } }
        ensures told { told result ≡ told self };
}

/// The calls on all values of one kind in a registry.
///
/// A typed call takes the registry's lock and calls its lent form, whose name ends in `_in`. The lent form has the same
/// answers over the names themselves, and its contract says them.
pub trait NamedConceptMgmt {
    /// What stands under the names.
    type Names: NameTable + Drop;

    /// What shares them.
    type Registry;

    /// The names of a registry, once no one else has them.
    fn lock<'a, R: Wait>(rt: &R, registry: &'a Self::Registry) -> MutexGuard<'a, Self::Names>;

    /// `does_exist_cfg` over the names themselves.
    ///
    /// # Errors
    /// `UnderlyingResourcesBeingSetUp` where the name is that of a locked static storage.
    fn does_exist_cfg_in(
        state: &mut Self::Names,
        name: &FileName,
        cfg: &Configuration,
    ) -> Result<bool, NamedConceptDoesExistError>
        ensures answer { let held = Self.Names.entries state.old in
            result ≡ Self.Names.existence (under held cfg.now name.now) }
        ensures stays { state.new ≡ state.old }
    {
        state.does_exist(&cfg.path_for(name))
    }

    /// `list_cfg` over the names themselves. Each name is there once.
    ///
    /// # Errors
    /// `OutOfMemory`.
    fn list_cfg_in(
        state: &mut Self::Names,
        alloc: Global,
        cfg: &Configuration,
    ) -> Result<Vec<FileName>, NamedConceptListError>
        ensures names { let held = keys_of (Self.Names.entries state.old) in
            IfOk result (λ names. Lists cfg.now held names.items) }
        ensures ascend { IfOk result (λ names. FullNamesAscend cfg.now names.items) }
        ensures memory { IsOkUnless result NamedConceptListError.OutOfMemory }
        ensures stays { state.new ≡ state.old }
    {
        list_names(alloc, state.table(), cfg)
    }

    /// `remove_cfg` over the names themselves.
    ///
    /// # Errors
    /// None: it is never refused.
    fn remove_cfg_in(
        state: &mut Self::Names,
        name: &FileName,
        cfg: &Configuration,
    ) -> Result<bool, NamedConceptRemoveError>
        ensures answer { let held = Self.Names.entries state.old in
            result ≡ Ok (is_some (under held cfg.now name.now)) }
        ensures after { let held = Self.Names.entries state.old in
            Self.Names.entries state.new ≡ without held (full_name cfg.now name.now) }
        ensures gone { IsFree (Self.Names.entries state.new) (full_name cfg.now name.now) }
    {
        Ok(state.remove(&cfg.path_for(name)))
    }

    /// Whether the name is held.
    ///
    /// # Errors
    /// `UnderlyingResourcesBeingSetUp` where the name is that of a locked static storage.
    fn does_exist_cfg<R: Wait>(
        rt: &R,
        registry: &Self::Registry,
        name: &FileName,
        cfg: &Configuration,
    ) -> Result<bool, NamedConceptDoesExistError>
        ensures { (one : Option Self.Names.Value) × (result ≡ Self.Names.existence one) }
    {
        let mut state = Self::lock(rt, registry);
        Self::does_exist_cfg_in(&mut state, name, cfg)
    }

    /// The names that are held under this configuration, each once, in the order of full names.
    ///
    /// # Errors
    /// `OutOfMemory`.
    fn list_cfg<R: Wait>(
        rt: &R,
        alloc: Global,
        registry: &Self::Registry,
        cfg: &Configuration,
    ) -> Result<Vec<FileName>, NamedConceptListError>
        ensures ascend { IfOk result (λ names. FullNamesAscend cfg.now names.items) }
        ensures memory { IsOkUnless result NamedConceptListError.OutOfMemory }
    {
        let mut state = Self::lock(rt, registry);
        Self::list_cfg_in(&mut state, alloc, cfg)
    }

    /// Lets the name go, and tells whether it was held.
    ///
    /// A value that shares what the name stood for goes on without the name.
    ///
    /// # Errors
    /// None: it is never refused.
    fn remove_cfg<R: Wait>(
        rt: &R,
        registry: &Self::Registry,
        name: &FileName,
        cfg: &Configuration,
    ) -> Result<bool, NamedConceptRemoveError>
        ensures { IsOk result }
    {
        let mut state = Self::lock(rt, registry);
        Self::remove_cfg_in(&mut state, name, cfg)
    }

    /// A path hint has nothing to remove.
    ///
    /// # Errors
    /// None: it is never refused.
    fn remove_path_hint(value: &Path) -> Result<(), NamedConceptPathHintRemoveError>
        ensures { result ≡ Ok tt }
    {
        let _ = value;
        Ok(())
    }

    /// The prefix that a configuration starts with.
    fn default_prefix() -> FileName
        ensures { result ≡ codes "iox2_" }
    {
        FileName::from_valid(b"iox2_")
    }

    /// The path hint that a configuration starts with, this project's own.
    fn default_path_hint() -> Path
        ensures { result ≡ codes "/tmp/iceoryx2" }
    {
        Path::from_valid(b"/tmp/iceoryx2")
    }
}
