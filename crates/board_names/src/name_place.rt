//! A name in a registry, as a builder is told of it and as what was made keeps it.
ghost use Rattle.std.specs.Prelude.{◌≡◌, ℕ, List, Bool, IfOk, IsTrue};
ghost use Rattle.board_names.specs.Concept.{path_of, placed, starting};
ghost use Rattle.board_names.specs.Table.{let_go, IsFree};

use crate::configuration::{Configuration, NamedConceptConfiguration};
use crate::errors::concept::RegistryError;
use crate::file_name::FileName;
use crate::file_path::FilePath;
use crate::name_table::NameTable;
use crate::registry::Registry;
use std::marker::Model;
use std::sync::{MutexGuard, Wait};

/// What a builder was told of a name. Clauses see the name and its configuration.
#[derive(Drop)]
pub struct NameRequest<T> {
    name: FileName,
    config: Configuration,
    registry: Registry<T>,
}

impl<T> Model for NameRequest<T> {
    ghost use Rattle.board_names.specs.Concept.{Named};

    ghost Value = { Named };

    ghost view = { λ r. record { name = r.name; config = r.config } };
}

impl<T: NameTable + Drop> NameRequest<T> {
    /// A name with the configuration that things with this suffix start with.
    ///
    /// # Errors
    /// `OutOfMemory` where the registry could not be shared.
    pub fn new(
        name: &FileName,
        suffix: &FileName,
        registry: &Registry<T>,
    ) -> Result<NameRequest<T>, RegistryError>
        ensures { IfOk result (λ r. r ≡ starting name.now suffix.now) }
    {
        let registry = registry.share()?;
        Ok(NameRequest {
            name: *name,
            config: Configuration::with_suffix(suffix),
            registry,
        })
    }

    /// The same name with this configuration.
    pub fn with(mut self, config: &Configuration) -> NameRequest<T>
        ensures { result ≡ record self { config = config.now } }
    {
        self.config = *config;
        self
    }

    /// The full name.
    pub fn path(&self) -> FilePath
        ensures { result ≡ path_of self.now }
    {
        self.config.path_for(&self.name)
    }

    /// The names of the registry, once no one else has them.
    pub fn lock<R: Wait>(&self, rt: &R) -> MutexGuard<'_, T> {
        self.registry.lock(rt)
    }

    /// The name with its full name.
    pub fn place(self) -> NamePlace<T>
        ensures { result ≡ placed self }
    {
        let path = self.path();
        NamePlace {
            name: self.name,
            path,
            registry: self.registry,
        }
    }
}

/// A name in a registry. Clauses see the name and the full name.
#[derive(Drop)]
pub struct NamePlace<T> {
    name: FileName,
    path: FilePath,
    registry: Registry<T>,
}

impl<T> Model for NamePlace<T> {
    ghost use Rattle.board_names.specs.Concept.{Placed};

    ghost Value = { Placed };

    ghost view = { λ p. record { name = p.name; path = p.path } };
}

impl<T: NameTable + Drop> NamePlace<T> {
    /// The name.
    pub fn name(&self) -> &FileName
        ensures { result.now ≡ self.now.name }
    {
        &self.name
    }

    /// The full name.
    pub fn path(&self) -> &FilePath
        ensures { result.now ≡ self.now.path }
    {
        &self.path
    }

    /// The names of the registry, once no one else has them.
    pub fn lock<R: Wait>(&self, rt: &R) -> MutexGuard<'_, T> {
        self.registry.lock(rt)
    }

    /// Lets the name go where it is owned.
    pub fn let_go(&self, names: &mut T, owns: bool)
        ensures after { T.entries names.new ≡ let_go (T.entries names.old) owns self.now.path }
        ensures gone { IsTrue owns → IsFree (T.entries names.new) self.now.path }
    {
        if owns {
            let _ = names.remove(&self.path);
        }
    }
}
