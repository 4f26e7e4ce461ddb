//! What holds values under full names.
ghost use Rattle.std.specs.Prelude.{◌≡◌, ℕ, List, [], Option, Result, Bool, is_some, length};
ghost use Rattle.board_names.specs.Table.{at, without, name_at, NamesAscend, IsFree};
ghost use Rattle.board_names.specs.declared.errors.concept.NamedConceptDoesExistError.{NamedConceptDoesExistError};

use crate::errors::concept::NamedConceptDoesExistError;
use crate::file_path::FilePath;
use crate::table::Table;
use std::alloc::Global;

/// What stands under the names of one kind of things.
///
/// The names of every table ascend by their bytes, and so differ: `name_count` and `name_at` say it of any table that
/// they are asked of, also of one from behind a lock.
pub trait NameTable: Sized {
    /// What stands under a name.
    type Value;

    ghost entries: { Self → List (List ℕ × Self.Value) };

    ghost existence: { Option Self.Value → Result Bool NamedConceptDoesExistError };

    /// No names. Takes no memory.
    fn new(alloc: Global) -> Self
        ensures { entries result ≡ [] };

    /// The table.
    fn table(&self) -> &Table<Self::Value>
        ensures { result.now.entries ≡ entries self.now };

    /// Whether the name is held.
    ///
    /// # Errors
    /// `UnderlyingResourcesBeingSetUp` where the name is that of a locked static storage.
    fn does_exist(&self, name: &FilePath) -> Result<bool, NamedConceptDoesExistError>
        ensures { result ≡ existence (at (entries self.now) name.now) };

    /// Lets a name go, and tells whether it was held. Who shares what it stood for goes on without the name.
    fn remove(&mut self, name: &FilePath) -> bool
        ensures value { result ≡ is_some (at (entries self.old) name.now) }
        ensures after { entries self.new ≡ without (entries self.old) name.now }
        ensures gone { IsFree (entries self.new) name.now };

    /// How many names are held. Takes no memory.
    fn name_count(&self) -> usize
        ensures count { result ≡ length (entries self.now) }
        ensures ascend { NamesAscend (entries self.now) }
    {
        self.table().len()
    }

    /// The name at an index, counted from 0 in the order of the names.
    fn name_at(&self, index: usize) -> Option<FilePath>
        ensures value { result ≡ name_at (entries self.now) index }
        ensures ascend { NamesAscend (entries self.now) }
    {
        self.table().name_at(index)
    }
}
