//! Tables of values by full names.
ghost use Rattle.std.specs.Prelude.{◌≡◌, ℕ, ◌+◌, ◌<◌, ◌≤◌, List, [], ◌∷◌, ◌++◌, Option, None, is_some, length, slice_get, option_copied, option_map, IfOk, OnOk, OnErr, IsOkUnless};
ghost use Rattle.std.specs.Map.{keys_of};
ghost use Rattle.std.specs.BTreeMap.{IsOrdered, keys};
ghost use Rattle.std.specs.Ordering.{nat_cmp};
ghost use Rattle.std.specs.Cmp.Lexicographic.{slice_cmp};
ghost use Rattle.board_names.specs.Extraction.{Lists, FullNamesAscend};
ghost use Rattle.board_names.specs.Table.{at, putting, without, name_at, NamesAscend, IsFree};

use crate::configuration::Configuration;
use crate::errors::concept::NamedConceptListError;
use crate::file_name::FileName;
use crate::file_path::FilePath;
use board_layout::Text;
use std::alloc::{AllocError, Global};
use std::collections::BTreeMap;
use std::marker::Model;
use std::mem::replace;

/// Values by full names, in the order of the names. A name is kept on the heap, by as many bytes as it has.
///
/// Clauses see the pairs of name and value as its `entries`.
#[derive(Drop)]
pub struct Table<V> {
    values: BTreeMap<Vec<u8>, V>,
    alloc: Global,
}

impl<V> Model for Table<V> {
    ghost use Rattle.board_names.specs.Table.{Held};
    ghost use Rattle.board_names.specs.Keys.{AreFullNames, held};

    ghost Value = { Held V };

    ghost view = { λ t. held t.values };

    ghost invariant = { λ t. AreFullNames t.values };
}

/// The key at an index.
fn key_at<V>(values: &BTreeMap<Vec<u8>, V>, index: usize) -> Option<&Vec<u8>>
    ensures value { option_map (λ k. k.now) result ≡ slice_get (keys values.now) index }
    ensures ordered { IsOrdered (λ k other. slice_cmp nat_cmp k.items other.items) values.now }
{
    values.keys().nth(index)
}

impl<V> Table<V> {
    /// No names. Takes no memory.
    pub fn new(alloc: Global) -> Table<V>
        ensures { result.entries ≡ [] }
    {
        Table {
            values: BTreeMap::new(alloc),
            alloc,
        }
    }

    /// How many names are held. Takes no memory.
    pub fn len(&self) -> usize
        ensures count { result ≡ length self.now.entries }
        ensures ascend { NamesAscend self.now.entries }
    {
        self.values.len()
    }

    /// What stands under a name.
    pub fn get(&self, name: &FilePath) -> Option<&V>
        ensures { option_copied result ≡ at self.now.entries name.now }
    {
        self.values.get(name.as_bytes())
    }

    /// Whether a name is held.
    pub fn contains_key(&self, name: &FilePath) -> bool
        ensures { result ≡ is_some (at self.now.entries name.now) }
    {
        self.values.contains_key(name.as_bytes())
    }

    /// The name at an index, counted from 0 in the order of the names. Takes no memory.
    pub fn name_at(&self, index: usize) -> Option<FilePath>
        ensures value { result ≡ name_at self.now.entries index }
        ensures ascend { NamesAscend self.now.entries }
    {
        match key_at(&self.values, index) {
            Some(name) => Some(FilePath::from_text(Text::of(name.as_slice()))),
            None => None,
        }
    }
}

impl<V: Drop> Table<V> {
    /// Puts a value under a name, and hands back what stood there. It takes memory only for a name that isn't held.
    ///
    /// # Errors
    /// `AllocError` where memory is refused. Then nothing stood there, and the table stays as it was.
    pub fn insert(&mut self, name: &FilePath, value: V) -> Result<Option<V>, AllocError>
        ensures old { IfOk result (λ old. old ≡ at self.old.entries name.now) }
        ensures entries { OnOk result (self.new.entries ≡ putting self.old.entries name.now value) }
        ensures absent { OnErr result (at self.old.entries name.now ≡ None) }
        ensures err { OnErr result (self.new ≡ self.old) }
    {
        if let Some(place) = self.values.get_mut(name.as_bytes()) {
            return Ok(Some(replace(place, value)));
        }
        let key = Vec::from_slice(self.alloc, name.as_bytes())?;
        match self.values.insert(key, value) {
            Ok(old) => Ok(old),
            Err(_) => Err(AllocError),
        }
    }

    /// Takes a name out with its value. Takes no memory.
    pub fn remove(&mut self, name: &FilePath) -> Option<V>
        ensures value { result ≡ at self.old.entries name.now }
        ensures after { self.new.entries ≡ without self.old.entries name.now }
        ensures gone { IsFree self.new.entries name.now }
    {
        self.values.remove(name.as_bytes())
    }
}

/// The names that this configuration reads from a table's full names, each once, in the order of full names.
///
/// # Errors
/// `OutOfMemory`.
pub fn list_names<V>(
    alloc: Global,
    table: &Table<V>,
    cfg: &Configuration,
) -> Result<Vec<FileName>, NamedConceptListError>
    ensures names { IfOk result (λ names. Lists cfg.now (keys_of table.now.entries) names.items) }
    ensures ascend { IfOk result (λ names. FullNamesAscend cfg.now names.items) }
    ensures memory { IsOkUnless result NamedConceptListError.OutOfMemory }
{
    let mut names = Vec::new(alloc);
    for path in table.values.keys() {
        if let Some(name) = cfg.name_in_path(path.as_slice()) {
            if names.push(name).is_err() {
                return Err(NamedConceptListError::OutOfMemory);
            }
        }
    }
    Ok(names)
}
