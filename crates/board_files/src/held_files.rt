//! The files in memory with their changes.
ghost use Rattle.std.specs.Prelude.{◌≡◌, ◌<◌, ◌≤◌, ℕ, ◌^◌, List, [], length, Option, IfOk, OnOk, OnErr, is_some, option_map, IsSome};
ghost use Rattle.board_names.specs.Table.{at, name_at, NamesAscend, IsFree};
ghost use Rattle.board_files.specs.Files.{is_free, created, written, finalized, removed, moved, AreListed};
ghost use Rattle.board_files.specs.Changes.{applied, FreesName, told_after, stopped_at};

use crate::changes::Change;
use crate::stored_file::StoredFile;
use board_names::{FilePath, Table};
use board_store::Content;
use std::alloc::{AllocError, Global};
use std::marker::Model;

/// Files in memory, with the list of their changes. Clauses see the files, and what was held after each change.
#[derive(Drop)]
pub(crate) struct HeldFiles {
    files: Table<StoredFile>,
    changes: Vec<Change>,
    alloc: Global,
}

impl Model for HeldFiles {
    ghost use Rattle.std.specs.Prelude.{◌≡◌, []};
    ghost use Rattle.board_files.specs.Files.{Told};
    ghost use Rattle.board_files.specs.Changes.{told_after, replayed};

    ghost Value = { Told };

    ghost view = { λ h. told_after h.changes.items };

    ghost invariant = { λ h. h.files.entries ≡ replayed [] h.changes.items };
}

impl HeldFiles {
    /// No files, and no changes. Takes no memory.
    pub fn new(alloc: Global) -> HeldFiles
        ensures { result ≡ told_after [] }
    {
        HeldFiles {
            files: Table::new(alloc),
            changes: Vec::new(alloc),
            alloc,
        }
    }

    /// Makes a change, which is a moment.
    fn make(&mut self, change: Change) -> Result<(), AllocError>
        ensures ok { OnOk result (self.new ≡ moved self.old (applied change self.old.files)) }
        ensures err { OnErr result (self.new ≡ self.old) }
        ensures frees { OnOk result (FreesName change self.new.files) }
    {
        self.changes.reserve(1)?;
        change.apply(self.alloc, &mut self.files)?;
        self.changes.push_reserved(change);
        Ok(())
    }

    /// Whether a name is held.
    pub fn holds(&self, name: &FilePath) -> bool
        ensures { result ≡ is_some (at self.now.files name.now) }
    {
        self.files.contains_key(name)
    }

    /// The file under a name.
    pub fn get(&self, name: &FilePath) -> Option<&StoredFile>
        ensures { option_map (λ f. f.now) result ≡ at self.now.files name.now }
    {
        self.files.get(name)
    }

    /// Makes an empty file, and tells whether it did: `false` where the name is held.
    pub fn create(&mut self, name: &FilePath) -> Result<bool, AllocError>
        ensures answer { IfOk result (λ made. made ≡ is_free self.old.files name.now) }
        ensures ok { OnOk result (self.new ≡ created name.now self.old) }
        ensures err { OnErr result (self.new ≡ self.old) }
    {
        if self.holds(name) {
            return Ok(false);
        }
        self.make(Change::Made(*name))?;
        Ok(true)
    }

    /// Adds bytes to a file that is held.
    pub fn append(&mut self, name: &FilePath, bytes: &[u8]) -> Result<(), AllocError>
        requires { IsSome (at self.old.files name.now) }
        ensures ok { OnOk result (self.new ≡ written name.now bytes.now self.old) }
        ensures err { OnErr result (self.new ≡ self.old) }
    {
        if bytes.is_empty() {
            return Ok(());
        }
        let content = Content::of(self.alloc, bytes)?;
        self.make(Change::Wrote(*name, content))
    }

    /// Makes a file final, where it is held.
    pub fn finish(&mut self, name: &FilePath) -> Result<(), AllocError>
        ensures ok { OnOk result (self.new ≡ finalized name.now self.old) }
        ensures err { OnErr result (self.new ≡ self.old) }
    {
        match self.get(name) {
            None => return Ok(()),
            Some(file) => {
                if file.is_final() {
                    return Ok(());
                }
            }
        }
        self.make(Change::Finished(*name))
    }

    /// Removes a file, and tells whether the name was held.
    pub fn remove(&mut self, name: &FilePath) -> Result<bool, AllocError>
        ensures answer { IfOk result (λ had. had ≡ is_some (at self.old.files name.now)) }
        ensures ok { OnOk result (self.new ≡ removed name.now self.old) }
        ensures err { OnErr result (self.new ≡ self.old) }
        ensures gone { OnOk result (IsFree self.new.files name.now) }
    {
        if !self.holds(name) {
            return Ok(false);
        }
        self.make(Change::Removed(*name))?;
        Ok(true)
    }

    /// The name at an index.
    pub fn name_at(&self, index: usize) -> Option<FilePath>
        ensures value { result ≡ name_at self.now.files index }
        ensures listed { AreListed self.now.files }
    {
        self.are_few();
        self.files.name_at(index)
    }

    /// There are no more files than changes, so an index counts them.
    fn are_few(&self)
        ensures { length self.now.files < 2 ^ 63 }
    {
        let _changes = self.changes.as_slice();
    }

    /// The files as they stood after so many changes.
    pub fn stopped(&self, alloc: Global, count: usize) -> Result<HeldFiles, AllocError>
        ensures front { IfOk result (λ files. files ≡ stopped_at count self.now) }
        ensures all { length self.now.moments ≤ count → IfOk result (λ files. files ≡ self.now) }
    {
        let mut stopped = HeldFiles::new(alloc);
        let front = &self.changes[..count.min(self.changes.len())];
        for change in front {
            stopped.make(change.share()?)?;
        }
        Ok(stopped)
    }
}
