//! Files in memory.
ghost use Rattle.std.specs.Prelude.{◌≡◌, ℕ, ◌+◌, ◌-◌, ◌^◌, ◌<◌, ◌≤◌, ◌⊎◌, ◌↔◌, List, [], length, min, true, false, is_some, Some, Option, IfOk, IsOkUnless, IsErrOf, OnOk, OnErr, IsTrue};
ghost use Rattle.std.specs.Option.{option_copied};
ghost use Rattle.board_names.specs.Table.{at, IsFree};
ghost use Rattle.board_files.specs.Files.{Creates, Writes, Finalizes, LooksAt, Measures, ReadsFile, FillsFront, Removes, TellsName, HasRisen, CountsCall, CountsWrite};
ghost use Rattle.board_files.specs.Changes.{told_after, stopped_at};
ghost use Rattle.board_files.specs.Memory.{counts_of, one_more, fails_next, FailsAt, planned_next, room_next, called, faulted, SamePlan};
ghost use Rattle.board_files.specs.declared.files.FilesError.TheVariants.{Failed, OutOfMemory};

use crate::files::{Files, FilesError};
use crate::held_files::HeldFiles;
use board_names::FilePath;
use std::alloc::Global;

/// Files in memory, of which some calls fail and some writes are short. All is known of them.
#[derive(Drop)]
pub struct MemoryFiles {
    held: HeldFiles,
    calls: u64,
    faults: u64,
    short_writes: u64,
    fails: Vec<u64>,
    short: Vec<(u64, usize)>,
}

impl MemoryFiles {
    /// No files. The calls of `fails` are to fail, counted from 0, and each write of `short` takes at most so many bytes.
    pub fn new(alloc: Global, fails: Vec<u64>, short: Vec<(u64, usize)>) -> MemoryFiles
        ensures files { result.held ≡ told_after [] }
        ensures plan { (result.fails ≡ fails) × (result.short ≡ short) }
        ensures counts { (result.calls ≡ 0) × (result.faults ≡ 0) × (result.short_writes ≡ 0) }
    {
        MemoryFiles {
            held: HeldFiles::new(alloc),
            calls: 0,
            faults: 0,
            short_writes: 0,
            fails,
            short,
        }
    }

    /// The files as they stood after so many changes; more than were made gives the last. No call of them fails, and no
    /// write is short.
    ///
    /// # Errors
    /// `OutOfMemory`.
    pub fn stopped(&self, alloc: Global, changes: usize) -> Result<MemoryFiles, FilesError>
        ensures files { IfOk result (λ m. m.held ≡ stopped_at changes self.now.held) }
        ensures all { length self.now.held.moments ≤ changes
            → IfOk result (λ m. m.held ≡ self.now.held) }
        ensures plan { IfOk result (λ m. (m.fails.items ≡ []) × (m.short.items ≡ [])) }
        ensures counts { IfOk result (λ m. (m.calls ≡ 0) × (m.faults ≡ 0) × (m.short_writes ≡ 0)) }
        ensures memory { IsOkUnless result OutOfMemory }
    {
        match self.held.stopped(alloc, changes) {
            Ok(held) => Ok(MemoryFiles {
                held,
                calls: 0,
                faults: 0,
                short_writes: 0,
                fails: Vec::new(alloc),
                short: Vec::new(alloc),
            }),
            Err(_) => Err(FilesError::OutOfMemory),
        }
    }

    /// Counts a call, which fails where it is to fail.
    fn begin(&mut self) -> Result<(), FilesError>
        ensures fails { IsErrOf result Failed ↔ IsTrue (fails_next self.old) }
        ensures cause { IsOkUnless result Failed }
        ensures ok { OnOk result (self.new ≡ called self.old) }
        ensures err { OnErr result (self.new ≡ faulted (called self.old)) }
        ensures risen { OnErr result (HasRisen self.old.faults self.new.faults) }
    {
        let call = self.calls;
        self.calls = self.calls.saturating_add(1);
        if self.fails.contains(&call) {
            return Err(self.fault());
        }
        Ok(())
    }

    /// Counts a fault.
    fn fault(&mut self) -> FilesError
        ensures error { result ≡ Failed }
        ensures after { self.new ≡ faulted self.old }
        ensures risen { HasRisen self.old.faults self.new.faults }
    {
        self.faults = self.faults.saturating_add(1);
        FilesError::Failed
    }

    /// How much the next call takes of so many bytes, where it writes.
    fn room(&self, given: usize) -> usize
        ensures { result ≡ room_next self.now given }
    {
        match self.planned() {
            None => given,
            Some(short) => given.min(short.1),
        }
    }

    /// What the next call is to take, where it is listed.
    fn planned(&self) -> Option<&(u64, usize)>
        ensures { option_copied result ≡ planned_next self.now }
    {
        let call = self.calls;
        self.short.iter().find(|short| short.0 == call)
    }
}

impl Files for MemoryFiles {
    ghost told = { λ m. Some m.held };

    ghost counts = { counts_of };

    fn create_exclusive(&mut self, name: &FilePath) -> Result<bool, FilesError>
        ensures files { Creates name.now (Some self.old.held) (Some self.new.held) result }
        ensures counts { CountsCall (counts_of self.old) (counts_of self.new) result }
        ensures fails { IsErrOf result Failed ↔ IsTrue (fails_next self.old) }
        ensures calls { self.new.calls ≡ one_more self.old.calls }
        ensures plan { SamePlan self.old self.new }
    {
        self.begin()?;
        match self.held.create(name) {
            Ok(made) => Ok(made),
            Err(_) => Err(FilesError::OutOfMemory),
        }
    }

    fn write(&mut self, name: &FilePath, bytes: &[u8]) -> Result<usize, FilesError>
        ensures files { Writes name.now bytes.now
            (Some self.old.held) (Some self.new.held) result }
        ensures counts { CountsWrite (length bytes.now)
            (counts_of self.old) (counts_of self.new) result }
        ensures fails { IsErrOf result Failed ↔ FailsAt self.old name.now }
        ensures short { IfOk result (λ taken. taken ≡ room_next self.old (length bytes.now)) }
        ensures calls { self.new.calls ≡ one_more self.old.calls }
        ensures plan { SamePlan self.old self.new }
    {
        let taken = self.room(bytes.len());
        self.begin()?;
        if !self.held.holds(name) {
            return Err(self.fault());
        }
        if self.held.append(name, &bytes[..taken]).is_err() {
            return Err(FilesError::OutOfMemory);
        }
        if taken < bytes.len() {
            self.short_writes = self.short_writes.saturating_add(1);
        }
        Ok(taken)
    }

    fn set_final(&mut self, name: &FilePath) -> Result<(), FilesError>
        ensures files { Finalizes name.now (Some self.old.held) (Some self.new.held) result }
        ensures counts { CountsCall (counts_of self.old) (counts_of self.new) result }
        ensures fails { IsErrOf result Failed ↔ FailsAt self.old name.now }
        ensures calls { self.new.calls ≡ one_more self.old.calls }
        ensures plan { SamePlan self.old self.new }
    {
        self.begin()?;
        if !self.held.holds(name) {
            return Err(self.fault());
        }
        match self.held.finish(name) {
            Ok(()) => Ok(()),
            Err(_) => Err(FilesError::OutOfMemory),
        }
    }

    fn is_final(&mut self, name: &FilePath) -> Result<Option<bool>, FilesError>
        ensures files { LooksAt name.now (Some self.old.held) (Some self.new.held) result }
        ensures counts { CountsCall (counts_of self.old) (counts_of self.new) result }
        ensures fails { IsErrOf result Failed ↔ IsTrue (fails_next self.old) }
        ensures memory { IsOkUnless result Failed }
        ensures calls { self.new.calls ≡ one_more self.old.calls }
        ensures plan { SamePlan self.old self.new }
    {
        self.begin()?;
        match self.held.get(name) {
            None => Ok(None),
            Some(file) => Ok(Some(file.is_final())),
        }
    }

    fn size(&mut self, name: &FilePath) -> Result<u64, FilesError>
        ensures files { Measures name.now (Some self.old.held) (Some self.new.held) result }
        ensures counts { CountsCall (counts_of self.old) (counts_of self.new) result }
        ensures fails { IsErrOf result Failed ↔ FailsAt self.old name.now }
        ensures memory { IsOkUnless result Failed }
        ensures calls { self.new.calls ≡ one_more self.old.calls }
        ensures plan { SamePlan self.old self.new }
    {
        self.begin()?;
        match self.held.get(name) {
            None => Err(self.fault()),
            Some(file) => Ok(file.as_bytes().len() as u64),
        }
    }

    fn read(&mut self, name: &FilePath, buffer: &mut [u8]) -> Result<usize, FilesError>
        ensures files { ReadsFile name.now buffer.old buffer.new
            (Some self.old.held) (Some self.new.held) result }
        ensures counts { CountsCall (counts_of self.old) (counts_of self.new) result }
        ensures fails { IsErrOf result Failed ↔ FailsAt self.old name.now }
        ensures memory { IsOkUnless result Failed }
        ensures calls { self.new.calls ≡ one_more self.old.calls }
        ensures plan { SamePlan self.old self.new }
    {
        self.begin()?;
        match self.held.get(name) {
            None => Err(self.fault()),
            Some(file) => Ok(fill_front(buffer, file.as_bytes())),
        }
    }

    fn remove(&mut self, name: &FilePath) -> Result<bool, FilesError>
        ensures files { Removes name.now (Some self.old.held) (Some self.new.held) result }
        ensures counts { CountsCall (counts_of self.old) (counts_of self.new) result }
        ensures fails { IsErrOf result Failed ↔ IsTrue (fails_next self.old) }
        ensures calls { self.new.calls ≡ one_more self.old.calls }
        ensures plan { SamePlan self.old self.new }
    {
        self.begin()?;
        match self.held.remove(name) {
            Ok(had) => Ok(had),
            Err(_) => Err(FilesError::OutOfMemory),
        }
    }

    fn name_at(&mut self, index: usize) -> Result<Option<FilePath>, FilesError>
        ensures files { TellsName index (Some self.old.held) (Some self.new.held) result }
        ensures counts { CountsCall (counts_of self.old) (counts_of self.new) result }
        ensures fails { IsErrOf result Failed ↔ IsTrue (fails_next self.old) }
        ensures memory { IsOkUnless result Failed }
        ensures calls { self.new.calls ≡ one_more self.old.calls }
        ensures plan { SamePlan self.old self.new }
    {
        let name = self.held.name_at(index);
        self.begin()?;
        Ok(name)
    }
}

/// Fills the front of a buffer with the first bytes, as many as the shorter of the two has.
fn fill_front(buffer: &mut [u8], bytes: &[u8]) -> usize
    ensures { FillsFront bytes.now buffer.old buffer.new result }
{
    let count = buffer.len().min(bytes.len());
    buffer[..count].copy_from_slice(&bytes[..count]);
    count
}
