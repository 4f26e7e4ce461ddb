//! A static storage over files that has its bytes.
ghost use Rattle.std.specs.Prelude.{◌≡◌, ◌≢◌, ℕ, ◌+◌, ◌<◌, ◌≤◌, ◌↔◌, ◌++◌, List, [], length, take, drop, is_some, Option, Result, Ok, Err, IfSome, IfOk, IfErr, IsOkUnless, IsErrOf, IsSomeAnd, OnOk, OnErr};
ghost use Rattle.board_names.specs.Configuration.{full_name};
ghost use Rattle.board_names.specs.Extraction.{Lists, FullNamesAscend};
ghost use Rattle.board_names.specs.Table.{at, IsFree};
ghost use Rattle.board_names.specs.declared.errors.concept.NamedConceptRemoveError.TheVariants.{InternalError as NotRemoved, OutOfMemory as NoMemoryToRemove};
ghost use Rattle.board_names.specs.declared.errors.concept.NamedConceptListError.TheVariants.{InternalError as NotListed, OutOfMemory as NoMemoryToList};
ghost use Rattle.board_names.specs.declared.errors.static_storage.StaticStorageOpenError.TheVariants.{Read, InitializationNotYetFinalized, OutOfMemory as NoMemoryToOpen};
ghost use Rattle.board_names.specs.declared.errors.static_storage.StaticStorageReadError.TheVariants.{ReadError, OutOfMemory as NoMemoryToRead, BufferTooSmall, StaticStorageWasModified};
ghost use Rattle.board_files.specs.Files.{raised, removed, AreListed};
ghost use Rattle.board_files.specs.Storage.{AnswersOr, IsOkOr, IsOpenRefusal, IsReadRefusal, TellsFault, FromTo, storage_of, open_answer, length_seen, read_of, final_names, name_and_final, AddsName};
ghost use Rattle.board_files.specs.Told.{look_told, size_told, read_told, remove_told, list_told, is_yes};

use crate::files::{Files, FilesError};
use board_names::{
    Configuration, FileName, FilePath, NamedConceptConfiguration, NamedConceptListError,
    NamedConceptRemoveError, StaticStorageOpenError, StaticStorageReadError,
};
use std::alloc::Global;

/// A static storage over files that has its bytes: its file was final when it was unlocked or opened.
#[derive(Clone, Copy, Debug, PartialEq, Eq)]
pub struct FileStorage {
    /// The name that was given to `create` or `open`.
    pub name: FileName,
    /// How many bytes it has.
    pub len: u64,
}

impl FileStorage {
    /// The storage that stands under the name. Looks `polls + 1` times at most.
    ///
    /// # Errors
    /// `DoesNotExist` where the name isn't held; `InitializationNotYetFinalized` where its file was final at none of the
    /// looks; `Read` where the files failed; `OutOfMemory`.
    pub fn open<F: Files>(
        files: &mut F,
        cfg: &Configuration,
        name: &FileName,
        polls: u32,
    ) -> Result<FileStorage, StaticStorageOpenError>
        ensures name { IfOk result (λ s. s ≡ storage_of name.now s.len) }
        ensures answer { IfSome (F.told files.old) (λ t.
            AnswersOr result Read NoMemoryToOpen (open_answer cfg.now name.now t.files)) }
        ensures cause { IfErr result IsOpenRefusal }
        ensures looks { IsErrOf result InitializationNotYetFinalized
            → (F.counts files.new).calls ≡ raised (polls + 1) (F.counts files.old).calls }
        ensures stays { F.told files.new ≡ F.told files.old }
        ensures fault { TellsFault Read (F.counts files.old) (F.counts files.new) result }
        ensures short { (F.counts files.new).short_writes ≡ (F.counts files.old).short_writes }
    {
        let len = poll(files, &cfg.path_for(name), polls)?;
        Ok(FileStorage { name: *name, len })
    }

    /// Fills the front of `buffer` with the bytes. The rest of it stays.
    ///
    /// # Errors
    /// `BufferTooSmall` where the buffer is shorter than the storage, which is looked at first and leaves it as it was;
    /// `StaticStorageWasModified` where the file has no longer so many bytes, or has more that the buffer takes;
    /// `ReadError` where the files failed; `OutOfMemory`. After these the buffer holds any bytes.
    pub fn read<F: Files>(
        &self,
        files: &mut F,
        cfg: &Configuration,
        buffer: &mut [u8],
    ) -> Result<(), StaticStorageReadError>
        ensures small { IsErrOf result BufferTooSmall ↔ (length buffer.old < self.now.len) }
        ensures unread { IsErrOf result BufferTooSmall → buffer.new ≡ buffer.old }
        ensures answer { let path = full_name cfg.now self.now.name in
            IfSome (F.told files.old) (λ t. AnswersOr result ReadError NoMemoryToRead
            (read_of self.now.len (length buffer.old) (at t.files path))) }
        ensures cause { IfErr result IsReadRefusal }
        ensures filled { let path = full_name cfg.now self.now.name in let len = self.now.len in
            IfSome (F.told files.old) (λ t. OnOk result (IsSomeAnd (at t.files path)
            (λ f. buffer.new ≡ take len f.bytes ++ drop len buffer.old))) }
        ensures modified { (expected found : ℕ)
            → result ≡ Err (StaticStorageWasModified expected found)
            → (expected ≡ self.now.len) × (found ≢ expected) × (found ≤ length buffer.old) }
        ensures stays { F.told files.new ≡ F.told files.old }
        ensures fault { TellsFault ReadError (F.counts files.old) (F.counts files.new) result }
        ensures short { (F.counts files.new).short_writes ≡ (F.counts files.old).short_writes }
    {
        if (buffer.len() as u64) < self.len {
            return Err(StaticStorageReadError::BufferTooSmall);
        }
        let read = files.read(&cfg.path_for(&self.name), buffer);
        whole_read(self.len, read)
    }

    /// Removes the storage, and tells whether the name was held.
    ///
    /// # Errors
    /// `InternalError` where the files failed; `OutOfMemory`. The files stay as they were.
    pub fn remove<F: Files>(
        files: &mut F,
        cfg: &Configuration,
        name: &FileName,
    ) -> Result<bool, NamedConceptRemoveError>
        ensures answer { let path = full_name cfg.now name.now in
            IfSome (F.told files.old) (λ t. AnswersOr result NotRemoved NoMemoryToRemove
            (Ok (is_some (at t.files path)))) }
        ensures cause { IsOkOr result NotRemoved NoMemoryToRemove }
        ensures after { FromTo (F.told files.old) (F.told files.new) (λ t u.
            OnOk result (u ≡ removed (full_name cfg.now name.now) t)) }
        ensures gone { IfSome (F.told files.new) (λ u.
            OnOk result (IsFree u.files (full_name cfg.now name.now))) }
        ensures err { OnErr result (F.told files.new ≡ F.told files.old) }
        ensures fault { TellsFault NotRemoved (F.counts files.old) (F.counts files.new) result }
        ensures short { (F.counts files.new).short_writes ≡ (F.counts files.old).short_writes }
    {
        let had = files.remove(&cfg.path_for(name));
        removal(had)
    }

    /// The names of the storages that this configuration reads, each once, in the order of full names. A file that isn't
    /// final is left out.
    ///
    /// # Errors
    /// `InternalError` where the files failed; `OutOfMemory`.
    pub fn list<F: Files>(
        alloc: Global,
        files: &mut F,
        cfg: &Configuration,
    ) -> Result<Vec<FileName>, NamedConceptListError>
        ensures names { IfSome (F.told files.old) (λ t.
            IfOk result (λ names. Lists cfg.now (final_names t.files) names.items)) }
        ensures ascend { IfSome (F.told files.old) (λ t.
            IfOk result (λ names. FullNamesAscend cfg.now names.items)) }
        ensures cause { IsOkOr result NotListed NoMemoryToList }
        ensures stays { F.told files.new ≡ F.told files.old }
        ensures fault { TellsFault NotListed (F.counts files.old) (F.counts files.new) result }
        ensures short { (F.counts files.new).short_writes ≡ (F.counts files.old).short_writes }
    {
        let mut names = Vec::new(alloc);
        for index in 0..usize::MAX {
            let Some(file) = file_at(files, index)? else {
                return Ok(names);
            };
            add_name(&mut names, cfg, &file.0, file.1)?;
        }
        // Files that are told are fewer than indices.
        Ok(names)
    }
}

/// The full name at an index, and whether its file is final; `None` past the end.
fn file_at<F: Files>(
    files: &mut F,
    index: usize,
) -> Result<Option<(FilePath, bool)>, NamedConceptListError>
    ensures answer { IfSome (F.told files.old) (λ t.
        IfOk result (λ one. one ≡ name_and_final t.files index)) }
    ensures listed { IfSome (F.told files.old) (λ t. AreListed t.files) }
    ensures cause { IsOkOr result NotListed NoMemoryToList }
    ensures stays { F.told files.new ≡ F.told files.old }
    ensures fault { TellsFault NotListed (F.counts files.old) (F.counts files.new) result }
    ensures short { (F.counts files.new).short_writes ≡ (F.counts files.old).short_writes }
{
    let name = files.name_at(index);
    let Some(path) = listed(name)? else {
        return Ok(None);
    };
    let seen = files.is_final(&path);
    let seen = listed(seen)?;
    Ok(Some((path, is_yes(seen))))
}

/// Lists the name that a full name is of behind the others, where the file is final.
fn add_name(
    names: &mut Vec<FileName>,
    cfg: &Configuration,
    path: &FilePath,
    is_final: bool,
) -> Result<(), NamedConceptListError>
    ensures ok { OnOk result (AddsName cfg.now path.now is_final names.old.items names.new.items) }
    ensures memory { IsOkUnless result NoMemoryToList }
{
    if !is_final {
        return Ok(());
    }
    let Some(name) = cfg.extract_name_from_path(path) else {
        return Ok(());
    };
    match names.push(name) {
        Ok(()) => Ok(()),
        Err(_) => Err(NamedConceptListError::OutOfMemory),
    }
}

/// The length of a final file, by one look. To see that it isn't final takes one call.
fn look<F: Files>(files: &mut F, path: &FilePath) -> Result<u64, StaticStorageOpenError>
    ensures answer { IfSome (F.told files.old) (λ t.
        AnswersOr result Read NoMemoryToOpen (length_seen (at t.files path.now))) }
    ensures cause { IfErr result IsOpenRefusal }
    ensures looks { IsErrOf result InitializationNotYetFinalized
        → (F.counts files.new).calls ≡ raised 1 (F.counts files.old).calls }
    ensures stays { F.told files.new ≡ F.told files.old }
    ensures fault { TellsFault Read (F.counts files.old) (F.counts files.new) result }
    ensures short { (F.counts files.new).short_writes ≡ (F.counts files.old).short_writes }
{
    let seen = files.is_final(path);
    seen_final(seen)?;
    let size = files.size(path);
    size_of(size)
}

/// Looks once more than `polls`, or until the file is found to be final or not to be held.
fn poll<F: Files>(files: &mut F, path: &FilePath, polls: u32) -> Result<u64, StaticStorageOpenError>
    ensures answer { IfSome (F.told files.old) (λ t.
        AnswersOr result Read NoMemoryToOpen (length_seen (at t.files path.now))) }
    ensures cause { IfErr result IsOpenRefusal }
    ensures looks { IsErrOf result InitializationNotYetFinalized
        → (F.counts files.new).calls ≡ raised (polls + 1) (F.counts files.old).calls }
    ensures stays { F.told files.new ≡ F.told files.old }
    ensures fault { TellsFault Read (F.counts files.old) (F.counts files.new) result }
    ensures short { (F.counts files.new).short_writes ≡ (F.counts files.old).short_writes }
{
    for poll in 0..polls {
        match look(files, path) {
            Err(StaticStorageOpenError::InitializationNotYetFinalized) => {}
            answer => return answer,
        }
    }
    look(files, path)
}

/// Whether a file was seen to be final, as `open` answers it.
fn seen_final(seen: Result<Option<bool>, FilesError>) -> Result<(), StaticStorageOpenError>
    ensures value { result ≡ look_told seen }
    ensures cause { IfErr result IsOpenRefusal }
{
    match seen {
        Ok(None) => Err(StaticStorageOpenError::DoesNotExist),
        Ok(Some(false)) => Err(StaticStorageOpenError::InitializationNotYetFinalized),
        Ok(Some(true)) => Ok(()),
        Err(FilesError::Failed) => Err(StaticStorageOpenError::Read),
        Err(FilesError::OutOfMemory) => Err(StaticStorageOpenError::OutOfMemory),
    }
}

/// How long a file was, as `open` answers it.
fn size_of(size: Result<u64, FilesError>) -> Result<u64, StaticStorageOpenError>
    ensures value { result ≡ size_told size }
    ensures cause { IfErr result IsOpenRefusal }
    ensures final_file { result ≢ Err InitializationNotYetFinalized }
{
    match size {
        Ok(size) => Ok(size),
        Err(FilesError::Failed) => Err(StaticStorageOpenError::Read),
        Err(FilesError::OutOfMemory) => Err(StaticStorageOpenError::OutOfMemory),
    }
}

/// Whether all bytes were read, as `read` answers it.
fn whole_read(len: u64, read: Result<usize, FilesError>) -> Result<(), StaticStorageReadError>
    ensures value { result ≡ read_told len read }
    ensures cause { IfErr result IsReadRefusal }
{
    match read {
        Ok(found) if found as u64 == len => Ok(()),
        Ok(found) => Err(StaticStorageReadError::StaticStorageWasModified {
            expected: len,
            found: found as u64,
        }),
        Err(FilesError::Failed) => Err(StaticStorageReadError::ReadError),
        Err(FilesError::OutOfMemory) => Err(StaticStorageReadError::OutOfMemory),
    }
}

/// Whether a file was seen to be held and final.
fn is_yes(seen: Option<bool>) -> bool
    ensures { result ≡ is_yes seen }
{
    match seen {
        Some(is_final) => is_final,
        None => false,
    }
}

/// What a call on the files gave, as `list` answers it.
fn listed<T>(given: Result<T, FilesError>) -> Result<T, NamedConceptListError>
    ensures value { result ≡ list_told given }
    ensures cause { IsOkOr result NotListed NoMemoryToList }
{
    match given {
        Ok(value) => Ok(value),
        Err(FilesError::Failed) => Err(NamedConceptListError::InternalError),
        Err(FilesError::OutOfMemory) => Err(NamedConceptListError::OutOfMemory),
    }
}

/// Whether a file was removed, as `remove` answers it.
fn removal(had: Result<bool, FilesError>) -> Result<bool, NamedConceptRemoveError>
    ensures value { result ≡ remove_told had }
    ensures cause { IsOkOr result NotRemoved NoMemoryToRemove }
{
    match had {
        Ok(had) => Ok(had),
        Err(FilesError::Failed) => Err(NamedConceptRemoveError::InternalError),
        Err(FilesError::OutOfMemory) => Err(NamedConceptRemoveError::OutOfMemory),
    }
}
