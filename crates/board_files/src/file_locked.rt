//! A static storage over files that is still to be filled.
ghost use Rattle.std.specs.Prelude.{◌≡◌, ◌≢◌, ℕ, ◌<◌, List, length, Result, Ok, IfSome, IfOk, IfErr, OnOk, OnErr};
ghost use Rattle.board_names.specs.Configuration.{full_name};
ghost use Rattle.board_names.specs.declared.errors.static_storage.StaticStorageCreateError.TheVariants.{Creation, OutOfMemory};
ghost use Rattle.board_names.specs.declared.errors.static_storage.StaticStorageUnlockError.TheVariants.{InternalError, OutOfMemory as NoMemory, NoSpaceLeft};
ghost use Rattle.board_files.specs.Files.{created, AddsMoments, SameOthers};
ghost use Rattle.board_files.specs.Storage.{AnswersOr, IsCreateRefusal, IsUnlockRefusal, TellsFault, FromTo, locked_of, storage_of, create_answer, UnlockLeaves, IsOpen, IsFresh, IsWhole, HasFront, TellsShort, IsLockedMoment, IsUnlockMoment};
ghost use Rattle.board_files.specs.Told.{create_told, write_told, final_told};

use crate::file_storage::FileStorage;
use crate::files::{Files, FilesError};
use board_names::{
    Configuration, FileName, NamedConceptConfiguration, StaticStorageCreateError,
    StaticStorageUnlockError,
};

/// A static storage over files that is still to be filled: its file is held, and isn't final.
#[derive(Clone, Copy, Debug, PartialEq, Eq)]
pub struct FileLocked {
    /// The name that was given to `create`.
    pub name: FileName,
}

impl FileLocked {
    /// Takes a name for a storage that is still to be filled.
    ///
    /// Where it is stopped, or stops by itself, the name is free as before, or held and not final.
    ///
    /// # Errors
    /// `AlreadyExists` where the name is held; `Creation` where the files failed; `OutOfMemory`. The files stay as they were.
    pub fn create<F: Files>(
        files: &mut F,
        cfg: &Configuration,
        name: &FileName,
    ) -> Result<FileLocked, StaticStorageCreateError>
        ensures ok { IfOk result (λ locked. locked ≡ locked_of name.now) }
        ensures answer { IfSome (F.told files.old) (λ t.
            AnswersOr result Creation OutOfMemory (create_answer cfg.now name.now t.files)) }
        ensures cause { IfErr result IsCreateRefusal }
        ensures locked { IfSome (F.told files.new) (λ u.
            OnOk result (IsFresh (full_name cfg.now name.now) u.files)) }
        ensures after { FromTo (F.told files.old) (F.told files.new) (λ t u.
            OnOk result (u ≡ created (full_name cfg.now name.now) t)) }
        ensures err { OnErr result (F.told files.new ≡ F.told files.old) }
        ensures stop { FromTo (F.told files.old) (F.told files.new) (λ t u.
            let path = full_name cfg.now name.now in
            AddsMoments t.moments u.moments (IsLockedMoment path t.files)) }
        ensures others { FromTo (F.told files.old) (F.told files.new) (λ t u.
            SameOthers (full_name cfg.now name.now) t.files u.files) }
        ensures fault { TellsFault Creation (F.counts files.old) (F.counts files.new) result }
        ensures short { (F.counts files.new).short_writes ≡ (F.counts files.old).short_writes }
    {
        let made = files.create_exclusive(&cfg.path_for(name));
        lock_made(name, made)
    }

    /// Writes the contents with one write and makes the file final.
    ///
    /// Where it is stopped, or stops by itself, the name is held and not final, or final with exactly these contents.
    ///
    /// # Errors
    /// `NoSpaceLeft` where the write took fewer bytes than there are, which the file then has; `InternalError` where the
    /// files failed; `OutOfMemory`. The file isn't final then.
    pub fn unlock<F: Files>(
        self,
        files: &mut F,
        cfg: &Configuration,
        contents: &[u8],
    ) -> Result<FileStorage, StaticStorageUnlockError>
        requires { IfSome (F.told files.old) (λ t. IsFresh (full_name cfg.now self.name) t.files) }
        ensures ok { IfOk result (λ s. s ≡ storage_of self.name (length contents.now)) }
        ensures whole { FromTo (F.told files.old) (F.told files.new) (λ t u.
            OnOk result (IsWhole (full_name cfg.now self.name) contents.now u.files)) }
        ensures cause { IfErr result IsUnlockRefusal }
        ensures after { let path = full_name cfg.now self.name in
            FromTo (F.told files.old) (F.told files.new) (UnlockLeaves result path contents.now) }
        ensures space { TellsShort contents.now (F.counts files.old) (F.counts files.new) result }
        ensures front { FromTo (F.told files.old) (F.told files.new) (λ t u. (taken given : ℕ)
            → result ≡ Err (NoSpaceLeft taken given)
            → HasFront (full_name cfg.now self.name) contents.now taken u.files) }
        ensures err { FromTo (F.told files.old) (F.told files.new) (λ t u.
            OnErr result (IsOpen (full_name cfg.now self.name) u.files)) }
        ensures stop { FromTo (F.told files.old) (F.told files.new) (λ t u. AddsMoments t.moments
            u.moments (IsUnlockMoment (full_name cfg.now self.name) contents.now t.files)) }
        ensures others { FromTo (F.told files.old) (F.told files.new) (λ t u.
            SameOthers (full_name cfg.now self.name) t.files u.files) }
        ensures fault { TellsFault InternalError (F.counts files.old) (F.counts files.new) result }
    {
        let path = cfg.path_for(&self.name);
        let wrote = files.write(&path, contents);
        written_whole(wrote, contents.len())?;
        let set = files.set_final(&path);
        made_final(set)?;
        Ok(FileStorage {
            name: self.name,
            len: contents.len() as u64,
        })
    }
}

/// What was made, as `create` answers it.
fn lock_made(
    name: &FileName,
    made: Result<bool, FilesError>,
) -> Result<FileLocked, StaticStorageCreateError>
    ensures value { result ≡ create_told name.now made }
    ensures cause { IfErr result IsCreateRefusal }
{
    match made {
        Ok(true) => Ok(FileLocked { name: *name }),
        Ok(false) => Err(StaticStorageCreateError::AlreadyExists),
        Err(FilesError::Failed) => Err(StaticStorageCreateError::Creation),
        Err(FilesError::OutOfMemory) => Err(StaticStorageCreateError::OutOfMemory),
    }
}

/// Whether all of the contents were written, as `unlock` answers it.
fn written_whole(
    wrote: Result<usize, FilesError>,
    given: usize,
) -> Result<(), StaticStorageUnlockError>
    ensures value { result ≡ write_told given wrote }
    ensures cause { IfErr result IsUnlockRefusal }
{
    match wrote {
        Ok(taken) if taken < given => Err(StaticStorageUnlockError::NoSpaceLeft {
            taken: taken as u64,
            given: given as u64,
        }),
        Ok(_) => Ok(()),
        Err(FilesError::Failed) => Err(StaticStorageUnlockError::InternalError),
        Err(FilesError::OutOfMemory) => Err(StaticStorageUnlockError::OutOfMemory),
    }
}

/// Whether the file was made final, as `unlock` answers it.
fn made_final(set: Result<(), FilesError>) -> Result<(), StaticStorageUnlockError>
    ensures value { result ≡ final_told set }
    ensures cause { IfErr result IsUnlockRefusal }
{
    match set {
        Ok(()) => Ok(()),
        Err(FilesError::Failed) => Err(StaticStorageUnlockError::InternalError),
        Err(FilesError::OutOfMemory) => Err(StaticStorageUnlockError::OutOfMemory),
    }
}
