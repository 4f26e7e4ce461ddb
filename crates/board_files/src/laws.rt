//! The whole life of a storage over files, stopped anywhere.
ghost use Rattle.std.specs.Prelude.{◌≡◌, ◌≢◌, ℕ, ◌++◌, List, [], length, drop, Ok, Err, IfSome, IfOk, IfErr, OnOk, IsSomeAnd};
ghost use Rattle.board_names.specs.Configuration.{full_name};
ghost use Rattle.board_names.specs.Table.{IsFree};
ghost use Rattle.board_names.specs.declared.errors.static_storage.StaticStorageCreateError.TheVariants.{AlreadyExists};
ghost use Rattle.board_files.specs.Files.{AddsMoments, SameOthers};
ghost use Rattle.board_files.specs.Storage.{FromTo, FindsAllOrNothing, IsWhole, storage_of};
ghost use Rattle.board_files.specs.Life.{IsStoreRefusal, IsLifeRefusal, OnceStored, TellsLifeFault, TellsStoreFault};
ghost use Rattle.board_files.specs.declared.laws.StoreError.TheVariants.{Create};

use crate::file_locked::FileLocked;
use crate::file_storage::FileStorage;
use crate::files::Files;
use board_names::{
    Configuration, FileName, StaticStorageCreateError, StaticStorageOpenError,
    StaticStorageReadError, StaticStorageUnlockError,
};
use thiserror::Error;

/// Why a storage was not stored whole.
#[derive(Clone, Copy, Debug, PartialEq, Eq, Hash, Error)]
pub enum StoreError {
    /// It was not created.
    #[error("{0}")]
    Create(StaticStorageCreateError),
    /// It was created, and not unlocked.
    #[error("{0}")]
    Unlock(StaticStorageUnlockError),
}

/// Why a storage was not stored and read back.
#[derive(Clone, Copy, Debug, PartialEq, Eq, Hash, Error)]
pub enum LifeError {
    /// It was not stored.
    #[error("{0}")]
    Store(StoreError),
    /// It was stored, and not opened.
    #[error("{0}")]
    Open(StaticStorageOpenError),
    /// It was opened, and not read.
    #[error("{0}")]
    Read(StaticStorageReadError),
}

/// Locks a name that is free and unlocks it with these contents.
///
/// Wherever it is stopped, or stops by itself, whoever opens the name in the files as they then stand finds that it isn't
/// there, that it isn't final, or a storage with the whole contents.
///
/// # Errors
/// `Create` and `Unlock`, as these calls are refused.
pub fn store_whole<F: Files>(
    files: &mut F,
    cfg: &Configuration,
    name: &FileName,
    contents: &[u8],
) -> Result<FileStorage, StoreError>
    requires { IfSome (F.told files.old) (λ t. IsFree t.files (full_name cfg.now name.now)) }
    ensures ok { IfOk result (λ s. s ≡ storage_of name.now (length contents.now)) }
    ensures cause { IfErr result IsStoreRefusal }
    ensures free { IfSome (F.told files.old) (λ t. result ≢ Err (Create AlreadyExists)) }

    // What others find before it, at each moment that it adds, and after it.
    ensures before { IfSome (F.told files.old) (λ t.
        FindsAllOrNothing cfg.now name.now contents.now t.files) }
    ensures stopped { FromTo (F.told files.old) (F.told files.new) (λ t u. AddsMoments t.moments
        u.moments (FindsAllOrNothing cfg.now name.now contents.now)) }
    ensures now { FromTo (F.told files.old) (F.told files.new) (λ t u.
        FindsAllOrNothing cfg.now name.now contents.now u.files) }
    ensures after { FromTo (F.told files.old) (F.told files.new) (λ t u.
        OnOk result (IsWhole (full_name cfg.now name.now) contents.now u.files)) }
    ensures others { FromTo (F.told files.old) (F.told files.new) (λ t u.
        SameOthers (full_name cfg.now name.now) t.files u.files) }
    ensures fault { TellsStoreFault (F.counts files.old) (F.counts files.new) result }
{
    let locked = match FileLocked::create(files, cfg, name) {
        Ok(locked) => locked,
        Err(e) => return Err(StoreError::Create(e)),
    };
    match locked.unlock(files, cfg, contents) {
        Ok(storage) => Ok(storage),
        Err(e) => Err(StoreError::Unlock(e)),
    }
}

/// The whole life of a storage: a name that is free is locked, unlocked with these contents, opened, and read into the
/// front of `buffer`.
///
/// Wherever it is stopped, whoever opens the name finds what `store_whole` says. Once it is stored it stays, and is found and
/// read whole, where no call on the files fails and the buffer has room.
///
/// # Errors
/// `Store`, `Open` and `Read`, as these calls are refused.
pub fn store_and_read<F: Files>(
    files: &mut F,
    cfg: &Configuration,
    name: &FileName,
    contents: &[u8],
    buffer: &mut [u8],
) -> Result<(), LifeError>
    requires { IfSome (F.told files.old) (λ t. IsFree t.files (full_name cfg.now name.now)) }
    ensures read { let len = length contents.now in IfSome (F.told files.old) (λ t.
        OnOk result (buffer.new ≡ contents.now ++ drop len buffer.old)) }
    ensures cause { let len = length contents.now in IfSome (F.told files.old) (λ t.
        IfErr result (IsLifeRefusal len (length buffer.old))) }
    ensures stopped { FromTo (F.told files.old) (F.told files.new) (λ t u. AddsMoments t.moments
        u.moments (FindsAllOrNothing cfg.now name.now contents.now)) }
    ensures now { FromTo (F.told files.old) (F.told files.new) (λ t u.
        FindsAllOrNothing cfg.now name.now contents.now u.files) }

    // What was stored stays, also where it isn't read back, and so does every other name. A fault is counted where it is told.
    ensures after { FromTo (F.told files.old) (F.told files.new) (λ t u.
        OnceStored result (IsWhole (full_name cfg.now name.now) contents.now u.files)) }
    ensures others { FromTo (F.told files.old) (F.told files.new) (λ t u.
        SameOthers (full_name cfg.now name.now) t.files u.files) }
    ensures fault { TellsLifeFault (F.counts files.old) (F.counts files.new) result }
{
    if let Err(e) = store_whole(files, cfg, name, contents) {
        return Err(LifeError::Store(e));
    }
    let storage = match FileStorage::open(files, cfg, name, 0) {
        Ok(storage) => storage,
        Err(e) => return Err(LifeError::Open(e)),
    };
    match storage.read(files, cfg, buffer) {
        Ok(()) => Ok(()),
        Err(e) => Err(LifeError::Read(e)),
    }
}
