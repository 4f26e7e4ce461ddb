//! Storages over files in memory: each failing call and short write in turn, and stopped after each change.
ghost use Rattle.std.specs.Prelude.{◌≡◌, [], IsOk};

use crate::same::same;
use board_files::{
    Configuration, FileName, FilePath, FileStorage, Files, FilesError, LifeError, MemoryFiles,
    NamedConceptConfiguration, NamedConceptListError, NamedConceptRemoveError,
    StaticStorageCreateError, StaticStorageOpenError, StaticStorageReadError,
    StaticStorageUnlockError, StoreError, store_and_read, store_whole,
};
use board_store::{StaticStorage, Storage};
use std::alloc::Global;
use std::process::Abort;
use std::test::Fail;

fn usual() -> Configuration {
    Configuration::with_suffix(&Storage::default_suffix())
}

// The files, and what was answered, where `x` was stored with 1 2 3 over files that fail so.
fn store(
    alloc: Global,
    fails: Vec<u64>,
    short: Vec<(u64, usize)>,
) -> Result<(MemoryFiles, Result<FileStorage, StoreError>), Fail> {
    let name = FileName::new(b"x")?;
    let mut files = MemoryFiles::new(alloc, fails, short);
    let stored = store_whole(&mut files, &usual(), &name, &[1, 2, 3]);
    Ok((files, stored))
}

fn opened(files: &mut MemoryFiles) -> Result<Result<u64, StaticStorageOpenError>, Fail> {
    let name = FileName::new(b"x")?;
    let opened = FileStorage::open(files, &usual(), &name, 0);
    Ok(opened.map(|storage| storage.len))
}

fn listed(files: &mut MemoryFiles, alloc: Global) -> Result<Vec<FileName>, NamedConceptListError> {
    FileStorage::list(alloc, files, &usual())
}

fn removed(files: &mut MemoryFiles) -> Result<Result<bool, NamedConceptRemoveError>, Fail> {
    let name = FileName::new(b"x")?;
    Ok(FileStorage::remove(files, &usual(), &name))
}

fn is_not_final<R: Abort>(rt: &R, files: &mut MemoryFiles) -> Result<(), Fail> {
    let early = Err(StaticStorageOpenError::InitializationNotYetFinalized);
    same(rt, &opened(files)?, &early);
    Ok(())
}

fn is_removed_unlisted<R: Abort>(
    rt: &R,
    alloc: Global,
    files: &mut MemoryFiles,
) -> Result<(), Fail> {
    assert!(rt; listed(files, alloc)?.is_empty());
    same(rt, &removed(files)?, &Ok(true));
    Ok(())
}

// The write of the three bytes takes this many. The file isn't final then, wherever it is stopped.
fn is_written_short<R: Abort>(rt: &R, alloc: Global, taken: usize) -> Result<(), Fail> {
    let mut short = Vec::new(alloc);
    short.push((1, taken))?;
    let (mut files, stored) = store(alloc, Vec::new(alloc), short)?;
    let full = StaticStorageUnlockError::NoSpaceLeft {
        taken: taken as u64,
        given: 3,
    };
    same(rt, &stored, &Err(StoreError::Unlock(full)));
    is_not_final(rt, &mut files)?;
    is_not_final(rt, &mut files.stopped(alloc, 1)?)?;
    is_removed_unlisted(rt, alloc, &mut files)
}

#[test]
fn each_short_write_is_told(rt: HostRuntime) -> Result<(), Fail> {
    for taken in [0, 1, 2] {
        is_written_short(&rt, rt.alloc(), taken)?;
    }
    Ok(())
}

fn fails_so<R: Abort>(
    rt: &R,
    alloc: Global,
    call: u64,
    refusal: StoreError,
    later: Result<u64, StaticStorageOpenError>,
) -> Result<(), Fail> {
    let mut fails = Vec::new(alloc);
    fails.push(call)?;
    let (mut files, stored) = store(alloc, fails, Vec::new(alloc))?;
    same(rt, &stored, &Err(refusal));
    same(rt, &opened(&mut files)?, &later);
    Ok(())
}

#[test]
fn each_call_that_fails_is_told(rt: HostRuntime) -> Result<(), Fail> {
    let alloc = rt.alloc();
    let creation = StoreError::Create(StaticStorageCreateError::Creation);
    let unlock = StoreError::Unlock(StaticStorageUnlockError::InternalError);
    let none = Err(StaticStorageOpenError::DoesNotExist);
    let early = Err(StaticStorageOpenError::InitializationNotYetFinalized);
    fails_so(&rt, alloc, 0, creation, none)?;
    fails_so(&rt, alloc, 1, unlock, early)?;
    fails_so(&rt, alloc, 2, unlock, early)?;
    Ok(())
}

// The files where `x` was stored with 1 2 3, of which this later call is to fail.
fn stored_before(alloc: Global, call: u64) -> Result<(MemoryFiles, FileStorage), Fail> {
    let mut fails = Vec::new(alloc);
    fails.push(call)?;
    let (files, stored) = store(alloc, fails, Vec::new(alloc))?;
    Ok((files, stored?))
}

fn is_opened_after_a_fault<R: Abort>(rt: &R, alloc: Global, call: u64) -> Result<(), Fail> {
    let (mut files, _storage) = stored_before(alloc, call)?;
    same(rt, &opened(&mut files)?, &Err(StaticStorageOpenError::Read));
    same(rt, &opened(&mut files)?, &Ok(3));
    Ok(())
}

fn is_listed_after_a_fault<R: Abort>(rt: &R, alloc: Global, call: u64) -> Result<(), Fail> {
    let (mut files, storage) = stored_before(alloc, call)?;
    let failed = listed(&mut files, alloc);
    same(
        rt,
        &failed.err(),
        &Some(NamedConceptListError::InternalError),
    );
    same(
        rt,
        &listed(&mut files, alloc)?.as_slice(),
        &[storage.name].as_slice(),
    );
    Ok(())
}

fn is_read_after_a_fault<R: Abort>(rt: &R, alloc: Global) -> Result<(), Fail> {
    let (mut files, storage) = stored_before(alloc, 3)?;
    let mut buffer = [0; 3];
    same(
        rt,
        &storage.read(&mut files, &usual(), &mut buffer),
        &Err(StaticStorageReadError::ReadError),
    );
    same(
        rt,
        &storage.read(&mut files, &usual(), &mut buffer),
        &Ok(()),
    );
    same(rt, &buffer, &[1, 2, 3]);
    Ok(())
}

fn is_removed_after_a_fault<R: Abort>(rt: &R, alloc: Global) -> Result<(), Fail> {
    let (mut files, _storage) = stored_before(alloc, 3)?;
    same(
        rt,
        &removed(&mut files)?,
        &Err(NamedConceptRemoveError::InternalError),
    );
    same(rt, &removed(&mut files)?, &Ok(true));
    same(rt, &removed(&mut files)?, &Ok(false));
    Ok(())
}

// Three calls stored it. Opening looks whether the file is final, and at its size; listing takes two calls for the file,
// and one that finds no other.
#[test]
fn each_later_call_that_fails_is_told(rt: HostRuntime) -> Result<(), Fail> {
    for call in [3, 4] {
        is_opened_after_a_fault(&rt, rt.alloc(), call)?;
    }
    for call in [3, 4, 5] {
        is_listed_after_a_fault(&rt, rt.alloc(), call)?;
    }
    is_read_after_a_fault(&rt, rt.alloc())?;
    is_removed_after_a_fault(&rt, rt.alloc())
}

// What the whole life of a storage with 1 2 3 answers, read into this buffer.
fn lives(alloc: Global, buffer: &mut [u8]) -> Result<Result<(), LifeError>, Fail> {
    let name = FileName::new(b"x")?;
    let mut files = MemoryFiles::new(alloc, Vec::new(alloc), Vec::new(alloc));
    Ok(store_and_read(&mut files, &usual(), &name, &[1, 2, 3], buffer))
}

#[test]
fn a_whole_life_ends_with_the_bytes(rt: HostRuntime) -> Result<(), Fail> {
    let mut large = [9; 5];
    same(&rt, &lives(rt.alloc(), &mut large)?, &Ok(()));
    same(&rt, &large, &[1, 2, 3, 9, 9]);
    let mut small = [9; 2];
    let short = LifeError::Read(StaticStorageReadError::BufferTooSmall);
    same(&rt, &lives(rt.alloc(), &mut small)?, &Err(short));
    same(&rt, &small, &[9, 9]);
    Ok(())
}

// A caller's proof over files whose lists are empty: no look fails, the second as little as the first.
fn looks_twice(files: &mut MemoryFiles, name: &FilePath) -> Result<Option<bool>, FilesError>
    requires { files.old.fails.items ≡ [] }
    ensures { IsOk result }
{
    files.is_final(name)?;
    files.is_final(name)
}

#[test]
fn looks_that_are_not_listed_succeed(rt: HostRuntime) -> Result<(), Fail> {
    let alloc = rt.alloc();
    let mut files = MemoryFiles::new(alloc, Vec::new(alloc), Vec::new(alloc));
    let path = usual().path_for(&FileName::new(b"x")?);
    same(&rt, &looks_twice(&mut files, &path), &Ok(None));
    Ok(())
}

#[test]
fn a_storage_stopped_anywhere_is_whole_or_not_there(rt: HostRuntime) -> Result<(), Fail> {
    let alloc = rt.alloc();
    let (files, stored) = store(alloc, Vec::new(alloc), Vec::new(alloc))?;
    assert!(rt; stored.is_ok());
    let early = Err(StaticStorageOpenError::InitializationNotYetFinalized);
    let rows = [
        (0, Err(StaticStorageOpenError::DoesNotExist)),
        (1, early),
        (2, early),
        (3, Ok(3)),
    ];
    for (changes, found) in rows {
        let mut stopped = files.stopped(alloc, changes)?;
        same(&rt, &opened(&mut stopped)?, &found);
    }
    Ok(())
}
