//! Static storage by the typed calls, of which their clauses say little, and once by the lent forms.
ghost use Rattle.std.specs.Prelude.{IsOkUnless};
ghost use Rattle.board_names.specs.Table.{NamesAscend};
ghost use Rattle.board_names.specs.declared.errors.static_storage.StaticStorageCreateError.TheVariants.{OutOfMemory};

use crate::same::same;
use board_names::{
    Configuration, FileName, FilePath, NameTable, NamedConcept, NamedConceptBuilder,
    NamedConceptConfiguration, NamedConceptDoesExistError, NamedConceptMgmt,
    StaticStorageCreateError, StaticStorageOpenError, StaticStorageReadError,
    StaticStorageUnlockError,
};
use board_store::{
    Builder, Locked, StaticRegistry, StaticStorage, StaticStorageBuilder, StaticStorageLocked,
    Statics, Storage,
};
use std::alloc::Global;
use std::process::Abort;
use std::sync::Wait;
use std::test::Fail;

fn builder(value: &[u8], registry: &StaticRegistry) -> Result<Builder, Fail> {
    let name = FileName::new(value)?;
    Ok(Builder::new(&name, registry)?)
}

fn usual() -> Configuration {
    Configuration::with_suffix(&Storage::default_suffix())
}

fn exists<R: Wait>(
    rt: &R,
    value: &[u8],
    registry: &StaticRegistry,
) -> Result<Result<bool, NamedConceptDoesExistError>, Fail> {
    let name = FileName::new(value)?;
    Ok(Storage::does_exist_cfg(rt, registry, &name, &usual()))
}

fn shows_its_bytes<R: Abort>(rt: &R, storage: &Storage) {
    same(rt, &storage.len(), &3);
    assert!(rt; !storage.is_empty());
    let mut small = [0u8; 2];
    same(
        rt,
        &storage.read(&mut small),
        &Err(StaticStorageReadError::BufferTooSmall),
    );
    let mut large = [9u8; 5];
    same(rt, &storage.read(&mut large), &Ok(()));
    same(rt, &large, &[1, 2, 3, 9, 9]);
}

fn locks<R: Wait + Abort>(
    rt: &R,
    alloc: Global,
    registry: &StaticRegistry,
) -> Result<Locked, Fail> {
    let locked = builder(b"x", registry)?.create_locked(rt, alloc)?;
    let again = builder(b"x", registry)?.create_locked(rt, alloc);
    same(
        rt,
        &again.err(),
        &Some(StaticStorageCreateError::AlreadyExists),
    );
    Ok(locked)
}

fn is_being_set_up<R: Wait + Abort>(rt: &R, registry: &StaticRegistry) -> Result<(), Fail> {
    same(
        rt,
        &exists(rt, b"x", registry)?,
        &Err(NamedConceptDoesExistError::UnderlyingResourcesBeingSetUp),
    );
    Ok(())
}

fn is_listed<R: Wait + Abort>(
    rt: &R,
    alloc: Global,
    registry: &StaticRegistry,
) -> Result<(), Fail> {
    let names = Storage::list_cfg(rt, alloc, registry, &usual())?;
    same(rt, &names.as_slice(), &[FileName::new(b"x")?].as_slice());
    Ok(())
}

fn early<R: Wait + Abort>(rt: &R, alloc: Global, registry: &StaticRegistry) -> Result<(), Fail> {
    is_being_set_up(rt, &registry.share()?)?;
    is_listed(rt, alloc, registry)?;
    let early = builder(b"x", registry)?.open(rt, 2);
    same(
        rt,
        &early.err(),
        &Some(StaticStorageOpenError::InitializationNotYetFinalized),
    );
    Ok(())
}

fn is_opened<R: Wait + Abort>(rt: &R, registry: &StaticRegistry) -> Result<(), Fail> {
    let opened = builder(b"x", registry)?.open(rt, 0)?;
    shows_its_bytes(rt, &opened);
    Ok(())
}

// A storage that is filled isn't made anew, and keeps its bytes.
fn stays<R: Wait + Abort>(rt: &R, alloc: Global, registry: &StaticRegistry) -> Result<(), Fail> {
    let again = builder(b"x", registry)?.create(rt, alloc, &[9]);
    same(
        rt,
        &again.err(),
        &Some(StaticStorageCreateError::AlreadyExists),
    );
    let locked = builder(b"x", registry)?.create_locked(rt, alloc);
    same(
        rt,
        &locked.err(),
        &Some(StaticStorageCreateError::AlreadyExists),
    );
    is_opened(rt, registry)
}

// An absent name isn't waited for: so many looks would never end.
fn late<R: Wait + Abort>(rt: &R, alloc: Global, registry: &StaticRegistry) -> Result<(), Fail> {
    let gone = builder(b"x", registry)?.open(rt, u32::MAX);
    same(rt, &gone.err(), &Some(StaticStorageOpenError::DoesNotExist));
    let empty = builder(b"x", registry)?.create(rt, alloc, &[])?;
    assert!(rt; empty.is_empty());
    lets_go(rt, alloc, registry)
}

// A storage that was never filled is let go with its name, and the other name stays.
fn lets_go<R: Wait + Abort>(rt: &R, alloc: Global, registry: &StaticRegistry) -> Result<(), Fail> {
    let other = builder(b"y", registry)?.create_locked(rt, alloc)?;
    same(rt, other.name(), &FileName::new(b"y")?);
    other.release(rt);
    same(rt, &exists(rt, b"y", registry)?, &Ok(false));
    same(rt, &exists(rt, b"x", registry)?, &Ok(true));
    Ok(())
}

// Two storages whose names are held, the second name first.
fn two_names<R: Wait>(
    rt: &R,
    alloc: Global,
    registry: &StaticRegistry,
) -> Result<(Locked, Locked), Fail> {
    let second = builder(b"y", registry)?.create_locked(rt, alloc)?;
    let first = builder(b"x", registry)?.create_locked(rt, alloc)?;
    Ok((first, second))
}

fn lists_both<R: Wait + Abort>(
    rt: &R,
    alloc: Global,
    registry: &StaticRegistry,
) -> Result<(), Fail> {
    let both = [FileName::new(b"x")?, FileName::new(b"y")?];
    let names = Storage::list_cfg(rt, alloc, registry, &usual())?;
    same(rt, &names.as_slice(), &both.as_slice());
    Ok(())
}

#[test]
fn storages_are_listed(rt: HostRuntime) -> Result<(), Fail> {
    let registry = StaticRegistry::new(rt.alloc())?;
    let _both = two_names(&rt, rt.alloc(), &registry)?;
    lists_both(&rt, rt.alloc(), &registry)
}

#[test]
fn a_storage_is_filled_once(rt: HostRuntime) -> Result<(), Fail> {
    let alloc = rt.alloc();
    let registry = StaticRegistry::new(alloc)?;
    let locked = locks(&rt, alloc, &registry)?;
    early(&rt, alloc, &registry)?;
    let storage = locked.unlock(&rt, alloc, &[1, 2, 3])?;
    shows_its_bytes(&rt, &storage);
    stays(&rt, alloc, &registry)?;
    storage.release(&rt);
    late(&rt, alloc, &registry)
}

#[test]
fn storages_are_made_when_lent(rt: HostRuntime) -> Result<(), Fail> {
    let alloc = rt.alloc();
    let registry = StaticRegistry::new(alloc)?;
    let mut state = Statics::new(alloc);
    let locked = builder(b"x", &registry)?.create_locked_in(&mut state, alloc)?;
    let _filled = locked.unlock_in(&mut state, alloc, &[1, 2, 3])?;
    let opened = builder(b"x", &registry)?.open_in(&mut state)?;
    shows_its_bytes(&rt, &opened);
    Ok(())
}

#[test]
fn storages_are_listed_when_lent(rt: HostRuntime) -> Result<(), Fail> {
    let alloc = rt.alloc();
    let registry = StaticRegistry::new(alloc)?;
    let mut state = Statics::new(alloc);
    let made = builder(b"y", &registry)?.create_in(&mut state, alloc, &[])?;
    assert!(rt; made.is_empty());
    let names = Storage::list_cfg_in(&mut state, alloc, &usual())?;
    same(&rt, &names.as_slice(), &[FileName::new(b"y")?].as_slice());
    Ok(())
}

fn opened<R: Wait>(rt: &R, alloc: Global, registry: &StaticRegistry) -> Result<Storage, Fail> {
    let _made = builder(b"x", registry)?.create(rt, alloc, &[1, 2, 3])?;
    Ok(builder(b"x", registry)?.open(rt, 0)?)
}

#[test]
fn a_storage_stays_where_it_is_not_owned(rt: HostRuntime) -> Result<(), Fail> {
    let alloc = rt.alloc();
    let registry = StaticRegistry::new(alloc)?;
    let mut storage = opened(&rt, alloc, &registry)?;
    same(&rt, storage.name(), &FileName::new(b"x")?);
    storage.release_ownership();
    storage.release(&rt);
    same(&rt, &exists(&rt, b"x", &registry)?, &Ok(true));
    Ok(())
}

// A storage of this configuration isn't there under the usual one, and keeps its name, which it doesn't own.
fn is_apart<R: Wait + Abort>(
    rt: &R,
    alloc: Global,
    registry: &StaticRegistry,
    other: &Configuration,
) -> Result<(), Fail> {
    let locked = builder(b"x", registry)?
        .config(other)
        .has_ownership(false)
        .create_locked(rt, alloc)?;
    same(rt, &exists(rt, b"x", registry)?, &Ok(false));
    locked.release(rt);
    Ok(())
}

#[test]
fn names_and_configurations_differ(rt: HostRuntime) -> Result<(), Fail> {
    let alloc = rt.alloc();
    let registry = StaticRegistry::new(alloc)?;
    let other = Configuration::with_suffix(&FileName::new(b".other")?);
    is_apart(&rt, alloc, &registry, &other)?;
    let taken = builder(b"x", &registry)?
        .config(&other)
        .create(&rt, alloc, &[]);
    same(
        &rt,
        &taken.err(),
        &Some(StaticStorageCreateError::AlreadyExists),
    );
    Ok(())
}

// A locked storage whose name is gone.
fn removed<R: Wait + Abort>(
    rt: &R,
    alloc: Global,
    registry: &StaticRegistry,
) -> Result<Locked, Fail> {
    let locked = builder(b"x", registry)?.create_locked(rt, alloc)?;
    let x = FileName::new(b"x")?;
    same(
        rt,
        &Storage::remove_cfg(rt, registry, &x, &usual()),
        &Ok(true),
    );
    Ok(locked)
}

fn is_not_unlocked<R: Wait + Abort>(rt: &R, alloc: Global, locked: Locked) {
    let gone = locked.unlock(rt, alloc, &[9]);
    same(
        rt,
        &gone.err(),
        &Some(StaticStorageUnlockError::InternalError),
    );
}

#[test]
fn what_is_gone_is_not_unlocked(rt: HostRuntime) -> Result<(), Fail> {
    let alloc = rt.alloc();
    let registry = StaticRegistry::new(alloc)?;
    let locked = removed(&rt, alloc, &registry)?;
    is_not_unlocked(&rt, alloc, locked);
    same(&rt, &exists(&rt, b"x", &registry)?, &Ok(false));
    Ok(())
}

#[test]
fn what_another_made_anew_is_not_unlocked(rt: HostRuntime) -> Result<(), Fail> {
    let alloc = rt.alloc();
    let registry = StaticRegistry::new(alloc)?;
    let locked = removed(&rt, alloc, &registry)?;
    let _anew = builder(b"x", &registry)?.create(&rt, alloc, &[1, 2, 3])?;
    is_not_unlocked(&rt, alloc, locked);
    is_opened(&rt, &registry)
}

fn sent<T: Send>(value: T) -> T {
    value
}

fn are_sent(builder: Builder, locked: Locked, storage: Storage) -> (Builder, Locked, Storage) {
    (sent(builder), sent(locked), sent(storage))
}

// A caller's proof over storages that were lent, whoever filled them: a removed name can be taken, want of memory aside.
fn takes_a_removed_name(
    state: &mut Statics,
    name: &FilePath,
) -> Result<(), StaticStorageCreateError>
    ensures { IsOkUnless result OutOfMemory }
{
    state.remove(name);
    state.create_locked(name)
}

// And their names ascend, so they differ.
fn count_of_names(state: &Statics) -> usize
    ensures { NamesAscend state.now }
{
    state.name_count()
}

#[test]
fn a_removed_name_is_taken_again(rt: HostRuntime) -> Result<(), Fail> {
    let mut state = Statics::new(rt.alloc());
    let name = usual().path_for(&FileName::new(b"x")?);
    same(&rt, &state.create_locked(&name), &Ok(()));
    same(&rt, &takes_a_removed_name(&mut state, &name), &Ok(()));
    same(
        &rt,
        &(count_of_names(&state), state.name_at(0)),
        &(1, Some(name)),
    );
    Ok(())
}
