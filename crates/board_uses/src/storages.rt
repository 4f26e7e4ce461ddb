//! Static storages: filled, opened, released and removed by name, and opened while another thread fills one.
use crate::apart::{goes_alone, others};
use crate::same::same;
use board_names::{
    Configuration, FileName, NamedConceptBuilder, NamedConceptConfiguration,
    NamedConceptDoesExistError, NamedConceptMgmt, NamedConceptRemoveError, StaticStorageOpenError,
    StaticStorageUnlockError,
};
use board_store::{
    Builder, Locked, StaticRegistry, StaticStorage, StaticStorageBuilder, StaticStorageLocked,
    Storage,
};
use std::alloc::Global;
use std::process::Abort;
use std::sync::Wait;
use std::test::Fail;
use std::thread;
use std::thread::Threads;
use std::time::{Clock, Duration};

// A storage that is still to be filled, as the builders of `S` make it.
type LockedOf<S> = <<S as StaticStorage>::Builder as StaticStorageBuilder>::Locked;

// A name under a configuration.
#[derive(Clone, Copy)]
struct OneName {
    name: FileName,
    config: Configuration,
    // Whether its builders are told the configuration. They start with the usual one.
    is_told: bool,
}

impl OneName {
    // Under the usual configuration of `S`, which no builder is told.
    fn untold<S: StaticStorage>(name: &[u8]) -> Result<OneName, Fail> {
        Ok(OneName {
            name: FileName::new(name)?,
            config: Configuration::with_suffix(&S::default_suffix()),
            is_told: false,
        })
    }

    fn under(&self, config: &Configuration) -> OneName {
        OneName {
            name: self.name,
            config: *config,
            is_told: true,
        }
    }
}

// The storages of one registry, for code over the traits alone.
#[derive(Drop)]
struct Storages<'a, R, S: StaticStorage> {
    rt: &'a R,
    alloc: Global,
    registry: &'a S::Registry,
}

impl<R: Wait + Abort, S: StaticStorage + Drop> Storages<'_, R, S> {
    fn builder(&self, one: &OneName) -> Result<S::Builder, Fail> {
        let builder = S::Builder::new(&one.name, self.registry)?;
        Ok(if one.is_told {
            builder.config(&one.config)
        } else {
            builder
        })
    }

    fn make(&self, one: &OneName, contents: &[u8]) -> Result<S, Fail> {
        Ok(self.builder(one)?.create(self.rt, self.alloc, contents)?)
    }

    fn lock(&self, one: &OneName) -> Result<LockedOf<S>, Fail> {
        Ok(self.builder(one)?.create_locked(self.rt, self.alloc)?)
    }

    fn fill(&self, locked: LockedOf<S>, contents: &[u8]) -> Result<S, Fail> {
        Ok(locked.unlock(self.rt, self.alloc, contents)?)
    }

    // What is opened has these bytes: so many, which stand in the front of three.
    fn open(&self, one: &OneName, wanted: (u64, [u8; 3])) -> Result<S, Fail> {
        let storage = self.builder(one)?.open(self.rt, 0)?;
        let mut bytes = [0u8; 3];
        storage.read(&mut bytes)?;
        same(self.rt, &(storage.len(), bytes), &wanted);
        Ok(storage)
    }

    fn find(&self, one: &OneName) -> Result<bool, NamedConceptDoesExistError> {
        S::does_exist_cfg(self.rt, self.registry, &one.name, &one.config)
    }

    fn remove(&self, one: &OneName) -> Result<bool, NamedConceptRemoveError> {
        S::remove_cfg(self.rt, self.registry, &one.name, &one.config)
    }

    // A name is there once its storage is filled.
    fn is_filled(&self, one: &OneName) -> Result<(), Fail> {
        let absent = self.find(one);
        let locked = self.lock(one)?;
        let early = self.find(one);
        let _storage = self.fill(locked, &[4, 5])?;
        let set_up = NamedConceptDoesExistError::UnderlyingResourcesBeingSetUp;
        same(
            self.rt,
            &[absent, early, self.find(one)],
            &[Ok(false), Err(set_up), Ok(true)],
        );
        Ok(())
    }

    // What is opened has the bytes that were written, and gives up a name that it owns.
    fn is_opened_and_released(&self, one: &OneName) -> Result<(), Fail> {
        let mut storage = self.open(one, (2, [4, 5, 0]))?;
        storage.acquire_ownership();
        storage.release(self.rt);
        same(self.rt, &self.find(one), &Ok(false));
        Ok(())
    }

    // A name is removed once, and then nobody opens it.
    fn is_removed(&self, one: &OneName) -> Result<(), Fail> {
        let _made = self.make(one, &[6])?;
        let removed = [self.remove(one), self.remove(one)];
        same(self.rt, &removed, &[Ok(true), Ok(false)]);
        let gone = self.builder(one)?.open(self.rt, 0).err();
        same(self.rt, &gone, &Some(StaticStorageOpenError::DoesNotExist));
        Ok(())
    }

    // These two have their bytes, and no other name is there.
    fn are_alone(&self, (before, behind): (&OneName, &OneName)) -> Result<(), Fail> {
        let names = S::list_cfg(self.rt, self.alloc, self.registry, &before.config)?;
        same(
            self.rt,
            &names.as_slice(),
            &[before.name, behind.name].as_slice(),
        );
        let _before = self.open(before, (1, [1, 0, 0]))?;
        let _behind = self.open(behind, (3, [2, 3, 6]))?;
        Ok(())
    }

    // What is filled is opened, and let go.
    fn is_filled_and_let_go(&self, one: &OneName) -> Result<(), Fail> {
        let locked = self.lock(one)?;
        let _filled = self.fill(locked, &[4, 5])?;
        self.open(one, (2, [4, 5, 0]))?.release(self.rt);
        Ok(())
    }

    // And what is made at once is opened.
    fn is_made(&self, one: &OneName) -> Result<(), Fail> {
        let _made = self.make(one, &[6])?;
        let _opened = self.open(one, (1, [6, 0, 0]))?;
        Ok(())
    }

    // A name has a storage of its own under this configuration, which goes alone.
    fn is_apart(&self, usual: &OneName, other: &Configuration) -> Result<(), Fail> {
        let one = usual.under(other);
        self.is_filled_and_let_go(&one)?;
        self.is_made(&one)?;
        let both = (&usual.config, other);
        goes_alone::<_, S>(self.rt, self.alloc, self.registry, &one.name, both)
    }
}

#[test]
fn any_static_storage_is_used_by_the_traits(rt: HostRuntime) -> Result<(), Fail> {
    let registry = StaticRegistry::new(rt.alloc())?;
    let storages = Storages::<_, Storage> {
        rt: &rt,
        alloc: rt.alloc(),
        registry: &registry,
    };
    let (before, behind) = (
        OneName::untold::<Storage>(b"y")?,
        OneName::untold::<Storage>(b"zz")?,
    );
    let _first = storages.make(&before, &[1])?;
    let _last = storages.make(&behind, &[2, 3, 6])?;
    let one = OneName::untold::<Storage>(b"z")?;
    storages.is_filled(&one)?;
    storages.is_opened_and_released(&one)?;
    storages.is_removed(&one)?;
    storages.are_alone((&before, &behind))
}

#[test]
fn storages_of_one_name_differ_by_their_configuration(rt: HostRuntime) -> Result<(), Fail> {
    let registry = StaticRegistry::new(rt.alloc())?;
    let storages = Storages::<_, Storage> {
        rt: &rt,
        alloc: rt.alloc(),
        registry: &registry,
    };
    let untold = OneName::untold::<Storage>(b"z")?;
    let usual = untold.under(&untold.config);
    let _made = storages.make(&usual, &[1, 2, 3])?;
    for other in others(&Storage::default_suffix())? {
        storages.is_apart(&usual, &other)?;
    }
    let _opened = storages.open(&usual, (3, [1, 2, 3]))?;
    Ok(())
}

fn unlock_late<R: Wait + Clock>(
    rt: &R,
    alloc: Global,
    locked: Locked,
) -> Result<Storage, StaticStorageUnlockError> {
    let _ = thread::sleep(rt, Duration::from_millis(50));
    locked.unlock(rt, alloc, &[1, 2, 3])
}

// One thread looks again and again while the other one fills the storage.
fn opens_while_it_is_filled<R: Threads + Wait + Clock + Sync>(
    rt: &R,
    alloc: Global,
    opener: Builder,
    locked: Locked,
) -> Result<Storage, StaticStorageOpenError> {
    let (opened, _filled) = thread::join(
        rt,
        move || opener.open(rt, u32::MAX),
        move || unlock_late(rt, alloc, locked),
    );
    opened
}

#[test]
fn open_looks_until_it_is_filled(rt: HostRuntime) -> Result<(), Fail> {
    let alloc = rt.alloc();
    let registry = StaticRegistry::new(alloc)?;
    let name = FileName::new(b"x")?;
    let locked = Builder::new(&name, &registry)?.create_locked(&rt, alloc)?;
    let opener = Builder::new(&name, &registry)?;
    let storage = opens_while_it_is_filled(&rt, alloc, opener, locked)?;
    let mut bytes = [9u8; 4];
    same(&rt, &storage.read(&mut bytes), &Ok(()));
    same(&rt, &bytes, &[1, 2, 3, 9]);
    Ok(())
}
