//! Monitoring by the typed calls, of which their clauses say little, and once by the lent forms.
ghost use Rattle.std.specs.Prelude.{IsOkUnless};
ghost use Rattle.board_names.specs.declared.errors.monitoring.MonitoringCreateTokenError.TheVariants.{OutOfMemory};

use crate::apart::{goes_alone, others};
use crate::same::same;
use board_monitoring::{
    Builder, Cleaner, Monitor, Monitoring, MonitoringBuilder, MonitoringCleaner, MonitoringMonitor,
    MonitoringRegistry, MonitoringToken, Monitors, ProcessLocalMonitoring, State, Token,
};
use board_names::{
    Configuration, FileName, FilePath, MonitoringCreateCleanerError, MonitoringCreateTokenError,
    NameTable, NamedConcept, NamedConceptBuilder, NamedConceptConfiguration, NamedConceptMgmt,
};
use std::alloc::Global;
use std::process::Abort;
use std::sync::Wait;
use std::test::Fail;

fn names(registry: &MonitoringRegistry) -> Result<Builder, Fail> {
    Ok(Builder::new(&FileName::new(b"t")?, registry)?)
}

fn monitored() -> Configuration {
    Configuration::with_suffix(&ProcessLocalMonitoring::default_suffix())
}

fn is_listed<R: Wait + Abort>(
    rt: &R,
    alloc: Global,
    registry: &MonitoringRegistry,
) -> Result<(), Fail> {
    let listed = ProcessLocalMonitoring::list_cfg(rt, alloc, registry, &monitored())?;
    same(rt, &listed.as_slice(), &[FileName::new(b"t")?].as_slice());
    Ok(())
}

// The name is held, and gets no second token.
fn is_not_taken<R: Wait + Abort>(
    rt: &R,
    alloc: Global,
    registry: &MonitoringRegistry,
) -> Result<(), Fail> {
    let again = names(registry)?.token(rt, alloc);
    same(
        rt,
        &again.err(),
        &Some(MonitoringCreateTokenError::AlreadyExists),
    );
    Ok(())
}

fn lives<R: Wait + Abort>(
    rt: &R,
    alloc: Global,
    registry: &MonitoringRegistry,
) -> Result<(), Fail> {
    is_not_taken(rt, alloc, registry)?;
    let early = names(registry)?.cleaner(rt);
    same(
        rt,
        &early.err(),
        &Some(MonitoringCreateCleanerError::InstanceStillAlive),
    );
    same(
        rt,
        &names(registry)?.monitor()?.state(rt),
        &Ok(State::Alive),
    );
    Ok(())
}

// The name has a cleaner, and gets no second one.
fn is_owned<R: Wait + Abort>(rt: &R, registry: &MonitoringRegistry) -> Result<(), Fail> {
    let second = names(registry)?.cleaner(rt);
    same(
        rt,
        &second.err(),
        &Some(MonitoringCreateCleanerError::AlreadyOwnedByAnotherInstance),
    );
    Ok(())
}

// It is seen dead, and is still held.
fn is_dead<R: Wait + Abort>(
    rt: &R,
    alloc: Global,
    registry: &MonitoringRegistry,
) -> Result<(), Fail> {
    same(rt, &names(registry)?.monitor()?.state(rt), &Ok(State::Dead));
    is_not_taken(rt, alloc, registry)
}

fn dies<R: Wait + Abort>(rt: &R, alloc: Global, registry: &MonitoringRegistry) -> Result<(), Fail> {
    let t = FileName::new(b"t")?;
    same(rt, names(registry)?.monitor()?.name(), &t);
    is_dead(rt, alloc, registry)?;
    let cleaner = names(registry)?.cleaner(rt)?;
    is_owned(rt, registry)?;
    is_owned(rt, registry)?;
    is_dead(rt, alloc, registry)?;
    cleaner.relinquish(rt);
    is_dead(rt, alloc, registry)
}

fn goes<R: Wait + Abort>(rt: &R, registry: &MonitoringRegistry) -> Result<(), Fail> {
    names(registry)?.cleaner(rt)?.release(rt);
    let late = names(registry)?.cleaner(rt);
    same(
        rt,
        &late.err(),
        &Some(MonitoringCreateCleanerError::DoesNotExist),
    );
    Ok(())
}

#[test]
fn a_name_lives_dies_and_goes(rt: HostRuntime) -> Result<(), Fail> {
    let registry = MonitoringRegistry::new(rt.alloc())?;
    let token = names(&registry)?.token(&rt, rt.alloc())?;
    same(&rt, token.name(), &FileName::new(b"t")?);
    is_listed(&rt, rt.alloc(), &registry)?;
    is_listed(&rt, rt.alloc(), &registry.share()?)?;
    lives(&rt, rt.alloc(), &registry)?;
    token.abandon(&rt);
    dies(&rt, rt.alloc(), &registry)?;
    goes(&rt, &registry)
}

// Two names that are held, the second first.
fn two_names<R: Wait>(
    rt: &R,
    alloc: Global,
    registry: &MonitoringRegistry,
) -> Result<(Token, Token), Fail> {
    let second = names(registry)?.token(rt, alloc)?;
    let first = Builder::new(&FileName::new(b"s")?, registry)?.token(rt, alloc)?;
    Ok((first, second))
}

fn lists_both<R: Wait + Abort>(
    rt: &R,
    alloc: Global,
    registry: &MonitoringRegistry,
) -> Result<(), Fail> {
    let both = [FileName::new(b"s")?, FileName::new(b"t")?];
    let listed = ProcessLocalMonitoring::list_cfg(rt, alloc, registry, &monitored())?;
    same(rt, &listed.as_slice(), &both.as_slice());
    Ok(())
}

#[test]
fn names_are_listed(rt: HostRuntime) -> Result<(), Fail> {
    let registry = MonitoringRegistry::new(rt.alloc())?;
    let _both = two_names(&rt, rt.alloc(), &registry)?;
    lists_both(&rt, rt.alloc(), &registry)
}

// The one name of a lent table is listed, and then it is left.
fn is_left<R: Abort>(
    rt: &R,
    alloc: Global,
    registry: &MonitoringRegistry,
    state: &mut Monitors,
) -> Result<(), Fail> {
    let token = names(registry)?.token_in(state, alloc)?;
    let listed = ProcessLocalMonitoring::list_cfg_in(state, alloc, &monitored())?;
    same(rt, &listed.as_slice(), &[FileName::new(b"t")?].as_slice());
    token.abandon_in(state);
    Ok(())
}

#[test]
fn a_name_is_taken_when_lent(rt: HostRuntime) -> Result<(), Fail> {
    let registry = MonitoringRegistry::new(rt.alloc())?;
    let mut state = Monitors::new(rt.alloc());
    is_left(&rt, rt.alloc(), &registry, &mut state)?;
    names(&registry)?
        .cleaner_in(&mut state)?
        .relinquish_in(&mut state);
    names(&registry)?
        .cleaner_in(&mut state)?
        .release_in(&mut state);
    same(&rt, &state.name_at(0), &None);
    Ok(())
}

// A name of any monitoring, for code over the trait alone.
#[derive(Drop)]
struct Named<'a, R, M: Monitoring> {
    rt: &'a R,
    alloc: Global,
    registry: &'a M::Registry,
    name: &'a FileName,
}

impl<R: Wait + Abort, M: Monitoring> Named<'_, R, M>
where
    M::Token: Drop,
    M::Monitor: Drop,
{
    fn builder(&self) -> Result<M::Builder, Fail> {
        Ok(M::Builder::new(self.name, self.registry)?)
    }

    // It is taken and seen alive, until it is let go.
    fn is_taken_and_released(&self) -> Result<(), Fail> {
        let token = self.builder()?.token(self.rt, self.alloc)?;
        let monitor = self.builder()?.monitor()?;
        let alive = monitor.state(self.rt);
        token.release(self.rt);
        same(
            self.rt,
            &(alive, monitor.state(self.rt)),
            &(Ok(State::Alive), Ok(State::DoesNotExist)),
        );
        Ok(())
    }

    // It is left and dead, also after its cleaner gave up.
    fn is_left_dead(&self) -> Result<(), Fail> {
        let token = self.builder()?.token(self.rt, self.alloc)?;
        token.abandon(self.rt);
        let cleaner = self.builder()?.cleaner(self.rt)?;
        cleaner.relinquish(self.rt);
        let monitor = self.builder()?.monitor()?;
        same(self.rt, &monitor.state(self.rt), &Ok(State::Dead));
        Ok(())
    }

    // It is gone once the dead was cleaned up.
    fn is_cleaned_up(&self) -> Result<(), Fail> {
        self.builder()?.cleaner(self.rt)?.release(self.rt);
        let monitor = self.builder()?.monitor()?;
        same(self.rt, &monitor.state(self.rt), &Ok(State::DoesNotExist));
        Ok(())
    }

    // It is there until it is removed, once.
    fn is_removed(&self) -> Result<(), Fail> {
        let (rt, registry, name) = (self.rt, self.registry, self.name);
        let config = Configuration::with_suffix(&M::default_suffix());
        let token = self.builder()?.token(rt, self.alloc)?;
        let before = M::does_exist_cfg(rt, registry, name, &config);
        let first = M::remove_cfg(rt, registry, name, &config);
        let second = M::remove_cfg(rt, registry, name, &config);
        token.abandon(rt);
        let after = M::does_exist_cfg(rt, registry, name, &config);
        same(rt, &(before, after), &(Ok(true), Ok(false)));
        same(rt, &(first, second), &(Ok(true), Ok(false)));
        Ok(())
    }
}

// The token of another name is left alone.
fn stays_alive<R: Wait + Abort>(rt: &R, registry: &MonitoringRegistry) -> Result<(), Fail> {
    let monitor = Builder::new(&FileName::new(b"u")?, registry)?.monitor()?;
    same(rt, &monitor.state(rt), &Ok(State::Alive));
    Ok(())
}

#[test]
fn any_monitoring_is_used_by_the_traits(rt: HostRuntime) -> Result<(), Fail> {
    let (alloc, name) = (rt.alloc(), FileName::new(b"t")?);
    let registry = MonitoringRegistry::new(alloc)?;
    let stranger = Builder::new(&FileName::new(b"u")?, &registry)?.token(&rt, alloc)?;
    let named = Named::<_, ProcessLocalMonitoring> {
        rt: &rt,
        alloc,
        registry: &registry,
        name: &name,
    };
    named.is_taken_and_released()?;
    stays_alive(&rt, &registry)?;
    named.is_left_dead()?;
    named.is_cleaned_up()?;
    stays_alive(&rt, &registry)?;
    named.is_removed()?;
    stays_alive(&rt, &registry)?;
    stranger.release(&rt);
    Ok(())
}

// Code over the trait alone: the name dies and goes under this configuration, and the stranger is seen alive.
fn dies_apart<R: Wait + Abort, M: Monitoring>(
    rt: &R,
    alloc: Global,
    registry: &M::Registry,
    (name, config): (&FileName, &Configuration),
    stranger: &M::Monitor,
) -> Result<(), Fail>
where
    M::Monitor: Drop,
{
    let builder = M::Builder::new(name, registry)?.config(config);
    builder.token(rt, alloc)?.abandon(rt);
    let monitor = M::Builder::new(name, registry)?.config(config).monitor()?;
    let dead = (monitor.state(rt), stranger.state(rt));
    let builder = M::Builder::new(name, registry)?.config(config);
    builder.cleaner(rt)?.release(rt);
    let gone = (monitor.state(rt), stranger.state(rt));
    same(rt, &dead, &(Ok(State::Dead), Ok(State::Alive)));
    same(rt, &gone, &(Ok(State::DoesNotExist), Ok(State::Alive)));
    Ok(())
}

// A name that is held under both configurations goes under the other one alone.
fn goes_apart<R: Wait + Abort>(
    rt: &R,
    alloc: Global,
    registry: &MonitoringRegistry,
    other: &Configuration,
) -> Result<(), Fail> {
    let t = FileName::new(b"t")?;
    let _token = names(registry)?.config(other).token(rt, alloc)?;
    let both = (&monitored(), other);
    goes_alone::<_, ProcessLocalMonitoring>(rt, alloc, registry, &t, both)
}

// The name has a life of its own under each configuration.
fn live_apart<R: Wait + Abort>(
    rt: &R,
    alloc: Global,
    registry: &MonitoringRegistry,
    stranger: &Monitor,
) -> Result<(), Fail> {
    let t = FileName::new(b"t")?;
    for other in others(&ProcessLocalMonitoring::default_suffix())? {
        dies_apart::<_, ProcessLocalMonitoring>(rt, alloc, registry, (&t, &other), stranger)?;
        goes_apart(rt, alloc, registry, &other)?;
    }
    Ok(())
}

#[test]
fn lives_of_one_name_differ_by_their_configuration(rt: HostRuntime) -> Result<(), Fail> {
    let registry = MonitoringRegistry::new(rt.alloc())?;
    let usual = monitored();
    let _token = names(&registry)?.config(&usual).token(&rt, rt.alloc())?;
    let monitor = names(&registry)?.config(&usual).monitor()?;
    live_apart(&rt, rt.alloc(), &registry, &monitor)
}

// A caller's proof over names that were lent, whoever took them: a removed name can be taken, want of memory aside.
fn takes_a_removed_name(
    state: &mut Monitors,
    name: &FilePath,
) -> Result<(), MonitoringCreateTokenError>
    ensures { IsOkUnless result OutOfMemory }
{
    state.remove(name);
    state.token(name)
}

fn sent<T: Send>(value: T) -> T {
    value
}

fn are_sent(token: Token, monitor: Monitor, cleaner: Cleaner) -> (Token, Monitor, Cleaner) {
    (sent(token), sent(monitor), sent(cleaner))
}
