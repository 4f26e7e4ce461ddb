//! How a name is taken, watched or cleaned up after.
ghost use Rattle.std.specs.Prelude.{◌≡◌, ℕ, List, Ok, codes, IfOk, OnOk, OnErr};
ghost use Rattle.board_layout.specs.Answer.{Answers, Refuses};
ghost use Rattle.board_names.specs.Concept.{path_of, placed, starting};
ghost use Rattle.board_names.specs.Table.{putting};
ghost use Rattle.board_names.specs.declared.errors.monitoring.MonitoringCreateTokenError.TheVariants.{OutOfMemory};
ghost use Rattle.board_monitoring.specs.Monitors.{token_of, cleaner_of, claimed};
ghost use Rattle.board_monitoring.specs.TypedCalls.{MayClaim, MayTake};
ghost use Rattle.board_monitoring.specs.declared.monitors.Life.TheVariants.{Alive};

use crate::cleaner::Cleaner;
use crate::monitor::Monitor;
use crate::monitoring::{Monitoring, MonitoringBuilder};
use crate::monitors::{MonitoringRegistry, Monitors};
use crate::process_local_monitoring::ProcessLocalMonitoring;
use crate::token::Token;
use board_names::{
    Configuration, FileName, MonitoringCreateCleanerError, MonitoringCreateMonitorError,
    MonitoringCreateTokenError, NamePlace, NameRequest, NamedConceptBuilder, RegistryError,
};
use std::alloc::Global;
use std::marker::Model;
use std::sync::Wait;

/// A builder of a token, a monitor or a cleaner. Clauses see the name and the configuration.
#[derive(Drop)]
pub struct Builder {
    request: NameRequest<Monitors>,
}

impl Model for Builder {
    ghost use Rattle.board_names.specs.Concept.{Named};

    ghost Value = { Named };

    ghost view = { λ b. b.request };
}

impl Builder {
    /// `token` over the names themselves.
    ///
    /// # Errors
    /// `AlreadyExists` where the name is held; `OutOfMemory`. The names stay as they were.
    pub fn token_in(
        self,
        state: &mut Monitors,
        alloc: Global,
    ) -> Result<Token, MonitoringCreateTokenError>
        ensures answer { Answers result OutOfMemory (token_of self state.old) }
        ensures refused { Refuses result (token_of self state.old) }
        ensures ok { OnOk result (state.new ≡ putting state.old (path_of self) Alive) }
        ensures err { OnErr result (state.new ≡ state.old) }
    {
        let place = self.request.place();
        state.token(place.path())?;
        Ok(Token::at(place))
    }

    /// `cleaner` over the names themselves.
    ///
    /// # Errors
    /// `InstanceStillAlive`, `AlreadyOwnedByAnotherInstance` or `DoesNotExist`, by what stands there.
    pub fn cleaner_in(self, state: &mut Monitors) -> Result<Cleaner, MonitoringCreateCleanerError>
        ensures answer { result ≡ cleaner_of self state.old }
        ensures after { state.new ≡ claimed state.old (path_of self) }
    {
        let place = self.request.place();
        state.cleaner(place.path())?;
        Ok(Cleaner::at(place))
    }
}

fn take<R: Wait>(rt: &R, place: &NamePlace<Monitors>) -> Result<(), MonitoringCreateTokenError>
    ensures { MayTake result }
{
    let mut state = place.lock(rt);
    state.token(place.path())
}

fn claim<R: Wait>(rt: &R, place: &NamePlace<Monitors>) -> Result<(), MonitoringCreateCleanerError>
    ensures { MayClaim result }
{
    let mut state = place.lock(rt);
    state.cleaner(place.path())
}

impl NamedConceptBuilder for Builder {
    type Registry = MonitoringRegistry;

    ghost named = { λ b. b };

    ghost told = { λ _. tt };

    ghost untold = { tt };

    fn new(name: &FileName, registry: &MonitoringRegistry) -> Result<Builder, RegistryError>
        ensures { IfOk result (λ b. b ≡ starting name.now (codes ".monitor")) }
    {
        let suffix = ProcessLocalMonitoring::default_suffix();
        Ok(Builder {
            request: NameRequest::new(name, &suffix, registry)?,
        })
    }

    fn config(mut self, config: &Configuration) -> Builder {
        self.request = self.request.with(config);
        self
    }
}

impl MonitoringBuilder for Builder {
    type Token = Token;

    type Monitor = Monitor;

    type Cleaner = Cleaner;

    fn token<R: Wait>(self, rt: &R, alloc: Global) -> Result<Token, MonitoringCreateTokenError>
        ensures token { IfOk result (λ token. token ≡ placed self) }
        ensures refused { MayTake result }
    {
        let place = self.request.place();
        take(rt, &place)?;
        Ok(Token::at(place))
    }

    fn monitor(self) -> Result<Monitor, MonitoringCreateMonitorError>
        ensures { result ≡ Ok (placed self) }
    {
        Ok(Monitor::at(self.request.place()))
    }

    fn cleaner<R: Wait>(self, rt: &R) -> Result<Cleaner, MonitoringCreateCleanerError>
        ensures cleaner { IfOk result (λ cleaner. cleaner ≡ placed self) }
        ensures refused { MayClaim result }
    {
        let place = self.request.place();
        claim(rt, &place)?;
        Ok(Cleaner::at(place))
    }
}
