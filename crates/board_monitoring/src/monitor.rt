//! One who watches a name.
ghost use Rattle.std.specs.Prelude.{◌≡◌, ℕ, List, Ok};
ghost use Rattle.board_names.specs.Table.{at};
ghost use Rattle.board_monitoring.specs.Monitors.{state_of};

use crate::monitoring::{MonitoringMonitor, State};
use crate::monitors::Monitors;
use board_names::{FileName, MonitoringStateError, NamePlace, NamedConcept};
use std::marker::Model;
use std::sync::Wait;

/// One who watches a name. Clauses see the name and the full name.
#[derive(Drop)]
pub struct Monitor {
    place: NamePlace<Monitors>,
}

impl Model for Monitor {
    ghost use Rattle.board_names.specs.Concept.{Placed};

    ghost Value = { Placed };

    ghost view = { λ m. m.place };
}

impl Monitor {
    pub(crate) fn at(place: NamePlace<Monitors>) -> Monitor
        ensures { result ≡ place }
    {
        Monitor { place }
    }

    /// `state` over the names themselves.
    ///
    /// # Errors
    /// None: it is never refused.
    pub fn state_in(&self, state: &mut Monitors) -> Result<State, MonitoringStateError>
        ensures answer { result ≡ Ok (state_of (at state.old self.now.path)) }
        ensures stays { state.new ≡ state.old }
    {
        Ok(state.state(self.place.path()))
    }
}

impl NamedConcept for Monitor {
    ghost name_of = { λ m. m.name };

    fn name(&self) -> &FileName {
        self.place.name()
    }
}

impl MonitoringMonitor for Monitor {
    fn state<R: Wait>(&self, rt: &R) -> Result<State, MonitoringStateError> {
        let mut state = self.place.lock(rt);
        self.state_in(&mut state)
    }
}
