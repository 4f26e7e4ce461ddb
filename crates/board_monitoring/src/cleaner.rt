//! One who cleans up after a dead name.
ghost use Rattle.std.specs.Prelude.{◌≡◌, ℕ, List};
ghost use Rattle.board_names.specs.Table.{without, IsFree};
ghost use Rattle.board_monitoring.specs.Monitors.{marked};

use crate::holder::Holder;
use crate::monitoring::MonitoringCleaner;
use crate::monitors::Monitors;
use board_names::{FileName, NamePlace, NamedConcept};
use std::marker::Model;
use std::sync::Wait;

/// One who cleans up after a dead name. Clauses see the name and the full name.
#[derive(Drop)]
pub struct Cleaner {
    holder: Holder,
}

impl Model for Cleaner {
    ghost use Rattle.board_names.specs.Concept.{Placed};

    ghost Value = { Placed };

    ghost view = { λ t. t.holder };
}

impl Cleaner {
    pub(crate) fn at(place: NamePlace<Monitors>) -> Cleaner
        ensures { result ≡ place }
    {
        Cleaner {
            holder: Holder::at(place),
        }
    }

    /// `relinquish` over the names themselves.
    pub fn relinquish_in(self, state: &mut Monitors)
        ensures { state.new ≡ marked state.old self.path }
    {
        self.holder.leave_in(state);
    }

    /// `release` over the names themselves: those in which the name was taken.
    pub fn release_in(self, state: &mut Monitors)
        ensures after { state.new ≡ without state.old self.path }
        ensures gone { IsFree state.new self.path }
    {
        self.holder.release_in(state);
    }
}

impl NamedConcept for Cleaner {
    ghost name_of = { λ t. t.name };

    fn name(&self) -> &FileName {
        self.holder.name()
    }
}

impl MonitoringCleaner for Cleaner {
    fn relinquish<R: Wait>(self, rt: &R) {
        self.holder.leave(rt);
    }

    fn release<R: Wait>(self, rt: &R) {
        self.holder.release(rt);
    }
}
