//! The holder of a monitored name.
ghost use Rattle.std.specs.Prelude.{◌≡◌, ℕ, List};
ghost use Rattle.board_names.specs.Table.{without, IsFree};
ghost use Rattle.board_monitoring.specs.Monitors.{marked};

use crate::holder::Holder;
use crate::monitoring::MonitoringToken;
use crate::monitors::Monitors;
use board_names::{FileName, NamePlace, NamedConcept};
use std::marker::Model;
use std::sync::Wait;

/// The holder of a monitored name. Clauses see the name and the full name.
#[derive(Drop)]
pub struct Token {
    holder: Holder,
}

impl Model for Token {
    ghost use Rattle.board_names.specs.Concept.{Placed};

    ghost Value = { Placed };

    ghost view = { λ t. t.holder };
}

impl Token {
    pub(crate) fn at(place: NamePlace<Monitors>) -> Token
        ensures { result ≡ place }
    {
        Token {
            holder: Holder::at(place),
        }
    }

    /// `abandon` over the names themselves.
    pub fn abandon_in(self, state: &mut Monitors)
        ensures { state.new ≡ marked state.old self.path }
    {
        self.holder.leave_in(state);
    }

    /// `release` over the names themselves: those in which the name was taken.
    pub fn release_in(self, state: &mut Monitors)
        ensures after { state.new ≡ without state.old self.path }
        ensures gone { IsFree state.new self.path }
    {
        self.holder.release_in(state);
    }
}

impl NamedConcept for Token {
    ghost name_of = { λ t. t.name };

    fn name(&self) -> &FileName {
        self.holder.name()
    }
}

impl MonitoringToken for Token {
    fn abandon<R: Wait>(self, rt: &R) {
        self.holder.leave(rt);
    }

    fn release<R: Wait>(self, rt: &R) {
        self.holder.release(rt);
    }
}
