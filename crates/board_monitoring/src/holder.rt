//! One who holds a monitored name: what a token and a cleaner have in common.
ghost use Rattle.std.specs.Prelude.{◌≡◌, ℕ, List};
ghost use Rattle.board_names.specs.Table.{without, IsFree};
ghost use Rattle.board_monitoring.specs.Monitors.{marked};

use crate::monitors::Monitors;
use board_names::{FileName, NamePlace, NameTable};
use std::marker::Model;
use std::sync::Wait;

/// One who holds a monitored name. Clauses see the name and the full name.
#[derive(Drop)]
pub(crate) struct Holder {
    place: NamePlace<Monitors>,
}

impl Model for Holder {
    ghost use Rattle.board_names.specs.Concept.{Placed};

    ghost Value = { Placed };

    ghost view = { λ h. h.place };
}

impl Holder {
    pub(crate) fn at(place: NamePlace<Monitors>) -> Holder
        ensures { result ≡ place }
    {
        Holder { place }
    }

    pub(crate) fn name(&self) -> &FileName
        ensures { result.now ≡ self.now.name }
    {
        self.place.name()
    }

    /// Leaves the name dead, where it is still held.
    pub(crate) fn leave_in(&self, state: &mut Monitors)
        ensures { state.new ≡ marked state.old self.now.path }
    {
        let _ = state.mark_dead(self.place.path());
    }

    /// Lets the name go.
    pub(crate) fn release_in(&self, state: &mut Monitors)
        ensures after { state.new ≡ without state.old self.now.path }
        ensures gone { IsFree state.new self.now.path }
    {
        let _ = state.remove(self.place.path());
    }

    /// `leave_in` behind the registry's lock.
    pub(crate) fn leave<R: Wait>(self, rt: &R) {
        let mut state = self.place.lock(rt);
        self.leave_in(&mut state);
    }

    /// `release_in` behind the registry's lock.
    pub(crate) fn release<R: Wait>(self, rt: &R) {
        let mut state = self.place.lock(rt);
        self.release_in(&mut state);
    }
}
