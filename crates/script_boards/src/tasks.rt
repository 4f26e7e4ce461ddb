//! The calls that run, by their parties.
ghost use Rattle.std.specs.Prelude.{◌≡◌, IsSomeAnd, None, OnErr, OnOk, Some, if◌then◌else◌, List, option_map, ℕ};
ghost use Rattle.std.specs.HashMap.{IsUnchanged};
ghost use Rattle.std.specs.Str.{bytes_eq};
ghost use Rattle.script_boards.specs.Machine.{task_in};
ghost use Rattle.script_boards.specs.Steps.{CanGoOn, HasHeard, HasTicked};

use crate::machine::Task;
use board_cell::Progress;
use board_model::Name;
use std::alloc::{AllocError, Global};
use std::collections::HashMap;

// At most this many places are kept for calls that don't run: what a script takes doesn't grow with the parties that it had.
const MOST_KEPT: usize = 64;

/// What the call of a party has still to do, for each party that runs one, and for each that is gone. The place of a call
/// that ended stays for the party's next one, as long as there are few, so that neither moves anything.
#[derive(Drop)]
pub(crate) struct PartyTasks {
    pub(crate) places: HashMap<Name, Option<Task>>,
}

impl PartyTasks {
    /// No calls. Takes no memory.
    pub(crate) fn new(alloc: Global) -> PartyTasks
        ensures { (p : List ℕ) → task_in result p ≡ None }
    {
        PartyTasks {
            places: HashMap::new(alloc),
        }
    }

    /// What the party's call has still to do, where one runs.
    #[inline(always)]
    pub(crate) fn get(&self, party: &Name) -> Option<&Task>
        ensures { option_map (λ t. t.now) result ≡ task_in self.now party.now }
    {
        match self.places.get(party) {
            Some(Some(task)) => Some(task),
            _ => None,
        }
    }

    /// The party has the task from now on.
    ///
    /// # Errors
    /// `AllocError` where memory is refused: only for a party that had none. Nothing changes then.
    #[inline(always)]
    pub(crate) fn put(&mut self, party: Name, task: Task) -> Result<(), AllocError>
        ensures put { OnOk result ((p : List ℕ) → task_in self.new p
            ≡ (if bytes_eq party p then Some task else task_in self.old p)) }
        ensures absent { OnErr result (task_in self.old party ≡ None) }
        ensures same { OnErr result (IsUnchanged self.old.places self.new.places) }
    {
        let _ = self.places.insert(party, Some(task))?;
        Ok(())
    }

    /// Whether the place of a call that ends is kept.
    #[inline(always)]
    pub(crate) fn keeps_places(&self) -> bool {
        self.places.len() <= MOST_KEPT
    }

    /// The party's call ends: its task is taken out.
    #[inline(always)]
    pub(crate) fn take(&mut self, party: &Name) -> Option<Task>
        ensures task { result ≡ task_in self.old party.now }
        ensures rest { (p : List ℕ) → task_in self.new p
            ≡ (if bytes_eq party.now p then None else task_in self.old p) }
    {
        if !self.keeps_places() {
            return self.places.remove(party).flatten();
        }
        match self.places.get_mut(party) {
            Some(place) => place.take(),
            None => None,
        }
    }

    /// The party's call made an access; a read gave this word. Its task is taken out if that was its last access.
    #[inline(always)]
    pub(crate) fn hear(&mut self, party: &Name, word: u64) -> Option<Task>
        requires { IsSomeAnd (task_in self.old party.now) CanGoOn }
        ensures { HasHeard (task_in self.old) (task_in self.new) party.now word result }
    {
        let Some(place) = self.places.get_mut(party) else {
            // The party's call runs.
            unreachable!()
        };
        let Some(task) = place else {
            // The party's call runs.
            unreachable!()
        };
        match task.took(word) {
            Progress::More => None,
            Progress::Done => self.take(party),
        }
    }

    /// The party's call made a write that isn't its last.
    pub(crate) fn go_on(&mut self, party: &Name)
        requires { IsSomeAnd (task_in self.old party.now) CanGoOn }
        ensures { HasTicked (task_in self.old) (task_in self.new) party.now }
    {
        let Some(place) = self.places.get_mut(party) else {
            // The party's call runs.
            unreachable!()
        };
        let Some(task) = place else {
            // The party's call runs.
            unreachable!()
        };
        let _ = task.took(0);
    }
}
