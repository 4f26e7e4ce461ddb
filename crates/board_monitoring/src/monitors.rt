//! Monitored names.
ghost use Rattle.std.specs.Prelude.{◌≡◌, ℕ, List, [], ◌∷◌, Some, None, Ok, Err, OnOk, OnErr, is_some, IfOk, length};
ghost use Rattle.board_layout.specs.Answer.{Answers, Refuses};
ghost use Rattle.board_names.specs.Table.{at, putting};
ghost use Rattle.board_names.specs.declared.errors.monitoring.MonitoringCreateTokenError.TheVariants.{OutOfMemory};
ghost use Rattle.board_monitoring.specs.Monitors.{state_of, token_answer, cleaner_answer, marked, claimed};

use crate::monitoring::State;
use board_names::{
    FilePath, MonitoringCreateCleanerError, MonitoringCreateTokenError, NameTable,
    NamedConceptDoesExistError, Registry, Table,
};
use std::alloc::Global;
use std::marker::Model;

/// What stands under a monitored name.
#[derive(Clone, Copy, Debug, PartialEq, Eq)]
pub enum Life {
    /// The token is held.
    Alive,
    /// The token was abandoned.
    Dead,
    /// The token was abandoned, and one cleaner owns the name.
    OwnedByCleaner,
}

/// Monitored names. Clauses see the pairs of name and life, in the order of the names.
///
/// The names ascend and differ, as in each `NameTable`: `name_count` says it.
#[derive(Drop)]
pub struct Monitors {
    names: Table<Life>,
}

impl Model for Monitors {
    ghost use Rattle.std.specs.Prelude.{ℕ, List};
    ghost use Rattle.board_monitoring.specs.declared.monitors.Life.{Life};

    ghost Value = { List (List ℕ × Life) };

    ghost view = { λ m. m.names.entries };
}

impl Monitors {
    /// Takes a name for a token.
    ///
    /// # Errors
    /// `AlreadyExists` where the name is held; `OutOfMemory`. The names stay as they were.
    pub fn token(&mut self, name: &FilePath) -> Result<(), MonitoringCreateTokenError>
        ensures answer { Answers result OutOfMemory (token_answer (at self.old name.now)) }
        ensures refused { Refuses result (token_answer (at self.old name.now)) }
        ensures ok { OnOk result (self.new ≡ putting self.old name.now Life.Alive) }
        ensures err { OnErr result (self.new ≡ self.old) }
    {
        if self.names.contains_key(name) {
            return Err(MonitoringCreateTokenError::AlreadyExists);
        }
        match self.names.insert(name, Life::Alive) {
            Ok(_) => Ok(()),
            Err(_) => Err(MonitoringCreateTokenError::OutOfMemory),
        }
    }

    /// Takes a dead name for a cleaner. Takes no memory.
    ///
    /// # Errors
    /// `InstanceStillAlive`, `AlreadyOwnedByAnotherInstance` or `DoesNotExist`, by what stands there. The names stay as
    /// they were.
    pub fn cleaner(&mut self, name: &FilePath) -> Result<(), MonitoringCreateCleanerError>
        ensures answer { result ≡ cleaner_answer (at self.old name.now) }
        ensures after { self.new ≡ claimed self.old name.now }
    {
        match self.names.get(name).copied() {
            None => Err(MonitoringCreateCleanerError::DoesNotExist),
            Some(Life::Alive) => Err(MonitoringCreateCleanerError::InstanceStillAlive),
            Some(Life::OwnedByCleaner) => {
                Err(MonitoringCreateCleanerError::AlreadyOwnedByAnotherInstance)
            }
            Some(Life::Dead) => {
                // The name is held, so the table doesn't grow.
                let Ok(_) = self.names.insert(name, Life::OwnedByCleaner) else {
                    unreachable!()
                };
                Ok(())
            }
        }
    }

    /// What a monitor sees of a name. Takes no memory.
    pub fn state(&self, name: &FilePath) -> State
        ensures { result ≡ state_of (at self.now name.now) }
    {
        match self.names.get(name).copied() {
            None => State::DoesNotExist,
            Some(Life::Alive) => State::Alive,
            Some(_) => State::Dead,
        }
    }

    /// Marks a name dead where it is held, and tells whether it was. Takes no memory.
    pub fn mark_dead(&mut self, name: &FilePath) -> bool
        ensures value { result ≡ is_some (at self.old name.now) }
        ensures after { self.new ≡ marked self.old name.now }
    {
        if !self.names.contains_key(name) {
            return false;
        }
        // The name is held, so the table doesn't grow.
        let Ok(_) = self.names.insert(name, Life::Dead) else {
            unreachable!()
        };
        true
    }
}

impl NameTable for Monitors {
    type Value = Life;

    ghost entries = { λ m. m };

    ghost existence = { λ one. Ok (is_some one) };

    fn new(alloc: Global) -> Monitors {
        Monitors {
            names: Table::new(alloc),
        }
    }

    fn table(&self) -> &Table<Life> {
        &self.names
    }

    fn does_exist(&self, name: &FilePath) -> Result<bool, NamedConceptDoesExistError> {
        Ok(self.names.contains_key(name))
    }

    fn remove(&mut self, name: &FilePath) -> bool {
        self.names.remove(name).is_some()
    }
}

/// Monitored names that many values share, behind a lock.
pub type MonitoringRegistry = Registry<Monitors>;
