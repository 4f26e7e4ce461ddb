//! The machine of snapshots: a line in, and what is told of it out.
ghost use Rattle.script_model.specs.ScriptSession.{start};
ghost use Rattle.script_shots.specs.Machines.{StandsAfter};
ghost use Rattle.std.specs.Prelude.{[]};

use crate::shot::{Progress, Shot};
use board_model::{Name, Names};
use script_drive::Drives;
use script_exchanges::Drive;
use script_feed::{Driven, give, say};
use script_loop::RunsLines;
use script_model::ScriptLine;
use std::alloc::{AllocError, Global};

/// Answers the lines of a script whose parties can take snapshots, over a machine of scripts.
#[derive(Drop)]
pub struct SnapshotMachine<M> {
    alloc: Global,
    /// The machine of scripts, and the snapshots that parties take.
    driven: Driven<M, Shot>,
}

impl<M: RunsLines + Drop> SnapshotMachine<M> {
    /// Over a machine on which no line was run. It takes no memory.
    pub fn new(alloc: Global, machine: M) -> SnapshotMachine<M>
        requires { M.stands machine 0 start }
        ensures { StandsAfter M.stands result [] }
    {
        SnapshotMachine {
            alloc,
            driven: Driven::new(alloc, machine),
        }
    }
}

impl<M: RunsLines + Drop> Drives for SnapshotMachine<M> {
    ghost use Rattle.script_exchanges.specs.declared.line.Drive.TheVariants.{Snapshots};
    ghost use Rattle.script_snapshots.specs.SnapshotExchanges.{IsLawful};
    ghost use Rattle.script_shots.specs.Machines.{StandsAfter};

    ghost drive = { Snapshots };

    ghost lawful = { IsLawful };

    ghost stands = { λ m xs. StandsAfter M.stands m xs };

    fn kind(&self) -> Drive {
        Drive::Snapshots
    }

    fn script(
        &mut self,
        parsed: ScriptLine,
        line: &[u8],
        told: &mut Vec<u8>,
    ) -> Result<(), AllocError> {
        self.driven.script(b"snapping", &parsed, line, told)
    }

    // A party is to take a snapshot, where it takes none.
    fn start(&mut self, party: Name, things: Names, told: &mut Vec<u8>) -> Result<(), AllocError> {
        if self.driven.kept.of(&party).is_some() {
            return say(b"snapping", &party, told);
        }
        let shot = Shot::new(self.alloc, things)?;
        self.driven.kept.keep(party, shot)?;
        say(b"snapping", &party, told)
    }

    fn turn(&mut self, party: Name, told: &mut Vec<u8>) -> Result<(), AllocError> {
        let Some(mut shot) = self.driven.kept.take(&party) else {
            return say(b"unsnapped", &party, told);
        };
        shot.write_line(&party, &mut self.driven.line)?;
        give(
            &mut self.driven.machine,
            &self.driven.line,
            &mut self.driven.answer,
            told,
        )?;
        match shot.took(&self.driven.answer)? {
            Progress::GoesOn => self.driven.kept.keep(party, shot),
            Progress::Refused => say(b"unsnapped", &party, told),
            Progress::Whole => shot.say_whole(&party, told),
        }
    }
}
