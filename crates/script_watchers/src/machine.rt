//! The machine of watchers: a line in, and what is told of it out.
ghost use Rattle.script_model.specs.ScriptSession.{start};
ghost use Rattle.script_watchers.specs.Machines.{StandsAfter};
ghost use Rattle.std.specs.Prelude.{[]};

use crate::opening::ask_ids;
use crate::watch::{Progress, Watch};
use board_model::{Name, Names};
use script_drive::Drives;
use script_exchanges::Drive;
use script_feed::{Driven, give, say};
use script_loop::RunsLines;
use script_model::ScriptLine;
use std::alloc::{AllocError, Global};

/// Answers the lines of a script whose parties can be watchers, over a machine of scripts.
#[derive(Drop)]
pub struct WatcherMachine<M> {
    alloc: Global,
    /// The machine of scripts, and the watchers of parties.
    driven: Driven<M, Watch>,
}

impl<M: RunsLines + Drop> WatcherMachine<M> {
    /// Over a machine on which no line was run. It takes no memory.
    pub fn new(alloc: Global, machine: M) -> WatcherMachine<M>
        requires { M.stands machine 0 start }
        ensures { StandsAfter M.stands result [] }
    {
        WatcherMachine {
            alloc,
            driven: Driven::new(alloc, machine),
        }
    }
}

impl<M: RunsLines + Drop> Drives for WatcherMachine<M> {
    ghost use Rattle.script_exchanges.specs.declared.line.Drive.TheVariants.{Watchers};
    ghost use Rattle.script_watches.specs.WatchExchanges.{IsLawful};
    ghost use Rattle.script_watchers.specs.Machines.{StandsAfter};

    ghost drive = { Watchers };

    ghost lawful = { IsLawful };

    ghost stands = { λ m xs. StandsAfter M.stands m xs };

    fn kind(&self) -> Drive {
        Drive::Watchers
    }

    fn script(
        &mut self,
        parsed: ScriptLine,
        line: &[u8],
        told: &mut Vec<u8>,
    ) -> Result<(), AllocError> {
        self.driven.script(b"watched", &parsed, line, told)
    }

    // A party is to be watched, where it isn't: the ids of the handles are asked for.
    fn start(&mut self, party: Name, things: Names, told: &mut Vec<u8>) -> Result<(), AllocError> {
        if self.driven.kept.of(&party).is_some() {
            return say(b"watched", &party, told);
        }
        let things = things.into_vec();
        let mut rows = Vec::new(self.alloc);
        let are_told = ask_ids(
            &mut self.driven.machine,
            &party,
            &things[1..],
            &mut rows,
            &mut self.driven.line,
            &mut self.driven.answer,
            told,
        )?;
        if !are_told {
            return say(b"unwatched", &party, told);
        }
        let watch = Watch::new(self.alloc, things[0], rows);
        self.driven.kept.keep(party, watch)?;
        say(b"watching", &party, told)
    }

    fn turn(&mut self, party: Name, told: &mut Vec<u8>) -> Result<(), AllocError> {
        let Some(mut watch) = self.driven.kept.take(&party) else {
            return say(b"unwatched", &party, told);
        };
        watch.write_line(&party, &mut self.driven.line)?;
        give(
            &mut self.driven.machine,
            &self.driven.line,
            &mut self.driven.answer,
            told,
        )?;
        match watch.took(&self.driven.answer)? {
            Progress::GoesOn => self.driven.kept.keep(party, watch),
            Progress::Reports => {
                watch.say_report(&party, told)?;
                self.driven.kept.keep(party, watch)
            }
            Progress::Refused => say(b"unwatched", &party, told),
        }
    }
}
