//! The counters of entries.
ghost use Rattle.std.specs.Prelude.{◌≡◌, length};
ghost use Rattle.script_model.specs.ScriptSession.{Session, start, state_after};
ghost use Rattle.script_loop.specs.Machines.{StandsFor};
ghost use Rattle.script_machine.specs.Counters.{EntryStands};
ghost use Rattle.script_machine.specs.ScriptMachine.{StandsAfter};

use crate::machine::Machine;
use board_service::BoardWords;

impl<C: BoardWords + Drop> Machine<C> {
    /// The counter of an entry that stands: how many values were published.
    pub fn counter(&mut self, board: u64, entry: u64) -> u64
        requires stands { (session : Session) × StandsFor StandsAfter self.old session }
        requires entry { EntryStands self.old board entry }
        ensures value { (session : Session) → StandsFor StandsAfter self.old session
            → result ≡ length ((state_after start session).boards.published board entry) }
        ensures same { self.new ≡ self.old }
    {
        self.boards.counter(board, entry)
    }
}
