//! Lines `abandon P`.
ghost use Rattle.std.specs.Prelude.{◌≡◌, ◌+◌, ◌≤◌, IfOk, OnErr, OnOk};
ghost use Rattle.std.specs.HashMap.{IsUnchanged};
ghost use Rattle.board_model.specs.declared.line.Line.TheVariants as line;
ghost use Rattle.script_boards.specs.Machine.{IsLed, Serves, task_of};
ghost use Rattle.script_boards.specs.Steps as steps;
ghost use Rattle.script_boards.specs.Steps.{HoldsAsBefore};
ghost use Rattle.script_boards.specs.Wants.{MayWant};

use crate::machine::{BoardMachine, Task};
use board_model::{Answer, Name, Reason};
use board_service::BoardWords;
use std::alloc::AllocError;

impl<C: BoardWords + Drop> BoardMachine<C> {
    // Whether the party was abandoned.
    fn is_gone(&self, party: &Name) -> bool
        ensures { result ≡ steps.was_abandoned (task_of self.now party.now) }
    {
        match self.parties.get(party) {
            Some(task) => task.is_gone(),
            None => false,
        }
    }

    /// A line `abandon P`. The call of the party runs no more, and what it holds stands for good.
    ///
    /// # Errors
    /// `AllocError` where memory is refused: only for a party that runs no call, and isn't gone. Then nothing has changed.
    pub fn abandon(&mut self, party: Name) -> Result<Answer, AllocError>
        requires { IsLed self.old }
        ensures serves { IfOk result (λ a. Serves self.old self.new (line.Abandon party) a) }
        ensures memory { OnErr result (MayWant self.old (line.Abandon party)) }

        // After want of memory nothing was abandoned.
        ensures held { OnErr result (HoldsAsBefore self.old self.new) }
        ensures parties { OnErr result (IsUnchanged self.old.parties.places self.new.parties.places) }
        ensures drawn { OnOk result (self.new.domain.drawn ≤ self.old.domain.drawn + 1) }
    {
        if self.is_gone(&party) {
            return Ok(Answer::Refused(Reason::Abandoned));
        }
        self.parties.put(party, Task::Gone)?;
        Ok(Answer::Gone)
    }
}
