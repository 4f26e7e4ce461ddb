//! Lines for which memory was refused while they were parsed. Such a line is refused all the same where a rule refuses it.
ghost use Rattle.std.specs.Prelude.{◌≡◌, ◌≤◌, [], Some, OnErr, OnOk, vec_capacity};
ghost use Rattle.script_model.specs.ScriptTurns.{is_name_taken};
ghost use Rattle.script_machine.specs.ScriptMachine.{OfEachState, Tells};
ghost use Rattle.script_machine.specs.Unkept.{OfEachLine};
ghost use Rattle.script_machine.specs.Wants.{MayWant, refusal};

use crate::machine::Machine;
use board_model::{Name, Reason};
use board_service::BoardWords;
use script_parse::Unkept;
use script_print::push_refused;
use std::alloc::AllocError;

impl<C: BoardWords + Drop> Machine<C> {
    // Whether the party holds anything under the name, of boards or of events.
    fn holds(&self, party: &Name, name: &Name) -> bool
        ensures { OfEachState self.now (λ s. result ≡ is_name_taken s party.now (Some name.now)) }
    {
        self.boards.is_held(party, name) || self.events.holds(party, name)
    }

    // Why such a line is refused, if it is. Takes no memory.
    fn refusal_of(&self, line: &Unkept) -> Option<Reason>
        ensures { OfEachState self.now (λ s. OfEachLine line.now (λ l. result ≡ refusal s l)) }
    {
        if self.events.runs(&line.party) {
            return Some(Reason::Busy);
        }
        if let Some(why) = self.boards.refusal_of_party(&line.party) {
            return Some(why);
        }
        if self.holds(&line.party, &line.made.name) {
            return Some(Reason::Taken);
        }
        if !line.made.is_typed {
            return Some(Reason::Type);
        }
        None
    }

    /// Answers such a line with its refusal. Where nothing refuses it, there is no memory for it.
    #[inline(never)]
    pub(crate) fn answer_unkept(&self, line: &Unkept, out: &mut Vec<u8>) -> Result<(), AllocError>
        requires { out.old.items ≡ [] }
        ensures tells { OnOk result (OfEachLine line.now (λ l.
            Tells self.now self.now l out.new.items)) }
        ensures memory { OnErr result (OfEachLine line.now (λ l. MayWant self.now l out.old)) }
        ensures room { vec_capacity out.old ≤ vec_capacity out.new }
    {
        match self.refusal_of(line) {
            Some(why) => push_refused(why, out),
            None => Err(AllocError),
        }
    }
}
