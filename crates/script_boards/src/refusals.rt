//! Refusals that no name has to do with, and names that parties hold.
ghost use Rattle.std.specs.Prelude.{◌≡◌, None, IfNone};
ghost use Rattle.board_model.specs.LawfulSession.{free_reason};
ghost use Rattle.board_model.specs.Things as held;
ghost use Rattle.script_boards.specs.Begins.{HasNoTask, LooksPastNames, past_names};
ghost use Rattle.script_boards.specs.Machine.{IsLed, OfEach};

use crate::machine::BoardMachine;
use crate::not_begun::NotBegun;
use board_model::{Call, Name, Reason};
use board_service::BoardWords;

// The reason, where it is that a call doesn't find all that it uses.
fn past_names(why: Reason) -> Option<Reason>
    ensures { result ≡ past_names why }
{
    match why {
        Reason::Unknown => Some(why),
        _ => None,
    }
}

impl<C: BoardWords + Drop> BoardMachine<C> {
    /// Whether the party has a thing of a board, or a value, under the name.
    pub fn is_held(&self, party: &Name, name: &Name) -> bool
        ensures { OfEach self.now (λ s. result ≡ held.is_held s.standing party.now name.now) }
    {
        self.holds(party, name)
    }

    /// Why a line is refused that only a free party may have. None where the party is free.
    #[inline(always)]
    pub fn refusal_of_party(&self, party: &Name) -> Option<Reason>
        ensures reason { OfEach self.now (λ s. result ≡ free_reason (s.parties party.now) None) }
        ensures free { IfNone result (HasNoTask self.now party.now) }
    {
        let Some(task) = self.parties.get(party) else {
            return None;
        };
        if task.is_gone() {
            Some(Reason::Abandoned)
        } else {
            Some(Reason::Busy)
        }
    }

    /// Why a call may not begin, whatever names are held. None where its party is free and holds all that the call uses.
    /// That is known also where memory is refused, so no want of it is told.
    pub fn refusal_past_names(&mut self, party: &Name, call: Call) -> Option<Reason>
        requires { IsLed self.old }
        ensures told { LooksPastNames self.old party.now call result }
        ensures same { self.new ≡ self.old }
    {
        if let Some(why) = self.refusal_of_party(party) {
            return Some(why);
        }
        let generation = self.generation_for(party, &call);
        match self.check(party, call, generation) {
            Ok(_) => None,
            Err(NotBegun::Refused(why)) => past_names(why),
            // A call that may begin.
            Err(NotBegun::OutOfMemory) => None,
        }
    }
}
