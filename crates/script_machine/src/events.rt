//! Lines of events.
ghost use Rattle.std.specs.Prelude.{◌≡◌, ◌+◌, ◌≤◌, [], OnErr, OnOk, vec_capacity};
ghost use Rattle.script_model.specs.declared.line.ScriptLine.TheVariants as line;
ghost use Rattle.script_model.specs.ScriptGrammar.{IsScriptLine};
ghost use Rattle.script_boards.specs.Machine.{drawn_by};
ghost use Rattle.script_events.specs.PartyEvents.{TellsTaken};
ghost use Rattle.script_machine.specs.ScriptMachine.{IsLed, OfEachState, Tells, no_wait};
ghost use Rattle.script_machine.specs.Wants.{MayWant};

use crate::machine::Machine;
use board_model::{Name, Reason};
use board_service::BoardWords;
use script_model::{EventRequest, name_made};
use script_print::{push_begun, push_expired, push_refused};
use std::alloc::AllocError;

// Why an expiry is refused of a party that isn't free: a call on boards is no timed wait.
fn no_wait(why: Reason) -> Reason
    ensures { result ≡ no_wait why }
{
    match why {
        Reason::Busy => Reason::NotWaiting,
        _ => why,
    }
}

impl<C: BoardWords + Drop> Machine<C> {
    // Whether boards hold the name of what a call on events makes.
    fn takes_board_name(&self, party: &Name, request: &EventRequest) -> bool
        ensures { OfEachState self.now (λ s.
            TellsTaken result s.boards party.now request.now) }
    {
        match name_made(request) {
            Some(name) => self.boards.is_held(party, &name),
            None => false,
        }
    }

    /// A line `begin P CALL` of a call on events.
    pub(crate) fn event_call(
        &mut self,
        party: Name,
        request: EventRequest,
        out: &mut Vec<u8>,
    ) -> Result<(), AllocError>
        requires led { IsLed self.old }
        requires line { IsScriptLine (line.Event party request) }
        requires empty { out.old.items ≡ [] }
        ensures tells { OnOk result (Tells self.old self.new (line.Event party request)
            out.new.items) }
        ensures memory { OnErr result (MayWant self.old (line.Event party request) out.old) }
        ensures room { vec_capacity out.old ≤ vec_capacity out.new }
        ensures drawn { drawn_by self.new.boards ≡ drawn_by self.old.boards }
    {
        if self.events.runs(&party) {
            return push_refused(Reason::Busy, out);
        }
        if let Some(why) = self.boards.refusal_of_party(&party) {
            return push_refused(why, out);
        }
        let taken = self.takes_board_name(&party, &request);
        match self.events.begin(party, request, taken)? {
            Some(why) => push_refused(why, out),
            None => push_begun(out),
        }
    }

    /// A line `expire P`.
    pub(crate) fn expire(&mut self, party: &Name, out: &mut Vec<u8>) -> Result<(), AllocError>
        requires led { IsLed self.old }
        requires line { IsScriptLine (line.Expire party.now) }
        requires empty { out.old.items ≡ [] }
        ensures tells { OnOk result (Tells self.old self.new (line.Expire party.now)
            out.new.items) }
        ensures memory { OnErr result (MayWant self.old (line.Expire party.now) out.old) }
        ensures room { vec_capacity out.old ≤ vec_capacity out.new }
        ensures drawn { drawn_by self.new.boards ≡ drawn_by self.old.boards }
    {
        if let Some(why) = self.boards.refusal_of_party(party) {
            return push_refused(no_wait(why), out);
        }
        match self.events.expire(party) {
            Some(why) => push_refused(why, out),
            None => push_expired(out),
        }
    }
}
