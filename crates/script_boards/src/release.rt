//! Lines `drop P T`.
ghost use Rattle.std.specs.Prelude.{◌≡◌};
ghost use Rattle.board_model.specs.declared.line.Line.TheVariants as line;
ghost use Rattle.script_boards.specs.Machine.{IsLed, Serves};
ghost use Rattle.script_boards.specs.Steps.{IsLetGo};

use crate::machine::BoardMachine;
use board_cell_model::Access;
use board_model::{Answer, Name, Reason, Reply};
use board_service::BoardWords;
use script_seats::{Seat, forget};

impl<C: BoardWords + Drop> BoardMachine<C> {
    // Takes away what a party holds under a name, and the board with its last thing.
    fn let_go(&mut self, party: &Name, name: &Name)
        ensures { IsLetGo self.old self.new party.now name.now }
    {
        let seat = Seat {
            party: *party,
            name: *name,
        };
        forget(&seat, &mut self.values);
        forget(&seat, &mut self.loans);
        self.domain.release(party, name);
    }

    /// A line `drop P T`.
    pub fn release(&mut self, party: &Name, name: &Name) -> Answer
        requires { IsLed self.old }
        ensures serves { Serves self.old self.new (line.Release party.now name.now) result }
        ensures drawn { self.new.domain.drawn ≡ self.old.domain.drawn }
    {
        if let Some(why) = self.refusal_of_party(party) {
            return Answer::Refused(why);
        }
        if !self.holds(party, name) {
            return Answer::Refused(Reason::Unknown);
        }
        self.let_go(party, name);
        Answer::Step {
            access: Access::Table,
            reply: Some(Reply::Done),
        }
    }
}
