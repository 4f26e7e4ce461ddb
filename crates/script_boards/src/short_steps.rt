//! The short way of a line `step P`: a word is read or written, and nothing is told, or `ok` with the last write of an update.
//! It leads to the refusal of a party that runs no call, too.
ghost use Rattle.std.specs.Prelude.{◌≡◌, ◌≤◌, false, length};
ghost use Rattle.board_cell.specs.Calls.{progress_of};
ghost use Rattle.board_cell_model.specs.OwedAccesses.{is_finished};
ghost use Rattle.script_boards.specs.Machine.{IsLed};
ghost use Rattle.script_boards.specs.ShortSteps.{HasOwedWords, HasReadWord, HasWrittenWord, IsShortWay, IsWordRead, IsWordWritten, MakesAccess};
ghost use Rattle.script_boards.specs.Steps as steps;
ghost use Rattle.script_boards.specs.Steps.{CanGoOn};

use crate::machine::{BoardMachine, Task};
use crate::value_update::ValueUpdate;
use board_cell::{Access as CellAccess, GetCall, Progress};
use board_cell_model::Access;
use board_model::Name;
use board_service::BoardWords;
use script_parties::PartyDomain;

/// What a step by the short way made. Where the call is done with it, `ok` is told.
#[derive(Clone, Copy, Debug, PartialEq, Eq)]
pub struct ShortStep {
    pub access: Access,
    pub is_done: bool,
}

/// Where the short way of a line `step P` leads.
#[derive(Clone, Copy, Debug, PartialEq, Eq)]
pub enum ShortWay {
    /// The party runs no call, and the line is refused for it.
    Idle,
    /// An access was made.
    Made(ShortStep),
    /// To `step_get`: a get that keeps no value owes its counter.
    Get,
    /// Nowhere: `step` answers the line.
    Nowhere,
}

// A get reads the word that it owes.
#[inline(always)]
pub(crate) fn read_word<C: BoardWords + Drop>(
    board: u64,
    call: &mut GetCall,
    domain: &mut PartyDomain<C>,
) -> (Access, Progress)
    requires goes_on { is_finished call.old.reading ≡ false }
    requires word { HasReadWord domain.old board call.old }
    ensures read { IsWordRead domain.old domain.new board call.old call.new result.0 }
    ensures progress { result.1 ≡ progress_of (is_finished call.new.reading) }
{
    let CellAccess::Read { word } = call.next() else {
        // A get reads.
        unreachable!()
    };
    let value = domain.load(board, word);
    let progress = call.took(value);
    (Access::Read { board, word, value }, progress)
}

// An update or a fill writes the word that it owes.
#[inline(always)]
fn write_word<C: BoardWords + Drop>(
    board: u64,
    call: &mut ValueUpdate,
    domain: &mut PartyDomain<C>,
) -> Access
    requires goes_on { call.old.written ≤ length call.old.words }
    requires word { HasWrittenWord domain.old board call.old }
    ensures { IsWordWritten domain.old domain.new board call.old call.new result }
{
    let CellAccess::Write { word, value } = call.next() else {
        // A publication writes.
        unreachable!()
    };
    domain.store(board, word, value);
    let _ = call.took();
    Access::Write { board, word, value }
}

impl Task {
    // Makes the access that is owed, where it is to a word and nothing but `ok` can be told with it. No loan ends by it.
    #[inline(always)]
    fn make_access<C: BoardWords + Drop>(
        &mut self,
        domain: &mut PartyDomain<C>,
    ) -> Option<ShortStep>
        requires goes_on { steps.is_gone self.old ≡ false → CanGoOn self.old }
        requires words { HasOwedWords domain.old self.old }
        ensures { MakesAccess domain.old domain.new self.old self.new result }
    {
        match self {
            Task::Update { board, call } => {
                let is_done = !call.owes_word();
                Some(ShortStep {
                    access: write_word(*board, call, domain),
                    is_done,
                })
            }
            Task::Get {
                board,
                call,
                value_type: _,
                value: _,
            } if call.owes_word() => {
                let (access, _) = read_word(*board, call, domain);
                Some(ShortStep {
                    access,
                    is_done: false,
                })
            }
            Task::Fill {
                board,
                call,
                loan: _,
                handle: _,
            } if call.owes_word() => Some(ShortStep {
                access: write_word(*board, call, domain),
                is_done: false,
            }),
            _ => None,
        }
    }
}

impl<C: BoardWords + Drop> BoardMachine<C> {
    /// A line `step P` of a party that runs no call, or of an update, or of a get or a fill that owes a word. It takes no
    /// memory. Where it leads nowhere nothing changes, and `step` answers the line.
    pub fn step_short(&mut self, party: &Name) -> ShortWay
        requires { IsLed self.old }
        ensures steps { IsShortWay self.old self.new party.now result }
        ensures drawn { self.new.domain.drawn ≡ self.old.domain.drawn }
    {
        let keeps_place = self.parties.keeps_places();
        let Some(place) = self.parties.places.get_mut(party) else {
            return ShortWay::Idle;
        };
        let Some(task) = place else {
            return ShortWay::Idle;
        };
        let Some(made) = task.make_access(&mut self.domain) else {
            return if task.is_plain_get() {
                ShortWay::Get
            } else {
                ShortWay::Nowhere
            };
        };
        if made.is_done {
            if keeps_place {
                *place = None;
            } else {
                let _ = self.parties.places.remove(party);
            }
        }
        ShortWay::Made(made)
    }
}
