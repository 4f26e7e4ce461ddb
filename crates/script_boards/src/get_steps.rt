//! Steps of gets that keep no value.
ghost use Rattle.std.specs.Prelude.{◌≡◌, true, IfSome, Some};
ghost use Rattle.std.specs.List.{AllByRecursion};
ghost use Rattle.board_model.specs.AnswerGrammar.{IsReply};
ghost use Rattle.board_model.specs.LineGrammar.{IsNumber};
ghost use Rattle.board_model.specs.declared.line.Line.TheVariants as line;
ghost use Rattle.script_boards.specs.GetSteps.{IsPlainGet, RunsPlainGet, get_answer, value_told};
ghost use Rattle.script_boards.specs.Machine.{IsLed, Serves};
ghost use Rattle.script_boards.specs.declared.machine.Task.{Task};
ghost use Rattle.script_boards.specs.Steps as steps;

use crate::machine::{BoardMachine, Task};
use crate::short_steps::read_word;
use board_cell::Progress;
use board_cell_model::Access;
use board_model::{Name, ValueType, Words};
use board_service::BoardWords;

/// A value that a get read.
#[derive(Drop, Debug)]
pub struct ReadValue {
    pub value_type: ValueType,
    pub words: Words,
    pub generation: u64,
}

/// What a step of a get made, and the value that it told, where it was the last one.
#[derive(Drop, Debug)]
pub struct GetStep {
    pub access: Access,
    pub told: Option<ReadValue>,
}

impl Task {
    /// Whether it is a get that keeps no value.
    #[inline(always)]
    pub(crate) fn is_plain_get(&self) -> bool
        ensures { result ≡ true → IsPlainGet self.now }
    {
        match self {
            Task::Get {
                board: _,
                call: _,
                value_type: _,
                value: None,
            } => true,
            _ => false,
        }
    }
}

// What is known of any words.
#[inline(always)]
fn facts(words: &[u64])
    ensures { AllByRecursion IsNumber words.now }
{}

// The value that a get has read, where that is what ended.
#[inline(always)]
fn value_read(ended: Option<Task>) -> ReadValue
    requires get { (t : Task) × (ended ≡ Some t) × IsPlainGet t × steps.HasRead t }
    ensures told { IfSome ended (λ t. steps.read_told t ≡ Some (value_told result)) }
    ensures is_reply { IsReply (value_told result) }
{
    let Some(
        Task::Get {
            board: _,
            call,
            value_type,
            value: _,
        },
    ) = ended
    else {
        // A get has ended.
        unreachable!()
    };
    let generation = call.generation();
    let words = call.into_buffer();
    facts(&words);
    ReadValue {
        value_type,
        words: Words::from_vec(words),
        generation,
    }
}

impl<C: BoardWords + Drop> BoardMachine<C> {
    /// A line `step P` of a party that runs a get that keeps no value. It takes no memory.
    pub fn step_get(&mut self, party: &Name) -> GetStep
        requires led { IsLed self.old }
        requires get { RunsPlainGet self.old party.now }
        ensures serves { Serves self.old self.new (line.Step party.now) (get_answer result) }
        ensures drawn { self.new.domain.drawn ≡ self.old.domain.drawn }
    {
        let keeps_place = self.parties.keeps_places();
        let Some(place) = self.parties.places.get_mut(party) else {
            // The party's get runs.
            unreachable!()
        };
        let Some(task) = place else {
            // The party's get runs.
            unreachable!()
        };
        let Task::Get {
            board,
            call,
            value_type: _,
            value: _,
        } = task
        else {
            // A get.
            unreachable!()
        };
        let (access, progress) = read_word(*board, call, &mut self.domain);
        if let Progress::More = progress {
            return GetStep { access, told: None };
        }
        if keeps_place {
            return GetStep {
                access,
                told: Some(value_read(place.take())),
            };
        }
        GetStep {
            access,
            told: Some(value_read(self.parties.take(party))),
        }
    }
}
