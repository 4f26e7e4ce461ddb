//! The judge, and what a line is to it.
ghost use Rattle.std.specs.Prelude.{◌≡◌, [], None, OnOk, Some};
ghost use Rattle.script_model.specs.ScriptSession.{start};
ghost use Rattle.script_model.specs.ScriptGrammar.{IsScriptLine};
ghost use Rattle.script_judge.specs.Judges.{IsLed, IsTaskPut, Represents, Tells, name_taken, refusal_by, task_of, thing_at};

use crate::task::{EventThing, Task};
use board_model::{Line, Name, Reason};
use script_board_tables::{BoardTables, Seat};
use script_event_tables::EventTable;
use script_model::ScriptLine;
use script_pairs::KnowsAnswers;
use script_print::push_refused;
use std::alloc::{AllocError, Global};
use std::collections::HashMap;

/// Knows the right answers to the lines of a script, one after another.
#[derive(Drop)]
pub struct Judge {
    pub(crate) alloc: Global,
    pub(crate) boards: BoardTables,
    pub(crate) events: EventTable,
    pub(crate) things: HashMap<Seat, EventThing>,
    // the parties that run a call or are gone
    pub(crate) tasks: HashMap<Name, Task>,
}

impl Judge {
    /// Before the first line.
    pub fn new(alloc: Global) -> Judge
        ensures { Represents result start }
    {
        Judge {
            alloc,
            boards: BoardTables::new(alloc),
            events: EventTable::new(alloc),
            things: HashMap::new(alloc),
            tasks: HashMap::new(alloc),
        }
    }

    // The party runs this from now on.
    pub(crate) fn put_task(&mut self, party: &Name, task: Task) -> Result<(), AllocError>
        ensures { OnOk result (IsTaskPut self.old self.new party.now (Some task)) }
    {
        let _ = self.tasks.insert(*party, task)?;
        Ok(())
    }

    // What the party runs is taken out.
    pub(crate) fn take_task(&mut self, party: &Name) -> Option<Task>
        ensures task { result ≡ task_of self.old party.now }
        ensures taken { IsTaskPut self.old self.new party.now None }
    {
        self.tasks.remove(party)
    }

    // Why a line that only a free party may have is refused, if the party isn't free.
    pub(crate) fn unfree(&self, party: &Name) -> Option<Reason>
        ensures { result ≡ refusal_by (task_of self.now party.now) }
    {
        match self.tasks.get(party) {
            Some(task) => match task {
                Task::Gone => Some(Reason::Abandoned),
                _ => Some(Reason::Busy),
            },
            None => None,
        }
    }

    // The party has a listener or notifier under the name.
    pub(crate) fn event_thing(&self, party: &Name, name: &Name) -> Option<EventThing>
        ensures { result ≡ thing_at self.now party.now name.now }
    {
        match self.things.get(&Seat {
            party: *party,
            name: *name,
        }) {
            Some(thing) => Some(*thing),
            None => None,
        }
    }

    // Whether a name that the party wants to give is that of something it holds.
    pub(crate) fn is_taken(&self, party: &Name, name: &Option<Name>) -> bool
        ensures { result ≡ name_taken self.now party.now name.now }
    {
        match name {
            Some(name) => {
                self.boards.is_held(party, name) || self.event_thing(party, name).is_some()
            }
            None => false,
        }
    }

    // Puts the right answer to the line, and goes on to what stands behind it.
    fn answer(&mut self, line: &ScriptLine, answer: &mut Vec<u8>) -> Result<(), AllocError>
        requires led { IsLed self.old }
        requires line { IsScriptLine line.now }
        requires empty { answer.old.items ≡ [] }
        ensures { OnOk result (Tells self.old self.new line.now answer.new.items) }
    {
        match line {
            ScriptLine::Board(line) => match line {
                Line::Begin { party, call } => self.begin(party, call, answer),
                Line::Step { party } => self.step(party, answer),
                Line::Release { party, thing } => self.release(party, thing, answer),
                Line::Abandon { party } => self.abandon(party, answer),
                Line::Words { board } => self.words(*board, answer),
            },
            ScriptLine::Event { party, request } => self.begin_on_events(party, request, answer),
            ScriptLine::Expire { party } => self.expire(party, answer),
        }
    }
}

impl KnowsAnswers for Judge {
    ghost use Rattle.std.specs.Prelude.{◌≡◌};
    ghost use Rattle.script_judge.specs.Judges.{Represents};

    ghost stands = { λ judge n s. Represents judge s };

    fn right_answer(&mut self, line: &ScriptLine, answer: &mut Vec<u8>) -> Result<(), AllocError> {
        answer.clear();
        self.answer(line, answer)
    }
}
