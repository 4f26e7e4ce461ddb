//! Lines of boards, and those that boards and events share.
ghost use Rattle.std.specs.Prelude.{◌≡◌, [], IfOk, None, OnOk};
ghost use Rattle.board_model.specs.declared.line.Line.TheVariants as board_line;
ghost use Rattle.board_model.specs.Requests as requests;
ghost use Rattle.script_model.specs.declared.line.ScriptLine.TheVariants as line;
ghost use Rattle.script_model.specs.ScriptGrammar.{IsScriptLine};
ghost use Rattle.script_board_tables.specs.Tables.{published_of, standing_of};
ghost use Rattle.script_judge.specs.declared.task.Task.TheVariants as task;
ghost use Rattle.script_judge.specs.Judges.{IsBegun, IsLed, IsLedBut, Tells, TellsStep, name_taken, refusal_by, task_of, thing_at};

use crate::judge::Judge;
use crate::task::Task;
use board_cell_model::Access;
use board_model::{Call, Name, Reason, Reply};
use script_board_tables::{BoardCall, Stepped, running_calls_can_step};
use script_model::new_name;
use script_print::{push_begun, push_gone, push_refused, push_step, push_words};
use std::alloc::AllocError;

impl Judge {
    // The call of a free party, or why it may not begin.
    fn begun(&self, party: &Name, call: &Call) -> Result<Result<BoardCall, Reason>, AllocError>
        ensures { IfOk result (IsBegun (standing_of self.now.boards)
            (name_taken self.now party.now (requests.new_name call.now))
            (requests.request_of (standing_of self.now.boards) (published_of self.now.boards)
            party.now call.now)) }
    {
        let Some(found) = self.boards.find(party, call)? else {
            return Ok(Err(Reason::Unknown));
        };
        if self.is_taken(party, &new_name(call)) {
            return Ok(Err(Reason::Taken));
        }
        if !found.typed {
            return Ok(Err(Reason::Type));
        }
        if !found.indexed {
            return Ok(Err(Reason::Index));
        }
        if !found.filled {
            return Ok(Err(Reason::Unfilled));
        }
        Ok(Ok(found.call))
    }

    pub(crate) fn begin(
        &mut self,
        party: &Name,
        call: &Call,
        answer: &mut Vec<u8>,
    ) -> Result<(), AllocError>
        requires led { IsLed self.old }
        requires line { IsScriptLine (line.Board (board_line.Begin party.now call.now)) }
        requires empty { answer.old.items ≡ [] }
        ensures { OnOk result (Tells self.old self.new (line.Board (board_line.Begin party.now call.now))
            answer.new.items) }
    {
        match self.unfree(party) {
            Some(why) => return push_refused(why, answer),
            None => {}
        }
        match self.begun(party, call)? {
            Ok(call) => {
                self.put_task(party, Task::OnBoards(call))?;
                push_begun(answer)
            }
            Err(why) => push_refused(why, answer),
        }
    }

    fn step_on_boards(
        &mut self,
        party: &Name,
        call: BoardCall,
        answer: &mut Vec<u8>,
    ) -> Result<(), AllocError>
        requires led { IsLedBut self.old party.now (task.OnBoards call) }
        requires line { IsScriptLine (line.Board (board_line.Step party.now)) }
        requires empty { answer.old.items ≡ [] }
        ensures { OnOk result (TellsStep self.old self.new party.now (task.OnBoards call)
            answer.new.items) }
    {
        running_calls_can_step();
        match self.boards.step(party, call)? {
            Stepped::GoesOn { access, call } => {
                self.put_task(party, Task::OnBoards(call))?;
                push_step(access, &None, answer)
            }
            Stepped::Ends { access, reply } => push_step(access, &Some(reply), answer),
        }
    }

    pub(crate) fn step(&mut self, party: &Name, answer: &mut Vec<u8>) -> Result<(), AllocError>
        requires led { IsLed self.old }
        requires line { IsScriptLine (line.Board (board_line.Step party.now)) }
        requires empty { answer.old.items ≡ [] }
        ensures { OnOk result (Tells self.old self.new (line.Board (board_line.Step party.now))
            answer.new.items) }
    {
        match self.take_task(party) {
            Some(Task::OnBoards(call)) => self.step_on_boards(party, call, answer),
            Some(Task::Asks(ask)) => self.step_asking(party, ask, answer),
            Some(Task::OnEvent { number, call }) => {
                self.step_on_event(party, number, call, answer)
            }
            Some(Task::Gone) => {
                self.put_task(party, Task::Gone)?;
                push_refused(Reason::Abandoned, answer)
            }
            None => push_refused(Reason::Idle, answer),
        }
    }

    // A thing or value of a board is let go.
    fn release_on_boards(
        &mut self,
        party: &Name,
        thing: &Name,
        answer: &mut Vec<u8>,
    ) -> Result<(), AllocError>
        requires free { refusal_by (task_of self.old party.now) ≡ None }
        requires none { thing_at self.old party.now thing.now ≡ None }
        requires line { IsScriptLine (line.Board (board_line.Release party.now thing.now)) }
        requires empty { answer.old.items ≡ [] }
        ensures { OnOk result (Tells self.old self.new (line.Board (board_line.Release party.now thing.now))
            answer.new.items) }
    {
        if !self.boards.is_held(party, thing) {
            return push_refused(Reason::Unknown, answer);
        }
        self.boards.release(party, thing);
        push_step(Access::Table, &Some(Reply::Done), answer)
    }

    pub(crate) fn release(
        &mut self,
        party: &Name,
        thing: &Name,
        answer: &mut Vec<u8>,
    ) -> Result<(), AllocError>
        requires led { IsLed self.old }
        requires line { IsScriptLine (line.Board (board_line.Release party.now thing.now)) }
        requires empty { answer.old.items ≡ [] }
        ensures { OnOk result (Tells self.old self.new (line.Board (board_line.Release party.now thing.now))
            answer.new.items) }
    {
        match self.unfree(party) {
            Some(why) => return push_refused(why, answer),
            None => {}
        }
        match self.event_thing(party, thing) {
            Some(held) => {
                self.let_go(party, thing, held);
                push_step(Access::Table, &Some(Reply::Done), answer)
            }
            None => self.release_on_boards(party, thing, answer),
        }
    }

    pub(crate) fn abandon(&mut self, party: &Name, answer: &mut Vec<u8>) -> Result<(), AllocError>
        requires led { IsLed self.old }
        requires line { IsScriptLine (line.Board (board_line.Abandon party.now)) }
        requires empty { answer.old.items ≡ [] }
        ensures { OnOk result (Tells self.old self.new (line.Board (board_line.Abandon party.now))
            answer.new.items) }
    {
        if self.unfree(party) == Some(Reason::Abandoned) {
            return push_refused(Reason::Abandoned, answer);
        }
        self.put_task(party, Task::Gone)?;
        self.events.abandon(party);
        push_gone(answer)
    }

    pub(crate) fn words(&mut self, board: u64, answer: &mut Vec<u8>) -> Result<(), AllocError>
        requires led { IsLed self.old }
        requires line { IsScriptLine (line.Board (board_line.Words board)) }
        requires empty { answer.old.items ≡ [] }
        ensures { OnOk result (Tells self.old self.new (line.Board (board_line.Words board))
            answer.new.items) }
    {
        if !self.boards.stands(board) {
            return push_refused(Reason::NoBoard, answer);
        }
        push_words(self.boards.words(board), answer)
    }
}
