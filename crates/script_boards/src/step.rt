//! Lines `step P`.
ghost use Rattle.std.specs.Prelude.{◌≡◌, ◌+◌, ◌<◌, ◌≤◌, ◌^◌, ◌==◌, true, IfOk, OnErr, OnOk};
ghost use Rattle.board_cell.specs.Calls.{progress_of};
ghost use Rattle.board_model.specs.AnswerGrammar.{IsReply};
ghost use Rattle.board_model.specs.declared.line.Line.TheVariants as line;
ghost use Rattle.script_parties.specs.Parties.{HasWord, IsLoaded};
ghost use Rattle.script_boards.specs.Machine.{IsLed, Serves, kept_of};
ghost use Rattle.script_boards.specs.Steps as steps;
ghost use Rattle.script_boards.specs.Steps.{CanGoOn, CanRun, HasCounter, HasRead, IsCounter, IsKept, IsOwedBy, IsReadTold, IsSame, IsTold, IsWordSet, Owes, owed_on, ticked};
ghost use Rattle.script_boards.specs.TaskWants.{TaskMayWant, keeps_value};
ghost use Rattle.script_boards.specs.Wants.{MayWant};
ghost use Rattle.script_boards.specs.declared.step.OwedAccess.TheVariants as owed;

use crate::machine::{BoardMachine, KeptValue, TableTask, Task};
use board_cell::{Access as CellAccess, Progress};
use board_cell_model::Access;
use board_model::{Answer, Name, Reason, Reply, Words};
use board_service::BoardWords;
use script_seats::{Seat, put};
use std::alloc::AllocError;

/// The read that a call owes.
#[derive(Clone, Copy, Debug, PartialEq, Eq)]
pub(crate) struct OwedRead {
    pub(crate) board: u64,
    pub(crate) word: u64,
}

/// The write that a call owes, and whether it is its last.
#[derive(Clone, Copy, Debug, PartialEq, Eq)]
pub(crate) struct OwedWrite {
    pub(crate) board: u64,
    pub(crate) word: u64,
    pub(crate) value: u64,
    pub(crate) is_last: bool,
}

/// The access that a call owes next.
#[derive(Clone, Copy, Debug, PartialEq, Eq)]
pub(crate) enum OwedAccess {
    Table,
    Read(OwedRead),
    Write(OwedWrite),
}

// The access that a call makes to its cell, as one of the board. `is_last` is for a write.
fn owed_on(board: u64, access: CellAccess, is_last: bool) -> OwedAccess
    ensures { result ≡ owed_on board access is_last }
{
    match access {
        CellAccess::Read { word } => OwedAccess::Read(OwedRead { board, word }),
        CellAccess::Write { word, value } => OwedAccess::Write(OwedWrite {
            board,
            word,
            value,
            is_last,
        }),
    }
}

impl Task {
    /// Whether the party was abandoned.
    pub(crate) fn is_gone(&self) -> bool
        ensures { result ≡ steps.is_gone self.now }
    {
        match self {
            Task::Gone => true,
            _ => false,
        }
    }

    /// The access that is owed.
    fn owed(&self) -> OwedAccess
        requires { CanGoOn self.now }
        ensures { IsOwedBy self.now result }
    {
        match self {
            Task::Table(_) => OwedAccess::Table,
            Task::Get {
                board,
                call,
                value_type: _,
                value: _,
            } => owed_on(*board, call.next(), false),
            Task::Fresh { board, call } => owed_on(*board, call.next(), false),
            Task::Update { board, call } => owed_on(*board, call.next(), !call.owes_word()),
            Task::Put {
                board,
                call,
                loan: _,
                index: _,
                word: _,
            } => owed_on(*board, call.next(), true),
            Task::Publish {
                board,
                call,
                loan: _,
                handle: _,
            } => owed_on(*board, call.next(), true),
            Task::Fill {
                board,
                call,
                loan: _,
                handle: _,
            } => owed_on(*board, call.next(), !call.owes_word()),
            // `CanGoOn`: no party that is gone.
            Task::Gone => unreachable!(),
        }
    }

    /// An access was made; a read gave this word.
    pub(crate) fn took(&mut self, word: u64) -> Progress
        requires { CanGoOn self.old }
        ensures call { self.new ≡ ticked self.old word }
        ensures progress { result ≡ progress_of (steps.ends_call self.old word) }
    {
        match self {
            Task::Get {
                board: _,
                call,
                value_type: _,
                value: _,
            } => call.took(word),
            Task::Fresh { board: _, call } => call.took(word),
            Task::Update { board: _, call } => call.took(),
            Task::Put {
                board: _,
                call,
                loan: _,
                index: _,
                word: _,
            } => call.took(word),
            Task::Publish {
                board: _,
                call,
                loan: _,
                handle: _,
            } => call.took(word),
            Task::Fill {
                board: _,
                call,
                loan: _,
                handle: _,
            } => call.took(),
            _ => Progress::Done,
        }
    }
}

impl<C: BoardWords + Drop> BoardMachine<C> {
    /// The counter of an entry.
    pub fn counter(&mut self, board: u64, entry: u64) -> u64
        requires { HasCounter self.old board entry }
        ensures value { IsCounter self.old board entry result }
        ensures same { self.new ≡ self.old }
    {
        match self.domain.entry_at(board, entry) {
            Some(entry) => {
                let first = entry.cell.first;
                self.domain.load(board, first)
            }
            // `HasCounter`: the entry stands.
            None => unreachable!(),
        }
    }

    // Reads a word of a board.
    fn read_word(&mut self, board: u64, word: u64) -> u64
        requires { HasWord self.old.domain board word }
        ensures value { IsLoaded self.old.domain board word result }
        ensures same { IsSame self.old self.new }
    {
        self.domain.load(board, word)
    }

    // Writes a word of a board.
    fn write_word(&mut self, board: u64, word: u64, value: u64)
        requires { HasWord self.old.domain board word }
        ensures { IsWordSet self.old self.new board word value }
    {
        self.domain.store(board, word, value);
    }

    // The one step of a call on the tables.
    fn run_table(&mut self, party: Name, task: TableTask) -> Result<Reply, AllocError>
        requires { CanRun self.old party task }
        ensures told { IfOk result (IsTold self.old self.new party task) }
        ensures memory { OnErr result (TaskMayWant self.old party task) }
        ensures drawn { OnOk result (self.new.domain.drawn ≤ self.old.domain.drawn + 1) }
    {
        match task {
            TableTask::Create {
                factory,
                name,
                key_type,
                limits,
                attributes,
                entries,
            } => self.domain.create(
                party,
                factory,
                *name.as_text(),
                key_type,
                limits,
                attributes,
                &entries,
            ),
            TableTask::Open {
                factory,
                name,
                key_type,
                limits,
                needs,
            } => self
                .domain
                .open(party, factory, *name.as_text(), key_type, limits, needs),
            TableTask::Reader { reader, factory } => self.domain.reader(reader, &factory),
            TableTask::Writer { writer, factory } => self.domain.writer(writer, &factory),
            TableTask::Entry {
                handle,
                reader,
                key,
                value_type,
            } => self.domain.entry(handle, &reader, &key, value_type),
            TableTask::EntryMut {
                handle,
                writer,
                key,
                value_type,
            } => self.domain.entry_mut(handle, &writer, &key, value_type),
            TableTask::Loan {
                handle,
                loan,
                words,
            } => self.lend(party, &handle, loan, words),
            TableTask::Discard { loan, handle } => {
                self.give_back(&party, &loan, &handle);
                Ok(Reply::Done)
            }
            TableTask::Keys { factory } => { Ok(Reply::Keys(self.domain.keys(factory.board)?)) }
            TableTask::Nodes { factory } => { Ok(Reply::Nodes(self.domain.nodes(factory.board)?)) }
            TableTask::Info { factory } => Ok(Reply::Info(self.domain.info(factory.board)?)),
            TableTask::Id { thing } => Ok(Reply::Id(self.domain.id_of(&thing))),
            TableTask::Gen { handle } => Ok(Reply::Generation(self.counter(
                handle.board,
                handle.kind.entry(),
            ))),
        }
    }

    // The party keeps the value under the name, and no other that it kept under it.
    fn keep(&mut self, party: Name, name: Name, value: KeptValue) -> Result<(), AllocError>
        ensures { OnOk result (IsKept self.old self.new party name (kept_of value)) }
    {
        let seat = Seat { party, name };
        put(seat, value, &mut self.values)?;
        Ok(())
    }

    // What a call that has read its last word is told. The value read is kept where the call names it.
    #[inline(always)]
    fn tell_read(&mut self, party: Name, task: Task) -> Result<Reply, AllocError>
        requires { HasRead task }
        ensures told { IfOk result (IsReadTold self.old self.new party task) }
        ensures memory { OnErr result (keeps_value task ≡ true) }
        ensures is_reply { IfOk result IsReply }
    {
        match task {
            Task::Get {
                board: _,
                call,
                value_type,
                value,
            } => {
                let generation = call.generation();
                let words = call.into_buffer();
                if let Some(name) = value {
                    let copy = Vec::from_slice(self.alloc, &words)?;
                    let kept = KeptValue {
                        value_type,
                        words: Words::from_vec(copy),
                        generation,
                    };
                    self.keep(party, name, kept)?;
                }
                Ok(Reply::Got {
                    value_type,
                    words: Words::from_vec(words),
                    generation,
                })
            }
            Task::Fresh { board: _, call } => Ok(Reply::Fresh(call.answer())),
            // `HasRead`: a get or a look.
            _ => unreachable!(),
        }
    }

    // A step of a call on the tables.
    fn step_table(&mut self, party: &Name) -> Result<Answer, AllocError>
        requires led { IsLed self.old }
        requires owes { Owes self.old party.now owed.Table }
        ensures serves { IfOk result (λ a. Serves self.old self.new (line.Step party.now) a) }
        ensures memory { OnErr result (MayWant self.old (line.Step party.now)) }
        ensures drawn { OnOk result (self.new.domain.drawn ≤ self.old.domain.drawn + 1) }
    {
        let Some(task) = self.parties.take(party) else {
            // `Owes`: the party's call runs.
            unreachable!()
        };
        match task {
            Task::Table(task) => {
                let told = self.run_table(*party, task)?;
                Ok(Answer::Step {
                    access: Access::Table,
                    reply: Some(told),
                })
            }
            // `Owes`: a step on the tables.
            _ => unreachable!(),
        }
    }

    // A step of a call that reads a word.
    fn step_read(&mut self, party: &Name, read: OwedRead) -> Result<Answer, AllocError>
        requires led { IsLed self.old }
        requires owes { Owes self.old party.now (owed.Read read) }
        ensures serves { IfOk result (λ a. Serves self.old self.new (line.Step party.now) a) }
        ensures memory { OnErr result (MayWant self.old (line.Step party.now)) }
        ensures drawn { OnOk result (self.new.domain.drawn ≤ self.old.domain.drawn + 1) }
    {
        let value = self.read_word(read.board, read.word);
        let access = Access::Read {
            board: read.board,
            word: read.word,
            value,
        };
        match self.parties.hear(party, value) {
            None => Ok(Answer::Step {
                access,
                reply: None,
            }),
            Some(task) => {
                let told = self.tell_read(*party, task)?;
                Ok(Answer::Step {
                    access,
                    reply: Some(told),
                })
            }
        }
    }

    // A step of a call that writes a word.
    fn step_write(&mut self, party: &Name, write: OwedWrite) -> Answer
        requires led { IsLed self.old }
        requires owes { Owes self.old party.now (owed.Write write) }
        ensures serves { Serves self.old self.new (line.Step party.now) result }
        ensures drawn { self.new.domain.drawn ≤ self.old.domain.drawn + 1 }
    {
        self.write_word(write.board, write.word, write.value);
        let access = Access::Write {
            board: write.board,
            word: write.word,
            value: write.value,
        };
        if write.is_last {
            let Some(task) = self.parties.take(party) else {
                // `Owes`: the party's call runs.
                unreachable!()
            };
            self.settle(party, task);
            Answer::Step {
                access,
                reply: Some(Reply::Done),
            }
        } else {
            self.parties.go_on(party);
            Answer::Step {
                access,
                reply: None,
            }
        }
    }

    /// A line `step P`.
    ///
    /// # Errors
    /// `AllocError` where memory is refused: only for a step that makes or lends something, tells a list or an info, or is the
    /// last of a get that keeps its value. Of the machine nothing is said then.
    pub fn step(&mut self, party: &Name) -> Result<Answer, AllocError>
        requires { IsLed self.old }
        ensures serves { IfOk result (λ a. Serves self.old self.new (line.Step party.now) a) }
        ensures memory { OnErr result (MayWant self.old (line.Step party.now)) }
        ensures drawn { OnOk result (self.new.domain.drawn ≤ self.old.domain.drawn + 1) }
    {
        let Some(task) = self.parties.get(party) else {
            return Ok(Answer::Refused(Reason::Idle));
        };
        if task.is_gone() {
            return Ok(Answer::Refused(Reason::Abandoned));
        }
        match task.owed() {
            OwedAccess::Table => self.step_table(party),
            OwedAccess::Read(read) => self.step_read(party, read),
            OwedAccess::Write(write) => Ok(self.step_write(party, write)),
        }
    }
}
