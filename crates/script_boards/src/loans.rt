//! Loans: write handles that are out, and the words that were put.
ghost use Rattle.std.specs.Prelude.{◌≡◌, ◌<◌, Option, None, IfOk, OnOk, option_map};
ghost use Rattle.board_layout.specs.Layout.{cell_shape};
ghost use Rattle.board_model.specs.declared.answer.Reply.TheVariants as reply;
ghost use Rattle.board_model.specs.declared.line.Call.TheVariants as call;
ghost use Rattle.script_boards.specs.Begins.{Checks, HasGeneration, HasNoTask, loan_held};
ghost use Rattle.script_boards.specs.LoanCalls.{CanSettle, HasLoanWord, IsGivenBack, IsLoaned, IsSettled, IsWordPut};
ghost use Rattle.script_boards.specs.Machine.{IsLed};

use crate::begin::{is_value_of, require};
use crate::lookups::set_word;
use crate::machine::{BoardMachine, TableTask, Task};
use crate::not_begun::NotBegun;
use crate::value_update::ValueUpdate;
use board_model::{Name, Reason, Reply, ThingKind, Value};
use board_ports::{LoanCore, WriteCore};
use board_service::{BoardWords, EntryRow};
use script_parties::Held;
use script_seats::{Seat, forget, put};
use std::alloc::AllocError;

// What a write handle of an entry knows at this generation.
fn write_core(entry: &EntryRow, generation: u64) -> WriteCore
    ensures shape { result.shape ≡ cell_shape entry.now.cell }
    ensures generation { result.generation ≡ generation }
{
    WriteCore {
        shape: entry.cell.shape(),
        entry_id: entry.cell.place,
        generation,
    }
}

impl<C: BoardWords + Drop> BoardMachine<C> {
    // The write handle that a loan of the party is, and its words.
    fn loan_held(&self, party: &Name, name: &Name) -> Option<(Held, &Vec<Option<u64>>)>
        ensures { option_map (λ l. (l.0, l.1.now.items)) result
            ≡ loan_held self.now party.now name.now }
    {
        match (
            self.domain
                .held_of_kind(ThingKind::WriteHandle, party, name),
            self.words_lent(party, name),
        ) {
            (Some(found), Some(words)) => Some((found, words)),
            _ => None,
        }
    }

    /// The write handle that a loan of the party is.
    pub(crate) fn thing_of_loan(&self, party: &Name, name: &Name) -> Option<Held>
        ensures { result ≡ option_map (λ l. l.0) (loan_held self.now party.now name.now) }
    {
        match self.loan_held(party, name) {
            Some((found, _)) => Some(found),
            None => None,
        }
    }

    /// Whether a loan may be discarded.
    pub(crate) fn check_discard(
        &self,
        party: &Name,
        loan: Name,
        handle: Name,
    ) -> Result<Task, NotBegun>
        ensures { Checks self.now party.now (call.Discard loan handle) result }
    {
        let Some(_) = self.loan_held(party, &loan) else {
            return Err(NotBegun::Refused(Reason::Unknown));
        };
        self.require_free(party, &handle)?;
        Ok(Task::Table(TableTask::Discard { loan, handle }))
    }

    /// Whether a word may be put into a loan.
    pub(crate) fn check_put(
        &self,
        party: &Name,
        loan: Name,
        index: u64,
        word: u64,
        generation: u64,
    ) -> Result<Task, NotBegun>
        requires led { IsLed self.now }
        requires free { HasNoTask self.now party.now }
        requires generation { HasGeneration self.now party.now (call.Put loan index word)
            generation }
        ensures { Checks self.now party.now (call.Put loan index word) result }
    {
        let Some((found, words)) = self.loan_held(party, &loan) else {
            return Err(NotBegun::Refused(Reason::Unknown));
        };
        let entry = self.entry_held(&found);
        let core = LoanCore::lent(write_core(entry, generation), words);
        let Some(call) = core.put(index, word) else {
            return Err(NotBegun::Refused(Reason::Index));
        };
        Ok(Task::Put {
            board: found.board,
            call,
            loan,
            index,
            word,
        })
    }

    /// Whether the words of a loan may be published.
    pub(crate) fn check_publish(
        &self,
        party: &Name,
        loan: Name,
        handle: Name,
        generation: u64,
    ) -> Result<Task, NotBegun>
        requires led { IsLed self.now }
        requires free { HasNoTask self.now party.now }
        requires generation { HasGeneration self.now party.now (call.Publish loan handle)
            generation }
        ensures { Checks self.now party.now (call.Publish loan handle) result }
    {
        let Some((found, words)) = self.loan_held(party, &loan) else {
            return Err(NotBegun::Refused(Reason::Unknown));
        };
        let entry = self.entry_held(&found);
        self.require_free(party, &handle)?;
        let core = LoanCore::lent(write_core(entry, generation), words);
        require(core.is_filled(), Reason::Unfilled)?;
        Ok(Task::Publish {
            board: found.board,
            call: core.publish(),
            loan,
            handle,
        })
    }

    /// Whether a loan may be filled with a value and published.
    pub(crate) fn check_fill(
        &self,
        party: &Name,
        loan: Name,
        handle: Name,
        value: Value,
        generation: u64,
    ) -> Result<Task, NotBegun>
        requires led { IsLed self.now }
        requires free { HasNoTask self.now party.now }
        requires generation { HasGeneration self.now party.now (call.Fill loan handle value)
            generation }
        ensures { Checks self.now party.now (call.Fill loan handle value) result }
    {
        let Some(found) = self.thing_of_loan(party, &loan) else {
            return Err(NotBegun::Refused(Reason::Unknown));
        };
        let entry = self.entry_held(&found);
        self.require_free(party, &handle)?;
        require(is_value_of(value, entry), Reason::Type)?;
        Ok(Task::Fill {
            board: found.board,
            call: ValueUpdate::new(entry.cell.shape(), generation, value),
            loan,
            handle,
        })
    }

    /// Makes a loan of a write handle. No word of it is put.
    pub(crate) fn lend(
        &mut self,
        party: Name,
        handle: &Name,
        loan: Name,
        words: u64,
    ) -> Result<Reply, AllocError>
        ensures told { IfOk result (λ told. told ≡ reply.Done) }
        ensures loan { OnOk result (IsLoaned self.old self.new party handle.now loan words) }
    {
        let none_put = Vec::from_elem(self.alloc, None, words as usize)?;
        let seat = Seat { party, name: loan };
        put(seat, none_put, &mut self.loans)?;
        self.domain.rename(&party, handle, &loan);
        Ok(Reply::Done)
    }

    /// Makes a write handle of a loan again, and forgets its words.
    pub(crate) fn give_back(&mut self, party: &Name, loan: &Name, handle: &Name)
        ensures { IsGivenBack self.old self.new party.now loan.now handle.now }
    {
        let seat = Seat {
            party: *party,
            name: *loan,
        };
        forget(&seat, &mut self.loans);
        self.domain.rename(party, loan, handle);
    }

    // Puts a word into a loan.
    fn put_word(&mut self, party: &Name, loan: &Name, index: u64, word: u64)
        requires { HasLoanWord self.old party.now loan.now index }
        ensures { IsWordPut self.old self.new party.now loan.now index word }
    {
        let seat = Seat {
            party: *party,
            name: *loan,
        };
        set_word(&seat, index, word, &mut self.loans);
    }

    /// What the last write of a call does to its loan.
    pub(crate) fn settle(&mut self, party: &Name, task: Task)
        requires { CanSettle self.old party.now task }
        ensures { IsSettled self.old self.new party.now task }
    {
        match task {
            Task::Put {
                board: _,
                call: _,
                loan,
                index,
                word,
            } => self.put_word(party, &loan, index, word),
            Task::Publish {
                board: _,
                call: _,
                loan,
                handle,
            } => self.give_back(party, &loan, &handle),
            Task::Fill {
                board: _,
                call: _,
                loan,
                handle,
            } => self.give_back(party, &loan, &handle),
            _ => {}
        }
    }
}
