//! A watcher, as it is kept.
ghost use Rattle.std.specs.Prelude.{◌≡◌, ◌++◌, ◌<◌, ℕ, List, codes, IfOk, OnOk, unwrap_or, length};
ghost use Rattle.board_model.specs.LineGrammar.{is_name};
ghost use Rattle.script_exchanges.specs.DrivenParties.{Got};
ghost use Rattle.script_feed.specs.AnswerLooks.{HasGot};
ghost use Rattle.script_feed.specs.KeptOf.{kept_of};
ghost use Rattle.script_model.specs.ScriptGrammar.{script_spell};
ghost use Rattle.script_watches.specs.Watchings.{Report, Watching, next_line, report_text};
ghost use Rattle.script_exchanges.specs.Exchanges.{said, told_text};
ghost use Rattle.script_watchers.specs.Watches.{Follows, FollowsGot, FollowsReport, FollowsWait, HasNext, Keeps, SaysReport, phase_after};

use crate::calls::{Asked, collect};
use crate::lines::write_wait;
use crate::replies::read_ids;
use board_model::Name;
use script_feed::{Parties, got_of, is_refusal, write_get, write_step};
use std::alloc::{AllocError, Global};

/// What a watcher does next.
#[derive(Clone, Copy, Debug, PartialEq, Eq)]
pub(crate) enum Phase {
    /// It begins to wait.
    Idle,
    /// Its wait takes a step.
    Waits,
    /// It begins to get a handle that is called for.
    Called,
    /// Its get takes a step.
    Gets,
}

/// What becomes of a watcher with the answer to its next line.
#[derive(Clone, Copy, Debug, PartialEq, Eq)]
pub(crate) enum Progress {
    GoesOn,
    /// It goes on, and reports what it got.
    Reports,
    Refused,
}

/// A watcher.
#[derive(Drop)]
pub(crate) struct Watch {
    listener: Name,
    rows: Vec<Asked>,
    phase: Phase,
    /// The ids that the last wait was told.
    ids: Vec<u64>,
    /// The handles that they call for, and how many of these were got.
    calls: Vec<Name>,
    got: usize,
    /// The generation that was reported last of each handle, found by its name.
    reported: Parties<u64>,
    /// What is written of the last report behind its party.
    told: Vec<u8>,
}

// Writes a handle, and what a get through it was told.
fn write_got(handle: &Name, text: &[u8], told: &mut Vec<u8>) -> Result<(), AllocError>
    ensures { OnOk result (told.new.items
        ≡ codes " " ++ (handle.now ++ (codes " " ++ text.now))) }
{
    told.clear();
    told.push(b' ')?;
    told.extend_from_slice(handle.as_bytes())?;
    told.push(b' ')?;
    told.extend_from_slice(text)
}

// The last generation that was reported of the handle; 0 where none was.
fn highest_of(reported: &Parties<u64>, handle: &Name) -> u64
    ensures { result ≡ unwrap_or (kept_of reported.now handle.now) 0 }
{
    match reported.of(handle) {
        Some(generation) => *generation,
        None => 0,
    }
}

// What follows when so many of the handles that are called for were got.
fn phase_after(got: usize, calls: usize) -> Phase
    ensures { result ≡ phase_after got calls }
{
    if got < calls {
        return Phase::Called;
    }
    Phase::Idle
}

impl Watch {
    /// A watcher that has begun no wait.
    pub(crate) fn new(alloc: Global, listener: Name, rows: Vec<Asked>) -> Watch
        ensures listener { result.listener ≡ listener }
        ensures rows { result.rows ≡ rows }
        ensures phase { result.phase ≡ Phase.Idle }
        ensures reported { (handle : List ℕ) → kept_of result.reported handle ≡ None }
    {
        Watch {
            listener,
            rows,
            phase: Phase::Idle,
            ids: Vec::new(alloc),
            calls: Vec::new(alloc),
            got: 0,
            reported: Parties::new(alloc),
            told: Vec::new(alloc),
        }
    }

    /// Writes the party's next line.
    pub(crate) fn write_line(&self, party: &Name, line: &mut Vec<u8>) -> Result<(), AllocError>
        requires room { HasNext self.now }
        ensures { OnOk result ((x : Watching) → Keeps self.now x
            → line.new.items ≡ script_spell (next_line party.now x)) }
    {
        match self.phase {
            Phase::Idle => write_wait(party, &self.listener, line),
            Phase::Waits => write_step(party, line),
            Phase::Called => write_get(party, &self.calls[self.got], line),
            Phase::Gets => write_step(party, line),
        }
    }

    // The wait that runs has taken a step.
    fn waited(&mut self, answer: &[u8]) -> Result<(), AllocError>
        ensures { OnOk result (FollowsWait self.old self.new answer.now) }
    {
        if !read_ids(answer, &mut self.ids)? {
            return Ok(());
        }
        collect(&self.rows, &self.ids, &mut self.calls)?;
        self.got = 0;
        self.phase = phase_after(0, self.calls.len());
        Ok(())
    }

    // What was got is reported, where its generation is above those that were reported.
    fn report(
        &mut self,
        handle: &Name,
        text: &[u8],
        generation: u64,
    ) -> Result<Progress, AllocError>
        ensures { IfOk result (λ p. FollowsReport self.old self.new handle.now text.now generation p) }
    {
        if generation <= highest_of(&self.reported, handle) {
            return Ok(Progress::GoesOn);
        }
        self.reported.keep(*handle, generation)?;
        write_got(handle, text, &mut self.told)?;
        Ok(Progress::Reports)
    }

    // The get that runs has ended, and was told this.
    fn got(&mut self, text: &[u8], generation: u64) -> Result<Progress, AllocError>
        requires room { self.old.got < length self.old.calls.items }
        ensures { IfOk result (λ p. (got : Got) → HasGot text.now generation got
            → FollowsGot self.old self.new got p) }
    {
        let handle = self.calls[self.got];
        self.got += 1;
        self.phase = phase_after(self.got, self.calls.len());
        self.report(&handle, text, generation)
    }

    /// Takes note of the answer to the party's next line.
    pub(crate) fn took(&mut self, answer: &[u8]) -> Result<Progress, AllocError>
        requires room { HasNext self.old }
        ensures { IfOk result (λ p. Follows self.old self.new answer.now p) }
    {
        if is_refusal(answer) {
            return Ok(Progress::Refused);
        }
        match self.phase {
            Phase::Idle => {
                self.phase = Phase::Waits;
                Ok(Progress::GoesOn)
            }
            Phase::Waits => {
                self.waited(answer)?;
                Ok(Progress::GoesOn)
            }
            Phase::Called => {
                self.phase = Phase::Gets;
                Ok(Progress::GoesOn)
            }
            Phase::Gets => match got_of(answer) {
                Some((text, generation)) => self.got(text, generation),
                None => Ok(Progress::GoesOn),
            },
        }
    }

    /// Writes the last report.
    pub(crate) fn say_report(&self, party: &Name, told: &mut Vec<u8>) -> Result<(), AllocError>
        ensures { OnOk result ((r : Report) → SaysReport self.now r
            → told.new.items ≡ told.old.items ++ told_text (said (report_text party.now r))) }
    {
        told.extend_from_slice(b"report ")?;
        told.extend_from_slice(party.as_bytes())?;
        told.extend_from_slice(&self.told)?;
        told.push(b'\n')?;
        Ok(())
    }
}
