//! A snapshot that a party takes, as it is kept.
ghost use Rattle.std.specs.Prelude.{◌≡◌, ◌++◌, ◌<◌, ◌&&◌, true, codes, IfOk, OnOk, length};
ghost use Rattle.std.specs.Str.{bytes_eq};
ghost use Rattle.std.specs.List.{AllByRecursion};
ghost use Rattle.board_model.specs.LineGrammar.{is_name};
ghost use Rattle.script_exchanges.specs.DrivenParties.{Got};
ghost use Rattle.script_feed.specs.AnswerLooks.{HasGot};
ghost use Rattle.script_model.specs.ScriptGrammar.{script_spell};
ghost use Rattle.script_snapshots.specs.Takings.{Taking, new_taking, next_line};
ghost use Rattle.script_shots.specs.Shots.{Follows, FollowsGot, Keeps, SaysWhole, whole_line};

use board_model::{Name, Names};
use script_feed::{got_of, is_refusal, write_get, write_step};
use std::alloc::{AllocError, Global};
use std::mem::swap;

/// What becomes of a snapshot with the answer to its next line.
#[derive(Clone, Copy, Debug, PartialEq, Eq)]
pub(crate) enum Progress {
    GoesOn,
    Refused,
    /// Its last round had the generations of the one before.
    Whole,
}

/// A snapshot that a party takes.
#[derive(Drop, Debug)]
pub(crate) struct Shot {
    handles: Vec<Name>,
    /// A get runs.
    runs: bool,
    /// The generations of the last whole round, where there was one.
    has_earlier: bool,
    earlier: Vec<u64>,
    /// Those of the gets of this round that have ended.
    generations: Vec<u64>,
    /// What is written of these gets where the snapshot ends with this round.
    told: Vec<u8>,
}

// Adds what is written of a get through a handle.
fn push_got(handle: &Name, text: &[u8], told: &mut Vec<u8>) -> Result<(), AllocError>
    ensures { OnOk result (told.new.items
        ≡ told.old.items ++ (codes " " ++ (handle.now ++ (codes " " ++ text.now)))) }
{
    told.push(b' ')?;
    told.extend_from_slice(handle.as_bytes())?;
    told.push(b' ')?;
    told.extend_from_slice(text)
}

impl Shot {
    /// A snapshot of which no get has begun.
    pub(crate) fn new(alloc: Global, handles: Names) -> Result<Shot, AllocError>
        requires named { AllByRecursion (λ n. is_name n ≡ true) handles }
        ensures { IfOk result (λ shot. Keeps shot (new_taking handles)) }
    {
        let handles = handles.into_vec();
        let earlier = Vec::with_capacity(alloc, handles.len())?;
        let generations = Vec::with_capacity(alloc, handles.len())?;
        Ok(Shot {
            handles,
            runs: false,
            has_earlier: false,
            earlier,
            generations,
            told: Vec::new(alloc),
        })
    }

    /// Writes the party's next line.
    pub(crate) fn write_line(&self, party: &Name, line: &mut Vec<u8>) -> Result<(), AllocError>
        requires room { length self.now.generations.items < length self.now.handles.items }
        ensures { OnOk result ((x : Taking) → Keeps self.now x
            → line.new.items ≡ script_spell (next_line party.now x)) }
    {
        if self.runs {
            return write_step(party, line);
        }
        write_get(party, &self.handles[self.generations.len()], line)
    }

    // Whether the round before had the generations of this one.
    fn is_alike(&self) -> bool
        ensures { result ≡ (self.now.has_earlier
            && bytes_eq self.now.earlier.items self.now.generations.items) }
    {
        self.has_earlier && self.earlier == self.generations
    }

    // The get that runs has ended, and was told this.
    fn got(&mut self, text: &[u8], generation: u64) -> Result<Progress, AllocError>
        requires room { length self.old.generations.items < length self.old.handles.items }
        ensures { IfOk result (λ p. (got : Got) → HasGot text.now generation got
            → FollowsGot self.old self.new got p) }
    {
        self.runs = false;
        push_got(&self.handles[self.generations.len()], text, &mut self.told)?;
        self.generations.push(generation)?;
        if self.generations.len() < self.handles.len() {
            return Ok(Progress::GoesOn);
        }
        if self.is_alike() {
            return Ok(Progress::Whole);
        }
        swap(&mut self.earlier, &mut self.generations);
        self.has_earlier = true;
        self.generations.clear();
        self.told.clear();
        Ok(Progress::GoesOn)
    }

    /// Takes note of the answer to the party's next line.
    pub(crate) fn took(&mut self, answer: &[u8]) -> Result<Progress, AllocError>
        requires room { length self.old.generations.items < length self.old.handles.items }
        ensures { IfOk result (λ p. Follows self.old self.new answer.now p) }
    {
        if is_refusal(answer) {
            return Ok(Progress::Refused);
        }
        if !self.runs {
            self.runs = true;
            return Ok(Progress::GoesOn);
        }
        match got_of(answer) {
            Some((text, generation)) => self.got(text, generation),
            None => Ok(Progress::GoesOn),
        }
    }

    /// Writes the snapshot.
    pub(crate) fn say_whole(&self, party: &Name, told: &mut Vec<u8>) -> Result<(), AllocError>
        ensures { OnOk result ((y : Taking) → SaysWhole self.now y
            → told.new.items ≡ told.old.items ++ whole_line party.now y) }
    {
        told.extend_from_slice(b"snapshot ")?;
        told.extend_from_slice(party.as_bytes())?;
        told.extend_from_slice(&self.told)?;
        told.push(b'\n')?;
        Ok(())
    }
}
