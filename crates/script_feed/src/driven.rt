//! A machine of scripts whose parties can be driven.
ghost use Rattle.std.specs.Prelude.{◌≡◌, List, ℕ, None, OnOk};
ghost use Rattle.script_feed.specs.KeptOf.{kept_of};
ghost use Rattle.script_feed.specs.PlainLines.{AnswersPlain};
ghost use Rattle.script_loop.specs.Machines.{StandsFor};
ghost use Rattle.script_model.specs.ScriptGrammar.{SpellsLine};
ghost use Rattle.script_model.specs.ScriptSession.{Session};

use crate::giving::{give, say};
use crate::parties::Parties;
use script_loop::RunsLines;
use script_model::ScriptLine;
use std::alloc::{AllocError, Global};

/// A machine of scripts, and what is kept of each party that is driven.
#[derive(Drop)]
pub struct Driven<M, T> {
    pub machine: M,
    pub kept: Parties<T>,
    /// The line that is given, and the answer to it.
    pub line: Vec<u8>,
    pub answer: Vec<u8>,
}

impl<M: RunsLines + Drop, T: Drop> Driven<M, T> {
    /// No party is driven. It takes no memory.
    pub fn new(alloc: Global, machine: M) -> Driven<M, T>
        ensures machine { result.machine ≡ machine }
        ensures kept { (p : List ℕ) → kept_of result.kept p ≡ None }
    {
        Driven {
            machine,
            kept: Parties::new(alloc),
            line: Vec::new(alloc),
            answer: Vec::new(alloc),
        }
    }

    /// Answers a line of a plain script: it is held back where the party that it names is driven, and this word is said of
    /// the party; any other line is given to the machine.
    ///
    /// # Errors
    /// `AllocError` where memory is refused.
    pub fn script(
        &mut self,
        word: &[u8],
        parsed: &ScriptLine,
        line: &[u8],
        told: &mut Vec<u8>,
    ) -> Result<(), AllocError>
        requires stands { (session : Session) × StandsFor M.stands self.old.machine session }
        requires spelled { SpellsLine line.now parsed.now }
        ensures { OnOk result (AnswersPlain M.stands self.old self.new word.now parsed.now line.now
            told.old.items told.new.items) }
    {
        if let Some(party) = self.kept.held_back(parsed) {
            return say(word, &party, told);
        }
        give(&mut self.machine, line, &mut self.answer, told)?;
        self.kept.let_go(parsed, &self.answer);
        Ok(())
    }
}
