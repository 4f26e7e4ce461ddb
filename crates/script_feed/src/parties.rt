//! What is kept of parties.
ghost use Rattle.std.specs.Prelude.{◌≡◌, List, ℕ, None, Some, OnErr, OnOk, if◌then◌else◌, option_copied};
ghost use Rattle.std.specs.Str.{bytes_eq};
ghost use Rattle.script_exchanges.specs.DrivenParties as driven;
ghost use Rattle.script_feed.specs.AnswerLooks.{IsAnswerOf};
ghost use Rattle.script_feed.specs.KeptOf.{kept_of};
ghost use Rattle.script_model.specs.ScriptAnswers.{ScriptAnswer, is_refused};

use crate::answers::is_refusal;
use crate::lines::{abandoned_by, held_back};
use board_model::Name;
use script_model::ScriptLine;
use std::alloc::{AllocError, AllocFailed, Global};
use std::collections::HashMap;

/// Something for each of some parties, found by the party's name.
#[derive(Drop)]
pub struct Parties<T> {
    rows: HashMap<Name, T>,
}

impl<T: Drop> Parties<T> {
    /// Nothing is kept. Takes no memory.
    pub fn new(alloc: Global) -> Parties<T>
        ensures { (p : List ℕ) → kept_of result p ≡ None }
    {
        Parties {
            rows: HashMap::new(alloc),
        }
    }

    /// What is kept of the party.
    pub fn of(&self, party: &Name) -> Option<&T>
        ensures { option_copied result ≡ kept_of self.now party.now }
    {
        self.rows.get(party)
    }

    /// Takes out what is kept of the party.
    pub fn take(&mut self, party: &Name) -> Option<T>
        ensures taken { result ≡ kept_of self.old party.now }
        ensures rest { (p : List ℕ) → kept_of self.new p
            ≡ (if bytes_eq p party.now then None else kept_of self.old p) }
    {
        self.rows.remove(party)
    }

    /// Keeps this of the party from now on.
    ///
    /// # Errors
    /// `AllocError` where memory is refused.
    pub fn keep(&mut self, party: Name, kept: T) -> Result<(), AllocError>
        ensures ok { OnOk result ((p : List ℕ) → kept_of self.new p
            ≡ (if bytes_eq p party then Some kept else kept_of self.old p)) }

        // Where memory is refused all is kept as before.
        ensures err { OnErr result ((p : List ℕ) → kept_of self.new p ≡ kept_of self.old p) }
    {
        match self.rows.insert(party, kept) {
            Ok(_) => Ok(()),
            Err(_) => Err(AllocError),
        }
    }

    /// The party for which the line is held back: the one that it names, where something is kept of it, unless it abandons it.
    pub fn held_back(&self, line: &ScriptLine) -> Option<Name>
        ensures { result ≡ driven.if_kept (kept_of self.now) (driven.held_back line.now) }
    {
        let party = held_back(line)?;
        if self.of(&party).is_none() {
            return None;
        }
        Some(party)
    }

    /// An abandonment that isn't refused ends what is kept of its party.
    pub fn let_go(&mut self, line: &ScriptLine, answer: &[u8])
        ensures { (a : ScriptAnswer) → IsAnswerOf answer.now a → (p : List ℕ)
            → kept_of self.new p
            ≡ driven.let_go (kept_of self.old) (driven.abandoned_by line.now)
            (is_refused a) p }
    {
        let Some(party) = abandoned_by(line) else {
            return;
        };
        if is_refusal(answer) {
            return;
        }
        let _ = self.take(&party);
    }
}
