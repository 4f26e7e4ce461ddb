//! Ids up to a greatest one, as words of 64 bits.
ghost use Rattle.std.specs.Prelude.{◌≡◌, ◌≤◌, ◌<◌, ◌+◌, ◌*◌, ◌/◌, ◌^◌, ℕ, IfOk, IsOkUnless, true, false, length};
ghost use Rattle.std.specs.FinSet as set;
ghost use Rattle.board_event_model.specs.Ids.{has, IsWord};
ghost use Rattle.board_event_core.specs.IdSets.{IdSet, IsAcquired, IsCalledOnEach, IsLeastIn, with_id, without_word};
ghost use Rattle.board_event_core.specs.Passing.{NoneBetween};

use crate::id_tracker::IdTracker;
use board_names::{ListenerCreateError, NotifierNotifyError, TriggerId};
use std::alloc::{AllocError, Global};
use std::marker::Model;

/// Ids up to a greatest one, as words of 64 bits: id i is bit i mod 64 of word i / 64. Clauses see the set of the ids.
#[derive(Drop, Debug)]
pub struct BitSet {
    words: Vec<u64>,
    max: u64,
}

impl Model for BitSet {
    ghost use Rattle.std.specs.Prelude.{◌≡◌, ◌+◌, ◌/◌, ◌<◌, ◌^◌, length};
    ghost use Rattle.board_event_core.specs.IdSets.{IdSet, ids_of, id_set_code};

    ghost Value = { IdSet };

    ghost coded = { id_set_code };

    ghost view = { λ s. record { max = s.max; ids = ids_of s.words.items } };

    ghost invariant = { λ s. length s.words.items ≡ s.max / 64 + 1 };
}

impl BitSet {
    /// No ids, and room for all up to the greatest.
    ///
    /// # Errors
    /// `OutOfMemory`.
    pub fn new(alloc: Global, max: TriggerId) -> Result<BitSet, ListenerCreateError>
        ensures value { IfOk result (λ s. s ≡ record { max = max; ids = set.empty }) }
        ensures memory { IsOkUnless result ListenerCreateError.OutOfMemory }
    {
        match BitSet::with_max(alloc, max.as_value() as u64) {
            Ok(set) => Ok(set),
            Err(_) => Err(ListenerCreateError::OutOfMemory),
        }
    }

    /// No ids, and room for all up to the greatest.
    pub(crate) fn with_max(alloc: Global, max: u64) -> Result<BitSet, AllocError>
        ensures { IfOk result (λ s. s ≡ record { max = max; ids = set.empty }) }
    {
        let words = vec![in alloc; 0u64; (max / 64 + 1) as usize]?;
        Ok(BitSet { words, max })
    }

    /// The greatest id.
    pub fn max(&self) -> u64
        ensures { result ≡ self.now.max }
    {
        self.max
    }

    /// Adds an id.
    pub fn set(&mut self, id: u64)
        requires { id ≤ self.old.max }
        ensures { self.new ≡ with_id self.old id }
    {
        self.words[(id / 64) as usize] |= 1 << (id % 64);
    }

    /// Takes an id out.
    pub fn clear(&mut self, id: u64)
        requires { has self.old.ids id ≡ true }
        ensures { self.new ≡ record self.old { ids = set.remove self.old.ids id } }
    {
        self.words[(id / 64) as usize] &= !(1 << (id % 64));
    }

    /// The ids of a word, as bits.
    pub fn scan(&self, word: u64) -> u64
        requires { word < self.now.max / 64 + 1 }
        ensures { IsWord self.now.ids word result }
    {
        self.words[word as usize]
    }

    /// The first word from this one on that has ids, or the last word.
    pub fn next_word(&self, word: u64) -> u64
        requires { word < self.now.max / 64 + 1 }
        ensures behind { word ≤ result }
        ensures within { result < self.now.max / 64 + 1 }
        ensures none { NoneBetween self.now.ids word result }
        ensures some { IsWord self.now.ids result 0 → result ≡ self.now.max / 64 }
    {
        let last = self.words.len() - 1;
        let mut at = word as usize;
        while at < last && self.words[at] == 0 {
            at += 1;
        }
        at as u64
    }

    /// The ids of a word, as bits, which it takes out.
    pub fn swap(&mut self, word: u64) -> u64
        requires { word < self.old.max / 64 + 1 }
        ensures taken { IsWord self.old.ids word result }
        ensures left { self.new ≡ without_word self.old word }
    {
        let bits = self.words[word as usize];
        self.words[word as usize] = 0;
        bits
    }

    /// Whether an id is in it.
    pub fn contains(&self, id: u64) -> bool
        ensures { result ≡ has self.now.ids id }
    {
        let at = (id / 64) as usize;
        if at >= self.words.len() {
            return false;
        }
        self.words[at] >> (id % 64) & 1 == 1
    }

    /// Takes the least id out.
    fn take_least(&mut self) -> Option<u64>
        ensures { IsAcquired self.old self.new result }
    {
        match least_in(self.words.as_slice()) {
            None => None,
            Some(id) => {
                self.clear(id);
                Some(id)
            }
        }
    }

    /// Takes the least id out.
    fn take_id(&mut self) -> Option<TriggerId>
        ensures { IsAcquired self.old self.new result }
    {
        match self.take_least() {
            None => None,
            Some(id) => Some(TriggerId::new(id as usize)),
        }
    }

    /// Takes all ids out, and hands them to the callback, the least first.
    fn take_all<F: FnMut(TriggerId)>(&mut self, mut callback: F)
        requires { F.IsAlwaysCallable callback }
        ensures calls { IsCalledOnEach (λ p x q. F.step p x tt q) callback self.old.ids }
        ensures left { self.new ≡ record self.old { ids = set.empty } }
    {
        while let Some(id) = self.take_id() {
            callback(id);
        }
    }
}

impl IdTracker for BitSet {
    ghost set_of = { λ s. s };

    fn trigger_id_max(&self) -> TriggerId {
        TriggerId::new(self.max as usize)
    }

    fn add(&mut self, id: TriggerId) -> Result<(), NotifierNotifyError> {
        let id = id.as_value() as u64;
        if id > self.max {
            return Err(NotifierNotifyError::TriggerIdOutOfBounds);
        }
        self.set(id);
        Ok(())
    }

    fn acquire(&mut self) -> Option<TriggerId> {
        self.take_id()
    }

    fn acquire_all<F: FnMut(TriggerId)>(&mut self, callback: F) {
        self.take_all(callback)
    }
}

/// The least id of words.
fn least_in(words: &[u64]) -> Option<u64>
    requires { length words.now ≤ 2 ^ 58 }
    ensures { IsLeastIn words.now result }
{
    for (k, word) in words.iter().enumerate() {
        if *word != 0 {
            return Some(64 * (k as u64) + u64::from(word.trailing_zeros()));
        }
    }
    None
}
