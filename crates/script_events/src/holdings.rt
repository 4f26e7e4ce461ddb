//! What one party holds.
ghost use Rattle.std.specs.Prelude.{◌≡◌, ℕ, IfOk, List, None, OnErr, OnOk, Some, cond, true};
ghost use Rattle.std.specs.Str.{bytes_eq};
ghost use Rattle.script_events.specs.PartyEvents.{named_by};

use crate::rows::Holding;
use board_model::Name;
use std::alloc::{AllocError, Global};
use std::collections::HashMap;

/// What a party holds, by the names that it gave. A map is made for the second thing, since most parties hold one.
#[derive(Drop)]
pub(crate) enum Holdings {
    Nothing,
    One(Name, Holding),
    Many(Box<HashMap<Name, Holding>>),
}

// A map of two things under unequal names.
fn of_two(
    alloc: Global,
    first: Name,
    held: Holding,
    name: Name,
    holding: Holding,
) -> Result<Holdings, AllocError>
    ensures { IfOk result (λ own. (n : List ℕ) → named_by own n
        ≡ cond (bytes_eq name n) (Some holding) (cond (bytes_eq first n) (Some held) None)) }
{
    let mut all = HashMap::new(alloc);
    let _ = all.insert(first, held)?;
    let _ = all.insert(name, holding)?;
    let all = Box::new(alloc, all)?;
    Ok(Holdings::Many(all))
}

impl Holdings {
    /// What is held under a name.
    pub(crate) fn get(&self, name: &Name) -> Option<Holding>
        ensures { result ≡ named_by self.now name.now }
    {
        match self {
            Holdings::Nothing => None,
            Holdings::One(held, holding) => { if held == name { Some(*holding) } else { None } }
            Holdings::Many(all) => all.get(name).copied(),
        }
    }

    /// Whether nothing is held.
    pub(crate) fn is_empty(&self) -> bool
        ensures { result ≡ true → (n : List ℕ) → named_by self.now n ≡ None }
    {
        match self {
            Holdings::Nothing => true,
            Holdings::One(_, _) => false,
            Holdings::Many(all) => all.is_empty(),
        }
    }

    /// Holds this under the name.
    ///
    /// # Errors
    /// `AllocError` where memory is refused. What was held is held still.
    pub(crate) fn put(
        &mut self,
        alloc: Global,
        name: Name,
        holding: Holding,
    ) -> Result<(), AllocError>
        ensures ok { OnOk result ((n : List ℕ)
            → named_by self.new n ≡ cond (bytes_eq name n) (Some holding) (named_by self.old n)) }
        ensures err { OnErr result ((n : List ℕ) → named_by self.new n ≡ named_by self.old n) }
    {
        let (first, held) = match self {
            Holdings::Many(all) => {
                let _ = all.insert(name, holding)?;
                return Ok(());
            }
            Holdings::Nothing => {
                *self = Holdings::One(name, holding);
                return Ok(());
            }
            Holdings::One(first, held) => (*first, *held),
        };
        if first == name {
            *self = Holdings::One(name, holding);
            return Ok(());
        }
        *self = of_two(alloc, first, held, name, holding)?;
        Ok(())
    }

    /// Takes what is held under a name. Takes no memory.
    pub(crate) fn take(&mut self, name: &Name) -> Option<Holding>
        ensures value { result ≡ named_by self.old name.now }
        ensures left { (n : List ℕ)
            → named_by self.new n ≡ cond (bytes_eq name.now n) None (named_by self.old n) }
    {
        let (held, holding) = match self {
            Holdings::Many(all) => return all.remove(name),
            Holdings::Nothing => return None,
            Holdings::One(held, holding) => (*held, *holding),
        };
        if held != *name {
            return None;
        }
        *self = Holdings::Nothing;
        Some(holding)
    }
}
