//! Whether a board has an index of its keys, and which entry it gives: for numbers, and for a type of keys of one's own (`Slot`), which says that its keys are equal only where their bytes are, and
//! has that proved (`proofs/SlotKeys`).
#![tactic(auto)]

mod slot;

pub use slot::Slot;

#[cfg(test)]
mod index;
