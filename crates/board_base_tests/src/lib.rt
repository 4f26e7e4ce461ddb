//! The tests of the lowest crates, by their public names alone: plans, keys and details, names and how they are spelled,
//! and cells, in one thread and between threads.
#![tactic(auto)]

#[cfg(test)]
mod cell;
#[cfg(test)]
mod layout;
#[cfg(test)]
mod names;
#[cfg(test)]
mod same;
