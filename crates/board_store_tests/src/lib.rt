//! The tests of static storage, in memory and over files, by its public names alone.
#![tactic(auto)]

#[cfg(test)]
mod files;
#[cfg(test)]
mod same;
#[cfg(test)]
mod store;
