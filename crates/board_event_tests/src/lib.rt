//! The tests of the table of events by its public names alone: the calls on it as rows of steps.
#![tactic(auto)]

#[cfg(test)]
mod same;
#[cfg(test)]
mod table;
