//! The tests of the ends of events by their public names alone: the rows on events by typed calls and by lent forms, the
//! typed calls at their limits, and ends in two threads.
#![tactic(auto)]

#[cfg(test)]
mod ends;
#[cfg(test)]
mod same;
