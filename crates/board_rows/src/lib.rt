//! Worked scripts: each line with its answer, run line by line and from a source to a sink, and checked; and scripts whose
//! parties are driven, with what is told of them.
//!
//! The tables of rows read as the first run in the README does. Their answers were worked out by hand from the definitions, and not taken from the program.
#![tactic(auto)]

#[cfg(test)]
mod abandoned;
#[cfg(test)]
mod boards;
#[cfg(test)]
mod driven;
#[cfg(test)]
mod events;
#[cfg(test)]
mod faults;
#[cfg(test)]
mod in_memory;
#[cfg(test)]
mod limits;
#[cfg(test)]
mod loans;
#[cfg(test)]
mod openings;
#[cfg(test)]
mod program;
#[cfg(test)]
mod programs;
#[cfg(test)]
mod readers;
#[cfg(test)]
mod row;
#[cfg(test)]
mod same;
#[cfg(test)]
mod sessions;
#[cfg(test)]
mod tables;
#[cfg(test)]
mod whole;
