//! The tests of policies, hashes, attributes and descriptions by their public names alone, and of the modules in which
//! each concept stands.
#![tactic(auto)]

#[cfg(test)]
mod attributes;
#[cfg(test)]
mod concepts;
#[cfg(test)]
mod descriptions;
#[cfg(test)]
mod policies;
#[cfg(test)]
mod same;
