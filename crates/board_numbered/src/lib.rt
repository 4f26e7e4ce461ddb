//! Maps under numbers that only rise, seen as lists.
//!
//! What is kept under the numbers 1, 2 and so on, each drawn once, stands in the order of making. `specs/Standing` says
//! which list a map is, and `proofs/Standing` what is found there and what comes and goes: the facts by which a map takes
//! the place of a list, so that nothing that is looked up, added or taken out costs more the more there is.
#![tactic(auto)]
