//! The tests of typed ports by their public names alone: the life of a board, by typed calls and by lent forms.
#![tactic(auto)]

#[cfg(test)]
mod domain;
#[cfg(test)]
mod same;
