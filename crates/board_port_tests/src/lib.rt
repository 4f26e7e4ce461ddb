//! The tests of boards as plain data and of their cells, by their public names alone: the calls on loans, a domain, whole
//! calls on its entries, and the cells of a board.
#![tactic(auto)]

#[cfg(test)]
mod cells;
#[cfg(test)]
mod ports;
#[cfg(test)]
mod same;
#[cfg(test)]
mod seats;
#[cfg(test)]
mod service;
