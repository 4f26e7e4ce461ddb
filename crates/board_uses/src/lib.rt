//! The tests of monitoring and channels by their public names alone; and these and storages used by code over their traits
//! alone: what typed calls do behind their locks, of which their clauses say little.
#![tactic(auto)]

#[cfg(test)]
mod apart;
#[cfg(test)]
mod channel;
#[cfg(test)]
mod channels;
#[cfg(test)]
mod monitoring;
#[cfg(test)]
mod same;
#[cfg(test)]
mod storages;
