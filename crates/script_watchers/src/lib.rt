//! The machine of scripts whose parties can be watchers on ids and values, over any machine of plain scripts.
//!
//! `WatcherMachine` answers a line. `watch` has a watcher: its handles with their ids, what it does next, and the last
//! generation that it reported of each handle; `replies` reads ids from answers, `calls` finds the handles that ids call for,
//! and `lines` writes the lines that a watcher alone is given. Contracts see which exchanges of lines and what is told of
//! them led to the machine (`specs/Machines`), and how each watcher is kept (`specs/Watches`).
#![tactic(auto)]

mod calls;
mod lines;
mod machine;
mod opening;
mod replies;
mod watch;

pub use machine::WatcherMachine;
