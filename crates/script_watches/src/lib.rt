//! What a script comes to whose parties can be watchers on ids and values, and the laws of it.
//!
//! `specs/Watchings` has a watcher that drives a party: its next line, what becomes of it with the answer, and what it
//! reports. `specs/WatchExchanges` says what is told of each line, and what stands afterwards. The laws are public
//! functions without a body: whatever lines there are, the session that is fed to the machine is a lawful one, what one
//! watcher reports of one handle rises, each report is an item of its entry's list, and once a get that a taken id called
//! for has ended, the last report of its handle is at least as new as what was published before the notify of that id.
#![tactic(auto)]

pub mod watch_laws;
pub mod worked_watches;
