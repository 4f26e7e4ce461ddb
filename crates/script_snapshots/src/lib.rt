//! What a script comes to whose parties can take snapshots of several entries at once, and the laws of it.
//!
//! `specs/Takings` has a snapshot that a party takes: its next line, what becomes of it with the answer, and how it is
//! written. `specs/SnapshotExchanges` says what is told of each line, and what stands afterwards. The laws are public
//! functions without a body: whatever lines there are, the session that is fed to the machine is a lawful one, each
//! snapshot that is written is that of one moment, and no snapshot takes many steps.
#![tactic(auto)]

pub mod taking_laws;
