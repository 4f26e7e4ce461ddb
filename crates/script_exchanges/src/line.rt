//! The lines of a script whose parties can be driven.
use board_model::{Name, Names};
use script_model::ScriptLine;

/// What drives a party.
#[derive(Clone, Copy, Debug, PartialEq, Eq)]
pub enum Drive {
    /// Snapshots of several entries.
    Snapshots,
    /// Watchers on ids and values.
    Watchers,
}

/// A line of a script whose parties can be driven.
#[derive(Drop, Debug)]
pub enum DriveLine {
    /// A line of a plain script.
    Script(ScriptLine),
    /// The party is to be driven, over these things of its own.
    Start { party: Name, things: Names },
    /// The party's next line is to be given.
    Turn { party: Name },
}
