//! The laws of boards and of events hold in every session of a script. Each function's contract is a theorem over the definitions alone.
ghost use Rattle.script_model.specs.LawsOfParts.{BoardsLaw, BoardsLawFrom, EventsLaw};

/// The boards' part of a lawful session is a lawful session of boards.
pub fn boards_are_alone()
    ensures { BoardsLaw }
{}

/// From any state on, the boards' part of a lawful session is a lawful session of boards, from the boards of that state to those of the last one.
pub fn boards_go_on_alone()
    ensures { BoardsLawFrom }
{}

/// The events' part of a lawful session is a session of events, whose moves on each event are a run that leads to what the
/// whole session has of it.
pub fn events_are_runs()
    ensures { EventsLaw }
{}
