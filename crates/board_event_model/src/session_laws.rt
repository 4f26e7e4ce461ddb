//! The laws of runs hold in every session. The contract is a theorem over the definitions alone.
ghost use Rattle.board_event_model.specs.LawsOfSessions.{SessionLaw};

/// The moves of a session's own lines on an event are a run, which leads to what the session has of the event: so the laws
/// of runs hold of every event of every session, those of a run's moves included.
pub fn sessions_are_runs()
    ensures { SessionLaw }
{}
