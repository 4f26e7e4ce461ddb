//! A running call can take the access that it owes. The contract is a theorem over the definitions alone.
ghost use Rattle.board_event_model.specs.LawsOfAccesses.{PerformLaw};

/// The access that a running call owes can be made, while fewer than 2^64 - 1 accesses were taken.
pub fn owed_accesses_can_be_made()
    ensures { PerformLaw }
{}
