//! Laws of steps. Each function's contract is a theorem over the definitions alone.
ghost use Rattle.script_board_tables.specs.LawsOfSteps.{RunningCallsCanStep};

/// A call that a party runs in a sound state can make its next access.
pub fn running_calls_can_step()
    ensures { RunningCallsCanStep }
{}
