//! Laws of turns. Each function's contract is a theorem over the definitions alone.
ghost use Rattle.script_moments.specs.LawsOfTurns.{CallsAreBegunOrRefused, EventCallsAreBegunOrRefused, IdsAreTold, SnapshotsStepOn, WaitsStepOn, WatchersStepOn};

/// A call on boards is begun or refused.
pub fn calls_are_begun_or_refused()
    ensures { CallsAreBegunOrRefused }
{}

/// A call on events is begun or refused.
pub fn event_calls_are_begun_or_refused()
    ensures { EventCallsAreBegunOrRefused }
{}

/// The get of a snapshot that runs goes on or ends with the party's next step.
pub fn snapshots_step_on()
    ensures { SnapshotsStepOn }
{}

/// The get of a watcher that runs goes on or ends with the party's next step.
pub fn watchers_step_on()
    ensures { WatchersStepOn }
{}

/// An id that was asked for is told with the party's next step.
pub fn ids_are_told()
    ensures { IdsAreTold }
{}

/// The wait of a watcher goes on with the party's next step, or ends and is told the ids that it took.
pub fn waits_step_on()
    ensures { WaitsStepOn }
{}
