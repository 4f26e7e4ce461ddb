//! Laws of scripts whose parties can take snapshots. Each function's contract is a theorem over the definitions alone.
ghost use Rattle.script_snapshots.specs.LawsOfTakings.{FedSessionsAreLawful, TakingsAreShort, WrittenSnapshotsAreOfOneMoment};

/// The lines that were given have the answers of a lawful session.
pub fn fed_sessions_are_lawful()
    ensures { FedSessionsAreLawful }
{}

/// A snapshot that is taken has taken few steps.
pub fn takings_are_short()
    ensures { TakingsAreShort }
{}

/// A snapshot that is written is that of one moment, and has taken few steps.
pub fn written_snapshots_are_of_one_moment()
    ensures { WrittenSnapshotsAreOfOneMoment }
{}
