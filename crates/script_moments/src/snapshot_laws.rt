//! Laws of snapshots. Each function's contract is a theorem over the definitions alone.
ghost use Rattle.script_moments.specs.LawsOfSnapshots.{SnapshotsAloneTakeTwoRounds, SnapshotsAreOfOneMoment, SnapshotsAreShort};
ghost use Rattle.script_moments.specs.SnapshotLines.{SnapshotsGoOn};

/// A written snapshot is that of one moment: right after the last step of its last but one round.
pub fn snapshots_are_of_one_moment()
    ensures { SnapshotsAreOfOneMoment }
{}

/// With p publications meanwhile, a snapshot has taken at most the steps of p + 2 rounds, and those of the tries that came to nothing.
pub fn snapshots_are_short()
    ensures { SnapshotsAreShort }
{}

/// A snapshot that no publication disturbs takes two rounds.
pub fn snapshots_alone_take_two_rounds()
    ensures { SnapshotsAloneTakeTwoRounds }
{}

/// What a loop keeps of a snapshot, line by line.
pub fn snapshots_go_on()
    ensures { SnapshotsGoOn }
{}
