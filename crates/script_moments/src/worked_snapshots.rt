//! Snapshots that were worked out by hand: the premises of the laws on snapshots can be met, and one round is not enough.
ghost use Rattle.std.specs.Prelude.{◌≡◌, [], ◌∷◌, ◌++◌, codes};
ghost use Rattle.script_model.specs.LawsOfComposition.{state_met};
ghost use Rattle.script_model.specs.ScriptSession.{IsLawful};
ghost use Rattle.script_moments.specs.Gets.{IsRound, moments_of};
ghost use Rattle.script_moments.specs.LawsOfSnapshots.{AreLastValues};
ghost use Rattle.script_moments.specs.Moments.{moments, own};
ghost use Rattle.script_moments.specs.OneRound.{b, both, hasty, one_round, to_second, two_entries};
ghost use Rattle.script_moments.specs.Snapshots.{IsWritten};
ghost use Rattle.script_moments.specs.WorkedSnapshots.{WorkedCounts, a_snapshot, before_it, since_it};

/// A snapshot of one entry, which is updated after the first round.
pub fn a_snapshot_may_be_written()
    ensures { IsWritten before_it since_it b (codes "h" ∷ []) a_snapshot }
{}

/// It took nine steps, and the bound is eleven.
pub fn its_steps_are_few()
    ensures { WorkedCounts }
{}

/// A lawful session in which both entries are published between the two gets of one round.
pub fn a_round_may_be_overtaken()
    ensures lawful { IsLawful (two_entries ++ one_round) }
    ensures own { own b (moments (state_met two_entries) one_round) ≡ moments_of hasty }
    ensures round { IsRound b both hasty }
{}

/// What such a round gave was the last of both entries neither when it began, nor between its gets, nor when it ended.
pub fn one_round_is_of_no_moment()
    ensures began { AreLastValues (state_met two_entries) b both hasty → ⊥ }
    ensures between { AreLastValues (state_met (two_entries ++ to_second)) b both hasty → ⊥ }
    ensures ended { AreLastValues (state_met (two_entries ++ one_round)) b both hasty → ⊥ }
{}
