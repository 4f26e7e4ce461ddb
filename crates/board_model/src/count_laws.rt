//! Laws of how many steps a call takes. Each function's contract is a theorem over the definitions alone.
ghost use Rattle.board_model.specs.LawsOfCounts.{FillsTakeTheirWords, FinishedGetsAreShort, FirstCountersAreLengths, FirstCountersStay, GetsAloneTakeTheirWords, GetsAreShortByGrowth, NothingIsPassedAtFirst, OtherCallsTakeOneStep, PassedWritesArePrinted, RunningGetsAreShort, UpdatesTakeTheirWords};

/// From its first step on, what a running get has passed are the writes of its counter that were printed.
pub fn passed_writes_are_printed()
    ensures { PassedWritesArePrinted }
{}

/// Before its first step a call has passed none.
pub fn nothing_is_passed_at_first()
    ensures { NothingIsPassedAtFirst }
{}

/// With p writes passed and w words in its entry, a running get has taken fewer than 1 + (p + 1)(w + 1) steps.
pub fn running_gets_are_short()
    ensures { RunningGetsAreShort }
{}

/// A finished get has taken at most 1 + (p + 1)(w + 1) steps.
pub fn finished_gets_are_short()
    ensures { FinishedGetsAreShort }
{}

/// A get that passed no write ends with step w + 2 and not before.
pub fn gets_alone_take_their_words()
    ensures { GetsAloneTakeTheirWords }
{}

/// An update ends with step w + 1.
pub fn updates_take_their_words()
    ensures { UpdatesTakeTheirWords }
{}

/// A fill ends with step w + 1.
pub fn fills_take_their_words()
    ensures { FillsTakeTheirWords }
{}

/// Each other call ends with its first step.
pub fn other_calls_take_one_step()
    ensures { OtherCallsTakeOneStep }
{}

/// The counter that a get reads first is the length of its list at that step.
pub fn first_counters_are_lengths()
    ensures { FirstCountersAreLengths }
{}

/// The counter that a get has read first stays the same while it runs.
pub fn first_counters_stay()
    ensures { FirstCountersStay }
{}

/// A finished get has taken w + 2 steps, and at most w + 1 more for each value that was published since its first step.
pub fn gets_are_short_by_growth()
    ensures { GetsAreShortByGrowth }
{}
