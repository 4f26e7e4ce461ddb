//! The quiet law. Each function's contract is a theorem over the definitions alone.
ghost use Rattle.board_event_model.specs.LawsOfQuiet.{PostLaw, QuietLaw, SeenLaw};

/// Each signal was posted after its id was set.
pub fn posts_follow_sets()
    ensures { PostLaw }
{}

/// Of a wait past its drain, one that is about to clear an id included: while no signal stands, each pending id of a word that it has found empty or has swapped was last set by a notify that hasn't finished.
pub fn seen_words_are_quiet()
    ensures { SeenLaw }
{}

/// Where a wait on bits makes a waiting look that finds no signal, every pending id was last set by a notify that hasn't finished.
pub fn quiet_looks_miss_nothing()
    ensures { QuietLaw }
{}
