//! Laws of whole sessions. Each function's contract is a theorem over the definitions alone.
ghost use Rattle.board_model.specs.LawsOfSessions.{FreshMeansUnpublished, GenerationsNeverFall, ListsOnlyGrow, NoGetIsStale, OneGenerationOneValue, OneWriteHandle};

/// What was published before a pair stays, and each publication since is one value more.
pub fn lists_only_grow()
    ensures { ListsOnlyGrow }
{}

/// Two gets of one entry with the same generation carry equal values.
pub fn one_generation_one_value()
    ensures { OneGenerationOneValue }
{}

/// The generations of gets of one entry never fall.
pub fn generations_never_fall()
    ensures { GenerationsNeverFall }
{}

/// After a publication has ended, each get of the entry gives its value or a later one.
pub fn no_get_is_stale()
    ensures { NoGetIsStale }
{}

/// A value is still the last one exactly where no publication of the entry ended since the get that gave it.
pub fn fresh_means_unpublished()
    ensures { FreshMeansUnpublished }
{}

/// At most one write handle or loan of an entry is a thing at any moment.
pub fn one_write_handle()
    ensures { OneWriteHandle }
{}
