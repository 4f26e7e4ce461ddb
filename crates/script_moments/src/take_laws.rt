//! Laws of takes: where a wait takes an id, a notify had made it pending. Each function's contract is a theorem over the definitions alone.
ghost use Rattle.script_moments.specs.LawsOfTakes.{GetsAfterTakesAreNotified, TakenIdsWereNotified};

/// An id that a wait took was made pending by a notify, since the last take of it.
pub fn taken_ids_were_notified()
    ensures { TakenIdsWereNotified }
{}

/// A get of an entry that begins after a take of the entry's id gives what was published before that notify began, or a later value.
pub fn gets_after_takes_are_notified()
    ensures { GetsAfterTakesAreNotified }
{}
