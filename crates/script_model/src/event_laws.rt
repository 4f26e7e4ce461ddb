//! The laws of calls on events in a script. Each function's contract is a theorem over the definitions alone.
ghost use Rattle.script_model.specs.LawsOfEvents.{OwedAccesses, PendingIdsWereSetLast, QueuesKeepOrder, QuietLooks, WaitReplies};
ghost use Rattle.script_model.specs.LawsOfReplies.{ExpiriesAreTrue, PrintedStepsAreTaken, RepliesAreTrue};

/// Where a wait makes a waiting look that finds no signal, every pending id was last set by a notify that hasn't finished.
pub fn quiet_looks_miss_nothing()
    ensures { QuietLooks }
{}

/// A finished wait is told what its own steps took, and a wait for one is told a single id.
pub fn waits_are_told_what_they_took()
    ensures { WaitReplies }
{}

/// What the printed pops of a queue gave, and then what it still holds, is what the printed pushes added, in that order.
pub fn queues_keep_order()
    ensures { QueuesKeepOrder }
{}

/// An id of a set is pending exactly where the last of its printed sets, clears and swaps was a set.
pub fn pending_ids_were_set_last()
    ensures { PendingIdsWereSetLast }
{}

/// The access that a running call owes can be made, after fewer than 2^64 - 1 lines.
pub fn owed_accesses_can_be_made()
    ensures { OwedAccesses }
{}

/// An access that a right answer prints is a step of the run of the event whose kind and name are printed, and what is told with it is what the call has come to.
pub fn printed_steps_are_taken()
    ensures { PrintedStepsAreTaken }
{}

/// What is told behind an access is true: of a notify that it made its id pending, or why it didn't; of a wait that it took
/// exactly
/// these ids, and which it may have missed.
pub fn replies_are_true()
    ensures { RepliesAreTrue }
{}

/// A wait that expires is a timed one that has taken nothing. One for all on bits met no pending id at its first step, and
/// one on a queue saw it empty at its last.
pub fn expiries_are_true()
    ensures { ExpiriesAreTrue }
{}
