//! Laws of the ids of an event, over whole runs and sessions. Each function's contract is a theorem over the definitions alone.
ghost use Rattle.board_event_model.specs.LawsOfIds.{PendingIdsWereSetLast, QueuesKeepOrder, SessionIdsWereSetLast, SessionQueuesKeepOrder};

/// What was popped from a queue, and then what it still holds, is what was pushed: each id once, in the order of the pushes, and none besides.
pub fn queues_keep_order()
    ensures { QueuesKeepOrder }
{}

/// An id of a set is pending exactly where the last set or take of it was a set.
pub fn pending_ids_were_set_last()
    ensures { PendingIdsWereSetLast }
{}

/// In every session, what its lines popped from a queue, and then what it still holds, is what its lines pushed, in that order.
pub fn queues_of_sessions_keep_order()
    ensures { SessionQueuesKeepOrder }
{}

/// In every session, an id of a set is pending exactly where the last line that set or took it set it.
pub fn pending_ids_of_sessions_were_set_last()
    ensures { SessionIdsWereSetLast }
{}
