//! The event law: what the ends of notifies and waits say of their own steps. Each function's contract is a theorem over the definitions alone.
ghost use Rattle.board_event_model.specs.LawsOfCalls.{AllLaw, ExpireLaw, NoneLaw, NothingLaw, NotifyLaw, QueueLaw, ReplyLaw};

/// A notify that ends well made its id pending, or left it so.
pub fn notifies_make_pending()
    ensures { NotifyLaw }
{}

/// A finished wait reports what its own steps took, in order.
pub fn waits_report_what_they_took()
    ensures { ReplyLaw }
{}

/// An expired wait has taken nothing: one for all on bits met no pending id at its first step, and one on a queue saw it empty at its last.
pub fn expired_waits_took_nothing()
    ensures { ExpireLaw }
{}

/// A wait ends with no id only in mode try, where it took nothing and saw each word, or the queue, empty.
pub fn waits_end_with_nothing_where_nothing_stood()
    ensures { NoneLaw }
{}

/// A finished wait that took nothing ends with no id.
pub fn waits_that_took_nothing_say_so()
    ensures { NothingLaw }
{}

/// A finished wait for all on bits reports every id that was pending at its first step.
pub fn waits_for_all_miss_no_id()
    ensures { AllLaw }
{}

/// A finished wait for all on a queue saw it empty at its last step, or took 513 ids.
pub fn waits_for_all_empty_the_queue()
    ensures { QueueLaw }
{}
