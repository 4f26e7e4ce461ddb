//! Sessions of events that were worked out by hand, and whether they are lawful.
ghost use Rattle.script_model.specs.ScriptSession.{IsLawful};
ghost use Rattle.script_model.specs.WorkedEvents.{a_listener_is_abandoned, a_name_given_twice, a_queue_name_is_free_again, a_set_name_is_held_longer, an_early_expire, lines_are_refused, the_newest_id_first};

/// A queue's name is free once its listener is dropped, and the old notifier reaches nobody.
pub fn a_queue_name_may_be_free_again()
    ensures { IsLawful a_queue_name_is_free_again }
{}

/// The name of a set is held until its last notifier is dropped too.
pub fn a_set_name_may_be_held_longer()
    ensures { IsLawful a_set_name_is_held_longer }
{}

/// Each reason for which a line is refused on account of events.
pub fn lines_may_be_refused()
    ensures { IsLawful lines_are_refused }
{}

/// The listener of an abandoned party takes no id any more, and its queue's name stays held.
pub fn a_listener_may_be_abandoned()
    ensures { IsLawful a_listener_is_abandoned }
{}

/// A wait that has made no waiting look doesn't expire.
pub fn an_early_expire_is_wrong()
    ensures { IsLawful an_early_expire → ⊥ }
{}

/// No second event is made of a name that is held.
pub fn a_name_given_twice_is_wrong()
    ensures { IsLawful a_name_given_twice → ⊥ }
{}

/// A queue gives its oldest id.
pub fn the_newest_id_first_is_wrong()
    ensures { IsLawful the_newest_id_first → ⊥ }
{}
