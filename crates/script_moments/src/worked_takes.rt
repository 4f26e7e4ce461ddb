//! Takes that were worked out by hand: the premises of the laws on takes can be met, and which notify a take answers.
ghost use Rattle.std.specs.Prelude.{[], ◌∷◌, ◌++◌, codes};
ghost use Rattle.board_event_model.specs.declared.kind.EventKind.TheVariants as kind;
ghost use Rattle.script_model.specs.LawsOfComposition.{TakesId, state_met};
ghost use Rattle.script_model.specs.ScriptSession.{IsLawful};
ghost use Rattle.script_model.specs.WorkedScripts.{a_reader_that_was_told, a_reader_told_by_a_lost_notifier, a_reader_told_by_a_set};
ghost use Rattle.script_moments.specs.LawsOfTakes.{IsGetAfterTake, IsNotifyAt, to_end};
ghost use Rattle.script_moments.specs.WorkedTakes.{a_second_notify, an_older_take, from_take, the_second_take};

/// A reader pops the id that was pushed after an update, and gets the new value.
pub fn a_get_may_follow_a_pop()
    ensures { IsGetAfterTake (from_take a_reader_that_was_told) 1 0 1 0 2 (9 ∷ []) }
{}

/// A reader clears the id that was set after an update, and gets the new value.
pub fn a_get_may_follow_a_clear()
    ensures { IsGetAfterTake (from_take a_reader_told_by_a_set) 1 0 1 0 2 (9 ∷ []) }
{}

/// The same where the notifier was abandoned after its set.
pub fn a_get_may_follow_a_lost_notifier()
    ensures { IsGetAfterTake (from_take a_reader_told_by_a_lost_notifier) 1 0 1 0 2 (9 ∷ []) }
{}

/// A reader takes the id of a notify from before an update, and gets the old value.
pub fn a_get_may_follow_an_older_take()
    ensures { IsGetAfterTake an_older_take 1 0 1 0 1 (7 ∷ []) }
{}

/// An id that was notified and taken twice: the second take answers the second notify.
pub fn a_second_take_is_of_the_second_notify()
    ensures lawful { IsLawful (to_end a_second_notify ++ the_second_take ∷ []) }
    ensures taken { TakesId (state_met (to_end a_second_notify)) the_second_take 1 0 }
    ensures notified { IsNotifyAt a_second_notify kind.Queue (codes "q") 1 0 }
{}
