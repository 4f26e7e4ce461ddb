//! Sessions of a script that were worked out by hand: the premises of the law on notified gets can be met.
ghost use Rattle.std.specs.Prelude.{[], ◌∷◌, ◌++◌, codes};
ghost use Rattle.script_model.specs.LawsOfComposition.{BeginsGet, EndsGet, EndsPublication, IsIdOf, IsNotifiedGet, Notifies, TakesId, state_met};
ghost use Rattle.script_model.specs.ScriptSession.{IsLawful};
ghost use Rattle.script_model.specs.WorkedScripts.{a_reader_that_was_told, a_reader_told_by_a_lost_notifier, a_reader_told_by_a_set, the_new_value, the_newer_notify, the_old_get, the_old_value, the_older_take, to_new_value, to_newer_notify, to_old_value, to_older_take};

/// A reader is told of an update by a queue of ids, and gets the new value.
pub fn a_reader_may_be_told()
    ensures { IsNotifiedGet a_reader_that_was_told 1 0 1 0 2 2 (9 ∷ []) (9 ∷ []) }
{}

/// A reader is told of an update by a set of ids, and gets the new value.
pub fn a_reader_may_be_told_by_a_set()
    ensures { IsNotifiedGet a_reader_told_by_a_set 1 0 1 0 2 2 (9 ∷ []) (9 ∷ []) }
{}

/// A notifier that is abandoned after its set has made the id pending: the reader takes it, and gets the new value.
pub fn a_reader_may_be_told_by_a_lost_notifier()
    ensures { IsNotifiedGet a_reader_told_by_a_lost_notifier 1 0 1 0 2 2 (9 ∷ []) (9 ∷ []) }
{}

/// Who takes the id of an older notify may get the old value: the take isn't one that followed the notify of the update.
pub fn an_older_take_may_get_the_old_value()
    ensures lawful { IsLawful (to_newer_notify ++ the_newer_notify ∷ []) }
    ensures id { IsIdOf (state_met to_newer_notify) 1 0 0 }
    ensures taken { TakesId (state_met to_older_take) the_older_take 1 0 }
    ensures asked { BeginsGet (state_met (to_older_take ++ the_older_take ∷ [])) the_old_get (codes "b") 1 0 }
    ensures got { EndsGet (state_met to_old_value) the_old_value (codes "b") 1 0 (7 ∷ []) 1 }
    ensures published { EndsPublication (state_met to_new_value) the_new_value 1 0 (9 ∷ []) 2 }
    ensures notified { Notifies (state_met to_newer_notify) the_newer_notify (codes "a") 1 0 2 }
{}
