//! A watcher that was worked out by hand: the premises of the laws on watchers can be met.
ghost use Rattle.std.specs.Prelude.{◌≡◌, [], ◌∷◌, codes};
ghost use Rattle.script_moments.specs.LawsOfWatchers.{IsGetOf, IsTakenIn};
ghost use Rattle.script_moments.specs.OneRound.{b};
ghost use Rattle.script_moments.specs.Reports.{IsAnsweredTake, IsOfEntry, reports};
ghost use Rattle.script_moments.specs.Watchers.{IsOpening, IsWatcher, reports_of};
ghost use Rattle.script_moments.specs.WorkedWatchers.{a_watcher, an_opening, before_it, behind_it, id_begins, id_told, since_it, the_get, the_take, the_turn};

/// A watcher of one entry, whose id it has asked for.
pub fn a_watcher_may_open()
    ensures { IsOpening before_it (id_begins ∷ id_told ∷ []) b (codes "h" ∷ []) an_opening }
{}

/// A watcher of one entry, which is updated once. It reports the new value, and would not report it twice.
pub fn a_watcher_may_be_told()
    ensures watcher { IsWatcher before_it since_it b (codes "e") (codes "h" ∷ []) a_watcher }
    ensures reports { reports_of (codes "h") (codes "h" ∷ []) a_watcher ≡ the_get ∷ [] }
    ensures once { reports (the_get ∷ the_get ∷ []) ≡ the_get ∷ [] }
{}

/// It takes the id of the entry, which was notified after the update, and gets the entry.
pub fn a_watcher_may_take_an_id()
    ensures take { IsAnsweredTake the_take 1 0 1 0 2 (9 ∷ []) }
    ensures taken { IsTakenIn before_it since_it b a_watcher [] [] the_turn the_take behind_it }
    ensures got { IsGetOf b (codes "h") the_turn the_get }
    ensures entry { IsOfEntry b (codes "h") the_get 1 0 }
{}
