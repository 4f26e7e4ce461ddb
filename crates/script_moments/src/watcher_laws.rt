//! Laws of watchers. Each function's contract is a theorem over the definitions alone.
ghost use Rattle.script_moments.specs.LawsOfReports.{GetsAfterTakesAreFresh, GetsAreItems, LastReportsAreFresh, LastReportsAreHighest, ReportsRise};
ghost use Rattle.script_moments.specs.LawsOfWatchers.{TakenIdsAreTold, WatchersAreFresh, WatchersKeepEntries, WatchersReportItems, WatchersReportsRise};
ghost use Rattle.script_moments.specs.WatcherLines.{WatchersGoOn, WatchersOpen};

/// The generations that are reported of gets rise.
pub fn reports_rise()
    ensures { ReportsRise }
{}

/// Once a get has ended, the last report has at least its generation.
pub fn last_reports_are_highest()
    ensures { LastReportsAreHighest }
{}

/// What a get gives is an item of its entry's list, at its generation, from then on.
pub fn gets_are_items()
    ensures { GetsAreItems }
{}

/// A get that begins after its entry's id was taken gives what was published before the notify of that id began, or a later value.
pub fn gets_after_takes_are_fresh()
    ensures { GetsAfterTakesAreFresh }
{}

/// Once such a get has ended, the last report has at least the generation of that publication.
pub fn last_reports_are_fresh()
    ensures { LastReportsAreFresh }
{}

/// The generations that a watcher reports for a handle rise.
pub fn watchers_reports_rise()
    ensures { WatchersReportsRise }
{}

/// Each report of a watcher is an item of its entry's list, at its generation.
pub fn watchers_report_items()
    ensures { WatchersReportItems }
{}

/// Each get of a watcher is of the entry that its handle named when the watcher began, so a handle's gets are of one entry.
pub fn watchers_keep_entries()
    ensures { WatchersKeepEntries }
{}

/// An id that a watcher's wait took is told to it, so the handles of that id are called for.
pub fn taken_ids_are_told()
    ensures { TakenIdsAreTold }
{}

/// Once a get that a taken id called for has ended, the last report of its handle has at least the generation of what was published before the notify of that id began.
pub fn watchers_are_fresh()
    ensures { WatchersAreFresh }
{}

/// What a loop keeps of a watcher that opens: the ids of its handles are asked for, one after another.
pub fn watchers_open()
    ensures { WatchersOpen }
{}

/// What a loop keeps of a watcher, line by line.
pub fn watchers_go_on()
    ensures { WatchersGoOn }
{}
