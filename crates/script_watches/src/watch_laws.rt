//! Laws of scripts whose parties can be watchers. Each function's contract is a theorem over the definitions alone.
ghost use Rattle.script_watches.specs.LawsOfWatches.{FedSessionsAreLawful, NoReportIsAboveTheLast, ReportedGenerationsRise, ReportsAreFresh, ReportsAreItems, WatchedPartiesHaveWatchers};

/// The lines that were given have the answers of a lawful session.
pub fn fed_sessions_are_lawful()
    ensures { FedSessionsAreLawful }
{}

/// Since its `watch` the own lines of a watched party ask for its ids, wait, and get what the ids call for.
pub fn watched_parties_have_watchers()
    ensures { WatchedPartiesHaveWatchers }
{}

/// The generations that one watcher reports for one handle rise.
pub fn reported_generations_rise()
    ensures { ReportedGenerationsRise }
{}

/// No report of a handle has a generation above its last one's.
pub fn no_report_is_above_the_last()
    ensures { NoReportIsAboveTheLast }
{}

/// Each report of a handle is an item, at its generation, of the list of the one entry that the handle named when its party began to be watched.
pub fn reports_are_items()
    ensures { ReportsAreItems }
{}

/// Once a get that a taken id called for has ended, the last report of its handle is at least what was published before the notify of that id began.
pub fn reports_are_fresh()
    ensures { ReportsAreFresh }
{}
