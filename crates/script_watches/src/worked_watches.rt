//! A script with a watcher that was worked out by hand: the premises of the laws can be met.
ghost use Rattle.script_watches.specs.WorkedWatches.{AWatchIsWorked};

/// A watcher of one entry, line by line: its exchanges are lawful, it reports the value that was published before it was notified, and the law on fresh reports speaks of that report.
pub fn a_watch_may_report()
    ensures { AWatchIsWorked }
{}
