//! Laws of scripts with watchers and of their output. Each function's contract is a theorem over the definitions alone.
ghost use Rattle.board_watch.specs.LawsOfWatchRuns.{FedSessionsAreWritten, InputsHaveOneRun, OutputsAreReadBack, ReportsAreWritten};

/// The lines of an output behind `> `, each with the line that follows it, are the session that was fed to the machine.
pub fn fed_sessions_are_written()
    ensures { FedSessionsAreWritten }
{}

/// Read line by line, an output is all that was told: what was given, with the answers, and what the program said of its own.
pub fn outputs_are_read_back()
    ensures { OutputsAreReadBack }
{}

/// An input has at most one run, and so one output.
pub fn inputs_have_one_run()
    ensures { InputsHaveOneRun }
{}

/// What a watcher has reported is what was said behind its party's turns since the line that started it, in that order.
pub fn reports_are_written()
    ensures { ReportsAreWritten }
{}
