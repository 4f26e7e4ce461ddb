//! Laws of scripts with snapshots and of their output. Each function's contract is a theorem over the definitions alone.
ghost use Rattle.board_snapshot.specs.LawsOfRuns.{BytesSpellOneLine, FedSessionsAreWritten, InputsHaveOneRun, OutputsAreReadBack};

/// The lines of an output behind `> `, each with the line that follows it, are the session that was fed to the machine.
pub fn fed_sessions_are_written()
    ensures { FedSessionsAreWritten }
{}

/// Read line by line, an output is all that was told: what was given, with the answers, and what the program said of its own.
pub fn outputs_are_read_back()
    ensures { OutputsAreReadBack }
{}

/// Bytes spell at most one line of such a script.
pub fn bytes_spell_one_line()
    ensures { BytesSpellOneLine }
{}

/// An input has at most one run, and so one output.
pub fn inputs_have_one_run()
    ensures { InputsHaveOneRun }
{}
