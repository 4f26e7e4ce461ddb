//! The laws of what is read off an output. Each function's contract is a theorem over the definitions alone.
ghost use Rattle.script_written.specs.GivenLines.{FedSessionsAreFound, OutputsAreReadBack};

/// Where nothing that a program says of its own looks like a line that it gave, the lines of its output behind `> `, each
/// with the line that follows it, are those that it gave, with their answers.
pub fn fed_sessions_are_found()
    ensures { FedSessionsAreFound }
{}

/// Then all that it told is read back, line by line: what it gave with the answers, and what it said of its own.
pub fn outputs_are_read_back()
    ensures { OutputsAreReadBack }
{}
