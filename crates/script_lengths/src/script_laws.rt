//! Laws of the lengths of right answers. Each function's contract is a theorem over the definitions alone.
ghost use Rattle.script_lengths.specs.CheckedRuns.{RunsAreLawful, SessionsAreSpelled};
ghost use Rattle.script_lengths.specs.ScriptLengths.{RightAnswersAreShort, RightAnswersAreSized, RightAnswersAreSpelled};

/// After a session of lines of at most 4096 bytes a right answer tells few words, keys, nodes and ids.
pub fn right_answers_are_sized()
    ensures { RightAnswersAreSized }
{}

/// Its text is short.
pub fn right_answers_are_short()
    ensures { RightAnswersAreShort }
{}

/// Its text is one that the next pair may have as an answer.
pub fn right_answers_are_spelled()
    ensures { RightAnswersAreSpelled }
{}

/// Each answer of a lawful session of such lines is one that its pair may have.
pub fn sessions_are_spelled()
    ensures { SessionsAreSpelled }
{}

/// The lines of a run and its output, in turn, are a lawful session of pairs.
pub fn runs_are_lawful()
    ensures { RunsAreLawful }
{}
