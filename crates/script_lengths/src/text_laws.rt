//! Laws of texts: how long an answer is, by what it tells. Each function's contract is a theorem over the definitions alone.
ghost use Rattle.script_lengths.specs.ScriptLengths.{ScriptAnswersAreShort};
ghost use Rattle.script_lengths.specs.ShortAnswers.{AnswersWithoutListsAreShort};
ghost use Rattle.script_lengths.specs.SizedAnswers.{AnswersAreShort, RepliesAreShort};

/// The text of a reply whose lists are no longer than these.
pub fn replies_are_short()
    ensures { RepliesAreShort }
{}

/// The text of an answer whose lists are no longer than these.
pub fn answers_are_short()
    ensures { AnswersAreShort }
{}

/// The text of an answer of a script whose lists are no longer than these.
pub fn script_answers_are_short()
    ensures { ScriptAnswersAreShort }
{}

/// The line of an answer of a script that tells no list.
pub fn answers_without_lists_are_short()
    ensures { AnswersWithoutListsAreShort }
{}
