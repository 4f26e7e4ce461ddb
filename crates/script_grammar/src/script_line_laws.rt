//! Laws of the lines of a script, those of events included, and of right answers. The check proves the contracts.
ghost use Rattle.script_grammar.specs.LawsOfScriptLines.{BytesSpellOneLine, RightAnswersHoldNoNewline};

/// Two different lines are never spelled by the same bytes.
pub fn lines_are_told_apart()
    ensures { BytesSpellOneLine }
{}

/// A right answer is one line of output.
pub fn right_answers_hold_no_newline()
    ensures { RightAnswersHoldNoNewline }
{}
