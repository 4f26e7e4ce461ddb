//! Laws of board lines and of the answers to them. Nothing is computed here: the check proves the contracts.
ghost use Rattle.script_grammar.specs.LawsOfBoardLines.{AnswersHoldNoNewline, BytesSpellOneBoardLine, FormsAreSpelledApart};

/// Two different board lines are never spelled by the same bytes.
pub fn lines_are_told_apart()
    ensures { BytesSpellOneBoardLine }
{}

/// Nor are two of those forms that the program does not run.
pub fn forms_are_told_apart()
    ensures { FormsAreSpelledApart }
{}

/// An answer is one line of output.
pub fn answers_hold_no_newline()
    ensures { AnswersHoldNoNewline }
{}
