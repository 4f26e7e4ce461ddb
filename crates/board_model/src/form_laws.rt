//! Laws of forms. Each function's contract is a theorem over the definitions alone.
ghost use Rattle.board_model.specs.LawsOfForms.{EachLineHasAnAnswer, EachScriptHasASession, RightAnswersAreOfTheGrammar, SessionsKeepForms};

/// After a session the names, keys and limits that stand are of the grammar, and no more things stand than it has lines.
pub fn sessions_keep_forms()
    ensures { SessionsKeepForms }
{}

/// The other rules of an answer give one of the answer grammar, in a session of fewer than 2^63 lines.
pub fn right_answers_are_of_the_grammar()
    ensures { RightAnswersAreOfTheGrammar }
{}

/// Each line of the grammar has a right answer, in a session of fewer than 2^63 lines.
pub fn each_line_has_an_answer()
    ensures { EachLineHasAnAnswer }
{}

/// Each list of fewer than 2^63 lines of the grammar has a lawful session.
pub fn each_script_has_a_session()
    ensures { EachScriptHasASession }
{}
