//! Laws of forms. Each function's contract is a theorem over the definitions alone.
ghost use Rattle.script_model.specs.LawsOfForms.{EachLineHasAnAnswer, EachScriptHasASession};

/// Each line of the grammar has a right answer after a lawful session of fewer than 2^63 pairs: the rules never contradict each other.
pub fn each_line_has_an_answer()
    ensures { EachLineHasAnAnswer }
{}

/// Each list of fewer than 2^63 lines of the grammar has a lawful session.
pub fn each_script_has_a_session()
    ensures { EachScriptHasASession }
{}
