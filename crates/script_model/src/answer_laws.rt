//! Laws of answers. Each function's contract is a theorem over the definitions alone.
ghost use Rattle.script_model.specs.LawsOfAnswers.{OneLawfulSession, OneRightAnswer};

/// A line has at most one right answer.
pub fn one_right_answer()
    ensures { OneRightAnswer }
{}

/// There is at most one lawful session of given lines.
pub fn one_lawful_session()
    ensures { OneLawfulSession }
{}
