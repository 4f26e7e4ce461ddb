//! Laws of the rules of one answer. Each function's contract is a theorem over the definitions alone.
ghost use Rattle.script_rules.specs.BrokenRules.{BreaksNoneWhereRight};
ghost use Rattle.script_rules.specs.LawsOfForms.{RightAnswersAreOfTheGrammar};
ghost use Rattle.script_rules.specs.NamedRules.{BrokenRulesAreNamed, ReasonsAreJudged, RightAnswersKeepAll};
ghost use Rattle.script_rules.specs.PrintedAnswers.{RightAnswersArePrinted};
ghost use Rattle.script_rules.specs.StepGroups.{StepsAreGrouped};

/// The text of a right answer is one of the grammar of texts.
pub fn right_answers_are_printed()
    ensures { RightAnswersArePrinted }
{}

/// An answer breaks no rule exactly where it is the right one.
pub fn breaks_none_where_right()
    ensures { BreaksNoneWhereRight }
{}

/// The groups of an answer to a step are the access that is owed, the word that was read, what the event answered, and the reply.
pub fn steps_are_grouped()
    ensures { StepsAreGrouped }
{}

/// An answer is right exactly where it keeps each rule by name.
pub fn right_answers_keep_all()
    ensures { RightAnswersKeepAll }
{}

/// No answer whose text breaks a rule keeps by name this rule and all before it.
pub fn broken_rules_are_named()
    ensures { BrokenRulesAreNamed }
{}

/// An answer that isn't refused as its line is breaks the rule of reasons.
pub fn reasons_are_judged()
    ensures { ReasonsAreJudged }
{}

/// After a lawful session of fewer than 2^63 pairs, an answer that keeps the other rules is of the answer grammar, whether to a line of boards or of events.
pub fn right_answers_are_of_the_grammar()
    ensures { RightAnswersAreOfTheGrammar }
{}
