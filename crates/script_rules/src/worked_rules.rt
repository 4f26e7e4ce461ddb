//! Rules that are broken, worked out by hand.
ghost use Rattle.script_rules.specs.WorkedPairs.{WorkedPairs};
ghost use Rattle.script_rules.specs.WorkedRules.{WorkedRules};

/// Each rule of an answer that differs from the right one.
pub fn rules_may_be_broken()
    ensures { WorkedRules }
{}

/// Lines and their answers in turn: lawful, or with a pair that breaks a rule.
pub fn pairs_may_be_judged()
    ensures { WorkedPairs }
{}
