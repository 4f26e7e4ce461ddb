//! Laws of pairs and of sessions of pairs. Each function's contract is a theorem over the definitions alone.
ghost use Rattle.script_rules.specs.LawsOfPairs.{EachPairIsJudged, OneRuleIsBroken, OneVerdict, RightPairsBreakNone, SessionsGoOn};

/// No pair breaks two rules.
pub fn one_rule_is_broken()
    ensures { OneRuleIsBroken }
{}

/// A right pair of the answer grammar breaks none.
pub fn right_pairs_break_none()
    ensures { RightPairsBreakNone }
{}

/// After a lawful session of fewer than 2^63 pairs, a pair is right or breaks a rule.
pub fn each_pair_is_judged()
    ensures { EachPairIsJudged }
{}

/// No lines have two verdicts.
pub fn one_verdict()
    ensures { OneVerdict }
{}

/// A loop that reads one right pair more goes on with a longer session.
pub fn sessions_go_on()
    ensures { SessionsGoOn }
{}
