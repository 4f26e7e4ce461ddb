//! Laws of the rules of an answer. Each function's contract is a theorem over the definitions alone.
ghost use Rattle.script_model.specs.LawsOfRules.{RulesAreTurns, TurnsAreRight};

/// The rules by name ask for the answer of the line's turn, and for nothing more but the grammar of answers.
pub fn rules_are_turns()
    ensures { RulesAreTurns }
{}

/// After a lawful session of fewer than 2^63 pairs, the answer of a line's turn is of the answer grammar, and so right.
pub fn turns_are_right()
    ensures { TurnsAreRight }
{}
