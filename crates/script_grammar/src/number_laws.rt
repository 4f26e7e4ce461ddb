//! The law of numbers in lines. The function's contract is a theorem over the definitions alone.
ghost use Rattle.script_grammar.specs.LawsOfNumbers.{NumbersAreSpelledOnce};

/// A text is read as n exactly where it is the decimal spelling of n, below 2^64.
pub fn numbers_are_spelled_once()
    ensures { NumbersAreSpelledOnce }
{}
