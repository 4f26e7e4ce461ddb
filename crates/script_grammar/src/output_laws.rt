//! Laws of the sessions and the outputs of an input. The check proves the contracts.
ghost use Rattle.script_grammar.specs.LawsOfOutputs.{InputsHaveOneOutput, InputsHaveOneSession, ScriptsHaveAnOutput};

/// The lines of an input have at most one lawful session, so that its output is fixed.
pub fn inputs_have_one_session()
    ensures { InputsHaveOneSession }
{}

/// An input has at most one output.
pub fn inputs_have_one_output()
    ensures { InputsHaveOneOutput }
{}

/// An input of fewer than 2^63 lines of the grammar has an output.
pub fn scripts_have_an_output()
    ensures { ScriptsHaveAnOutput }
{}
