//! Laws of the generated scripts. The function's contract is a theorem over the definitions alone.
ghost use Rattle.script_generator.specs.LawsOfGenerator.{GeneratedScriptsAreScripts};

/// A session of the generated lines is one of the script that their bytes are.
pub fn generated_scripts_are_scripts()
    ensures { GeneratedScriptsAreScripts }
{}
