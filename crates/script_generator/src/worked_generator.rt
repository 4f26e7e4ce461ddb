//! The generated script of 1, worked out by hand.
ghost use Rattle.std.specs.Prelude.{◌≡◌, map};
ghost use Rattle.script_model.specs.declared.line.ScriptLine.TheVariants as script_line;
ghost use Rattle.script_model.specs.ScriptSession.{IsLawful, asked_lines};
ghost use Rattle.script_generator.specs.Generator.{generated};
ghost use Rattle.script_generator.specs.Summary.{summary};
ghost use Rattle.script_generator.specs.WorkedGenerator.{run_for_one, summary_for_one};

/// The script of 1 ends with a step that is refused, and this is its summary.
pub fn the_run_for_one_is_lawful()
    ensures lawful { IsLawful run_for_one }
    ensures lines { asked_lines run_for_one ≡ map script_line.Board (generated 1) }
    ensures text { summary run_for_one ≡ summary_for_one }
{}
