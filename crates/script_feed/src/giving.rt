//! Lines that are given to a machine of scripts, and lines that are said.
ghost use Rattle.std.specs.Prelude.{◌≡◌, ◌++◌, OnOk};
ghost use Rattle.script_exchanges.specs.DrivenParties.{party_text};
ghost use Rattle.script_exchanges.specs.Exchanges.{said, told_text};
ghost use Rattle.script_feed.specs.Given.{given_text};
ghost use Rattle.script_loop.specs.Machines.{AnswersEach, StandsFor};
ghost use Rattle.script_model.specs.declared.line.ScriptLine.{ScriptLine};
ghost use Rattle.script_model.specs.ScriptGrammar.{SpellsLine};
ghost use Rattle.script_model.specs.ScriptSession.{Session};

use board_model::Name;
use script_loop::{LineError, RunsLines};
use std::alloc::AllocError;

// Writes a line that was given, and its answer.
fn write_given(line: &[u8], answer: &[u8], told: &mut Vec<u8>) -> Result<(), AllocError>
    ensures { OnOk result (told.new.items ≡ told.old.items ++ given_text line.now answer.now) }
{
    told.extend_from_slice(b"> ")?;
    told.extend_from_slice(line)?;
    told.push(b'\n')?;
    told.extend_from_slice(answer)
}

/// Gives a line of the grammar to the machine, whose answer then stands in `answer`, and adds both to what is told.
///
/// # Errors
/// `AllocError` where memory is refused.
pub fn give<M: RunsLines>(
    machine: &mut M,
    line: &[u8],
    answer: &mut Vec<u8>,
    told: &mut Vec<u8>,
) -> Result<(), AllocError>
    requires stands { (session : Session) × StandsFor M.stands machine.old session }
    requires spelled { (l : ScriptLine) × SpellsLine line.now l }

    // The answer is right, and the machine stands for the session with this pair.
    ensures ok { OnOk result
        (AnswersEach M.stands machine.old machine.new line.now answer.new.items) }
    ensures told { OnOk result
        (told.new.items ≡ told.old.items ++ given_text line.now answer.new.items) }
{
    match machine.line(line, answer) {
        Ok(()) => write_given(line, answer, told),
        // The line is of the grammar, and clause `bad` of `line` refuses none that is.
        Err(LineError::Bad) => unreachable!(),
        Err(LineError::OutOfMemory) => Err(AllocError),
    }
}

/// Adds a line of a word and a party.
///
/// # Errors
/// `AllocError` where memory is refused.
pub fn say(word: &[u8], party: &Name, told: &mut Vec<u8>) -> Result<(), AllocError>
    ensures { OnOk result (told.new.items
        ≡ told.old.items ++ told_text (said (party_text word.now party.now))) }
{
    told.extend_from_slice(word)?;
    told.push(b' ')?;
    told.extend_from_slice(party.as_bytes())?;
    told.push(b'\n')?;
    Ok(())
}
