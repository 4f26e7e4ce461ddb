//! The lines of a script, from their bytes, with short ways to those that come most.
ghost use Rattle.std.specs.Prelude.{IfNone, IfOk, IfSome};
ghost use Rattle.script_model.specs.ScriptGrammar.{SpellsLine};
ghost use Rattle.script_loop.specs.Machines.{SpellsNone};

use board_model::{Call, Line};
use script_model::ScriptLine;
use script_parse::{get_of, parse_line, step_of, update_of};
use std::alloc::{AllocError, Global};

// The line that these bytes make, where a short way leads to it: a step, or an update or a get that begins.
fn short_line_of(bytes: &[u8]) -> Option<Line>
    ensures { IfSome result (λ line. SpellsLine bytes.now (ScriptLine.Board line)) }
{
    if let Some(party) = step_of(bytes) {
        return Some(Line::Step { party });
    }
    if let Some((party, handle, value)) = update_of(bytes) {
        let call = Call::Update { handle, value };
        return Some(Line::Begin { party, call });
    }
    let (party, handle) = get_of(bytes)?;
    let call = Call::Get {
        handle,
        value: None,
    };
    Some(Line::Begin { party, call })
}

// The line that these bytes make, or `None` where no line of the grammar does.
pub(crate) fn line_of(alloc: Global, bytes: &[u8]) -> Result<Option<ScriptLine>, AllocError>
    ensures found { IfOk result (λ o. IfSome o (λ line. SpellsLine bytes.now line)) }
    ensures only { IfOk result (λ o. IfNone o (SpellsNone bytes.now)) }
{
    match short_line_of(bytes) {
        Some(line) => Ok(Some(ScriptLine::Board(line))),
        None => parse_line(alloc, bytes),
    }
}
