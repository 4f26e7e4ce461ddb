//! Lines that a driven party is given, and lines that are held back from it.
ghost use Rattle.std.specs.Prelude.{◌≡◌, None, OnOk};
ghost use Rattle.board_model.specs.declared.line.Call.TheVariants as calls;
ghost use Rattle.board_model.specs.declared.line.Line.TheVariants as lines;
ghost use Rattle.board_model.specs.LineGrammar.{spell};
ghost use Rattle.script_exchanges.specs.DrivenParties as driven;

use board_model::{Line, Name};
use script_model::ScriptLine;
use std::alloc::AllocError;

/// The party for which the line is held back while the party is driven: the one that it names, unless it abandons it.
pub fn held_back(line: &ScriptLine) -> Option<Name>
    ensures { result ≡ driven.held_back line.now }
{
    match line {
        ScriptLine::Board(Line::Begin { party, .. }) => Some(*party),
        ScriptLine::Board(Line::Step { party }) => Some(*party),
        ScriptLine::Board(Line::Release { party, .. }) => Some(*party),
        ScriptLine::Board(Line::Abandon { .. }) => None,
        ScriptLine::Board(Line::Words { .. }) => None,
        ScriptLine::Event { party, .. } => Some(*party),
        ScriptLine::Expire { party } => Some(*party),
    }
}

/// The party that the line abandons.
pub fn abandoned_by(line: &ScriptLine) -> Option<Name>
    ensures { result ≡ driven.abandoned_by line.now }
{
    match line {
        ScriptLine::Board(Line::Abandon { party }) => Some(*party),
        _ => None,
    }
}

/// Writes the line `step P`.
///
/// # Errors
/// `AllocError` where memory is refused.
pub fn write_step(party: &Name, line: &mut Vec<u8>) -> Result<(), AllocError>
    ensures { OnOk result (line.new.items ≡ spell (lines.Step party.now)) }
{
    line.clear();
    line.extend_from_slice(b"step ")?;
    line.extend_from_slice(party.as_bytes())
}

/// Writes the line `begin P get H`.
///
/// # Errors
/// `AllocError` where memory is refused.
pub fn write_get(party: &Name, handle: &Name, line: &mut Vec<u8>) -> Result<(), AllocError>
    ensures { OnOk result (line.new.items
        ≡ spell (lines.Begin party.now (calls.Get handle.now None))) }
{
    line.clear();
    line.extend_from_slice(b"begin ")?;
    line.extend_from_slice(party.as_bytes())?;
    line.extend_from_slice(b" get ")?;
    line.extend_from_slice(handle.as_bytes())
}
