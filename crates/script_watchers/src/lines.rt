//! The lines that a watcher alone is given.
ghost use Rattle.std.specs.Prelude.{◌≡◌, OnOk, true};
ghost use Rattle.board_event_model.specs.declared.call.WaitMode.TheVariants as modes;
ghost use Rattle.script_model.specs.declared.line.EventRequest.TheVariants as requests;
ghost use Rattle.script_model.specs.declared.line.ScriptLine.TheVariants as script_lines;
ghost use Rattle.script_model.specs.ScriptGrammar.{script_spell};
ghost use Rattle.script_watches.specs.WatchExchanges.{id_line};

use board_model::Name;
use std::alloc::AllocError;

/// Writes the line `begin P id H`.
pub(crate) fn write_id(party: &Name, handle: &Name, line: &mut Vec<u8>) -> Result<(), AllocError>
    ensures { OnOk result (line.new.items ≡ script_spell (id_line party.now handle.now)) }
{
    line.clear();
    line.extend_from_slice(b"begin ")?;
    line.extend_from_slice(party.as_bytes())?;
    line.extend_from_slice(b" id ")?;
    line.extend_from_slice(handle.as_bytes())
}

/// Writes the line `begin P wait E all try`.
pub(crate) fn write_wait(
    party: &Name,
    listener: &Name,
    line: &mut Vec<u8>,
) -> Result<(), AllocError>
    ensures { OnOk result (line.new.items
        ≡ script_spell (script_lines.Event party.now (requests.Wait listener.now true modes.Try))) }
{
    line.clear();
    line.extend_from_slice(b"begin ")?;
    line.extend_from_slice(party.as_bytes())?;
    line.extend_from_slice(b" wait ")?;
    line.extend_from_slice(listener.as_bytes())?;
    line.extend_from_slice(b" all try")
}
