//! The ids of a watcher's handles are asked for, one after another.
ghost use Rattle.std.specs.Prelude.{◌≡◌, ◌≤◌, [], true, IfOk, length};
ghost use Rattle.std.specs.List.{AllByRecursion};
ghost use Rattle.board_model.specs.LineGrammar.{is_name};
ghost use Rattle.script_model.specs.ScriptSession.{Session};
ghost use Rattle.script_watchers.specs.Opening.{AsksAll, AsksOne, HasPlace};

use crate::calls::Asked;
use crate::lines::write_id;
use crate::replies::id_of;
use board_model::Name;
use script_feed::{give, is_refusal, write_step};
use script_loop::RunsLines;
use std::alloc::AllocError;

/// Asks for the id of a handle's entry; none where the begin is refused.
///
/// # Errors
/// `AllocError` where memory is refused.
pub(crate) fn ask_id<M: RunsLines>(
    machine: &mut M,
    party: &Name,
    handle: &Name,
    line: &mut Vec<u8>,
    answer: &mut Vec<u8>,
    told: &mut Vec<u8>,
) -> Result<Option<u64>, AllocError>
    requires place { (fed : Session) × HasPlace M.stands machine.old 2 fed }
    requires party { is_name party.now ≡ true }
    requires handle { is_name handle.now ≡ true }
    ensures { IfOk result (λ id. AsksOne M.stands machine.old machine.new party.now handle.now
        told.old.items told.new.items id) }
{
    write_id(party, handle, line)?;
    give(machine, line, answer, told)?;
    if is_refusal(answer) {
        return Ok(None);
    }
    write_step(party, line)?;
    give(machine, line, answer, told)?;
    match id_of(answer) {
        Some(id) => Ok(Some(id)),
        // A step behind an accepted begin is told the id.
        None => unreachable!(),
    }
}

/// Asks for the ids of all handles; whether none of the begins is refused.
///
/// # Errors
/// `AllocError` where memory is refused.
pub(crate) fn ask_ids<M: RunsLines>(
    machine: &mut M,
    party: &Name,
    handles: &[Name],
    rows: &mut Vec<Asked>,
    line: &mut Vec<u8>,
    answer: &mut Vec<u8>,
    told: &mut Vec<u8>,
) -> Result<bool, AllocError>
    requires place { (fed : Session) × HasPlace M.stands machine.old 32 fed }
    requires party { is_name party.now ≡ true }
    requires named { AllByRecursion (λ n. is_name n ≡ true) handles.now }
    requires few { length handles.now ≤ 16 }
    requires rows { rows.old.items ≡ [] }
    requires empty { told.old.items ≡ [] }
    ensures { IfOk result (λ all. AsksAll M.stands machine.old machine.new party.now handles.now
        rows.new.items told.new.items all) }
{
    for handle in handles {
        match ask_id(machine, party, handle, line, answer, told)? {
            Some(id) => rows.push(Asked {
                handle: *handle,
                id,
            })?,
            None => return Ok(false),
        }
    }
    Ok(true)
}
