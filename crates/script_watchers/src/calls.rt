//! The handles that ids call for.
ghost use Rattle.std.specs.Prelude.{◌≡◌, [], OnOk};
ghost use Rattle.std.specs.List.{list_any};
ghost use Rattle.std.specs.Str.{bytes_eq};
ghost use Rattle.script_watchers.specs.Calls.{collected, is_told, with_row};

use board_model::Name;
use std::alloc::AllocError;

/// A handle of a watcher, with the id of its entry.
#[derive(Clone, Copy, Debug)]
pub(crate) struct Asked {
    pub(crate) handle: Name,
    pub(crate) id: u64,
}

fn is_told(ids: &Vec<u64>, id: u64) -> bool
    ensures { result ≡ is_told ids.now.items id }
{
    ids.contains(&id)
}

fn has_name(names: &Vec<Name>, name: &Name) -> bool
    ensures { result ≡ list_any (λ n. bytes_eq n name.now) names.now.items }
{
    names.contains(name)
}

// Adds the handle, where its id is told and it isn't there yet.
fn add_called(row: &Asked, ids: &Vec<u64>, calls: &mut Vec<Name>) -> Result<(), AllocError>
    ensures { OnOk result (calls.new.items ≡ with_row ids.now.items calls.old.items row.now) }
{
    if is_told(ids, row.id) && !has_name(calls, &row.handle) {
        calls.push(row.handle)?;
    }
    Ok(())
}

/// The handles whose ids are among these, in their order, each once.
///
/// # Errors
/// `AllocError` where memory is refused.
pub(crate) fn collect(
    rows: &Vec<Asked>,
    ids: &Vec<u64>,
    calls: &mut Vec<Name>,
) -> Result<(), AllocError>
    ensures { OnOk result (calls.new.items ≡ collected ids.now.items [] rows.now.items) }
{
    calls.clear();
    for row in rows {
        add_called(row, ids, calls)?;
    }
    Ok(())
}
