//! Whole runs of a call.
ghost use Rattle.std.specs.Prelude.{◌≡◌, ◌≤◌, true, false, length, slice_get, None, IfOk, OnOk};
ghost use Rattle.board_cell_model.specs.OwedAccesses.{is_finished};
ghost use Rattle.board_cell.specs.Calls.{hearing_all, look_answer, written_out};
ghost use Rattle.board_cell.specs.Runs.{Notes, looks_owed, put_owed, raise_owed, reads_owed, writes_owed};

use crate::access::{Access, Progress};
use crate::get_call::GetCall;
use crate::one_access::{FreshCall, PublishCall, PutCall};
use crate::update_call::UpdateCall;
use std::alloc::AllocError;

/// Runs a get on these words until it is done or no word is left, and notes its accesses.
///
/// # Errors
/// `AllocError` where the list of accesses is refused memory; then the run stops.
#[tactic(auto, using(crate::proofs::Hearing::run_ends, crate::proofs::Hearing::run_owes))]
pub fn run_get(
    call: &mut GetCall,
    words: &[u64],
    accesses: &mut Vec<Access>,
) -> Result<(), AllocError>
    requires { is_finished call.old.reading ≡ false }
    ensures call { OnOk result (call.new ≡ hearing_all call.old words.now) }
    ensures accesses { let owed = reads_owed call.old words.now in
        Notes result accesses.old.items accesses.new.items owed }
{
    for word in words {
        accesses.push(call.next())?;
        if let Progress::Done = call.took(*word) {
            break;
        }
    }
    Ok(())
}

/// Runs an update to its end, and notes its accesses.
///
/// # Errors
/// `AllocError` where the list of accesses is refused memory; then the run stops.
#[tactic(auto, using(crate::proofs::Writing::owed_writes_step, crate::proofs::Writing::owed_writes_end))]
pub fn run_update(call: &mut UpdateCall, accesses: &mut Vec<Access>) -> Result<(), AllocError>
    requires { call.old.written ≤ length call.old.words }
    ensures call { OnOk result (call.new ≡ written_out call.old) }
    ensures accesses { let owed = writes_owed call.old in
        Notes result accesses.old.items accesses.new.items owed }
{
    loop {
        accesses.push(call.next())?;
        if let Progress::Done = call.took(0) {
            break;
        }
    }
    Ok(())
}

/// Runs a look at the counter on the first of these words, notes its access and gives its answer. With no word it makes no access and has no answer.
///
/// # Errors
/// `AllocError` where the list of accesses is refused memory; then the run stops.
pub fn run_fresh(
    call: &mut FreshCall,
    words: &[u64],
    accesses: &mut Vec<Access>,
) -> Result<Option<bool>, AllocError>
    requires { call.old.counter ≡ None }
    ensures call { OnOk result (call.new ≡ record call.old { counter = slice_get words.now 0 }) }
    ensures accesses { let owed = looks_owed call.old words.now in
        Notes result accesses.old.items accesses.new.items owed }
    ensures answer { IfOk result (λ answer. answer ≡ look_answer call.old words.now) }
{
    let Some(word) = words.first() else {
        return Ok(None);
    };
    accesses.push(call.next())?;
    call.took(*word);
    Ok(Some(call.answer()))
}

/// Runs the put of a loan's word to its end, and notes its access.
///
/// # Errors
/// `AllocError` where the list of accesses is refused memory; then the run stops.
pub fn run_put(call: &mut PutCall, accesses: &mut Vec<Access>) -> Result<(), AllocError>
    requires { call.old.done ≡ false }
    ensures call { OnOk result (call.new ≡ record call.old { done = true }) }
    ensures accesses { let owed = put_owed call.old in
        Notes result accesses.old.items accesses.new.items owed }
{
    accesses.push(call.next())?;
    call.took(0);
    Ok(())
}

/// Runs the raise of the counter that ends a loan, and notes its access.
///
/// # Errors
/// `AllocError` where the list of accesses is refused memory; then the run stops.
pub fn run_publish(call: &mut PublishCall, accesses: &mut Vec<Access>) -> Result<(), AllocError>
    requires { call.old.done ≡ false }
    ensures call { OnOk result (call.new ≡ record call.old { done = true }) }
    ensures accesses { let owed = raise_owed call.old in
        Notes result accesses.old.items accesses.new.items owed }
{
    accesses.push(call.next())?;
    call.took(0);
    Ok(())
}
