//! Calls on a cell in one thread.
ghost use Rattle.std.specs.Prelude.{◌≡◌, ◌+◌, ◌*◌, ◌^◌, ◌<◌, ◌++◌, length, IfOk, IfErr, OnOk};
ghost use Rattle.board_bench.specs.Watchers.{AreCopiedWide, AreWide, MetUpdate, StayCopiedWide, StayWide, in_turn, took_turns};

use board_cell::{CellError, GetAgain, ReaderPass, ThreadedCell, WriterPass};
use std::alloc::Global;
use std::sync::Wait;

/// This many gets, one after another.
// In the body of its caller the cell is a local, so that the place of its words stays in a register between the accesses.
#[inline(always)]
fn gets<R: Wait>(
    rt: &R,
    cell: &ThreadedCell,
    reader: &mut ReaderPass,
    out: &mut Vec<u64>,
    count: u64,
)
    requires cell { reader.old.cell ≡ cell.now.cell }
    requires width { length out.old.items ≡ cell.now.width }
    ensures count { length reader.new.notes ≡ length reader.old.notes + count }
    ensures wide { StayCopiedWide cell.now.width reader.old.notes reader.new.notes }
{
    for _ in 0..count {
        cell.get(rt, reader, out);
    }
}

/// This many gets of one try each, which loads the counter twice.
///
/// # Errors
/// `GetAgain` where a try met an update.
// In the body of its caller, as `gets` is.
#[tactic(auto, using(crate::proofs::Tries::no_older, crate::proofs::Tries::gave_up))]
#[inline(always)]
pub fn tries(
    cell: &ThreadedCell,
    reader: &mut ReaderPass,
    out: &mut Vec<u64>,
    count: u64,
) -> Result<(), GetAgain>
    requires cell { reader.old.cell ≡ cell.now.cell }
    requires width { length out.old.items ≡ cell.now.width }
    ensures cell { reader.new.cell ≡ reader.old.cell }
    ensures count { OnOk result (length reader.new.notes ≡ length reader.old.notes + count) }
    ensures loads { OnOk result (length reader.new.loads ≡ length reader.old.loads + 2 * count) }
    ensures wide { OnOk result (StayCopiedWide cell.now.width reader.old.notes reader.new.notes) }
    ensures again { IfErr result (λ e. MetUpdate reader.old.reached e.before e.after reader.new) }
{
    for _ in 0..count {
        cell.try_get(reader, 1, out)?;
    }
    Ok(())
}

/// This many updates, by two values in turn.
#[tactic(auto, using(crate::proofs::Turns::in_turn_more))]
pub fn updates(
    cell: &ThreadedCell,
    writer: &mut WriterPass,
    one: &Vec<u64>,
    two: &Vec<u64>,
    count: u64,
)
    requires cell { writer.old.cell ≡ cell.now.cell }
    requires width { length one.now.items ≡ cell.now.width }
    requires second_width { length two.now.items ≡ cell.now.width }
    requires room { length writer.old.published + count < 2 ^ 64 }
    ensures count { length writer.new.published ≡ length writer.old.published + count }
    ensures wide { StayWide cell.now.width writer.old.published writer.new.published }
    ensures values { writer.new.published
        ≡ writer.old.published ++ in_turn one.now.items two.now.items count }
{
    for i in 0..count {
        cell.update(writer, if i % 2 == 0 { one } else { two });
    }
}

/// A cell of this many words, and this many gets of it by the reader that is given back.
///
/// # Errors
/// `OutOfMemory` where memory is refused.
pub fn run_gets<R: Wait>(
    rt: &R,
    alloc: Global,
    width: u64,
    count: u64,
) -> Result<ReaderPass, CellError>
    ensures count { IfOk result (λ reader. length reader.notes ≡ count) }
    ensures wide { IfOk result (λ reader. AreCopiedWide width reader.notes) }
{
    let words = vec![in alloc; 7; width as usize]?;
    let mut out = vec![in alloc; 0; width as usize]?;
    let (cell, _writer, mut reader) = ThreadedCell::new(alloc, &words)?;
    // No other call of the program is made at the type of `&rt`: so the later tries of these gets have no other caller, and
    // the compiler hands them that place by value.
    gets(&rt, &cell, &mut reader, &mut out, count);
    Ok(reader)
}

/// A cell of this many words, and this many gets of one try each by the reader that is given back.
///
/// # Errors
/// `OutOfMemory` where memory is refused. No try meets an update, since none is made.
pub fn run_tries(alloc: Global, width: u64, count: u64) -> Result<ReaderPass, CellError>
    ensures count { IfOk result (λ reader. length reader.notes ≡ count) }
    ensures loads { IfOk result (λ reader. length reader.loads ≡ 2 * count) }
    ensures wide { IfOk result (λ reader. AreCopiedWide width reader.notes) }
{
    let words = vec![in alloc; 7; width as usize]?;
    let mut out = vec![in alloc; 0; width as usize]?;
    let (cell, writer, mut reader) = ThreadedCell::new(alloc, &words)?;
    match tries(&cell, &mut reader, &mut out, count) {
        Ok(()) => Ok(reader),
        Err(_) => {
            // The reader would know of a second value, and the writer published the opening one alone. Cell and passes are moved,
            // so that behind the loop no reference to what it reads is taken.
            let (cell, mut writer, mut reader) = (cell, writer, reader);
            cell.meet(&mut writer, &mut reader);
            unreachable!()
        }
    }
}

/// A cell of this many words, and this many updates of it by the writer that is given back.
///
/// # Errors
/// `OutOfMemory` where memory is refused.
pub fn run_updates(alloc: Global, width: u64, count: u64) -> Result<WriterPass, CellError>
    requires { count < 2 ^ 40 }
    ensures count { IfOk result (λ writer. length writer.published ≡ count + 1) }
    ensures wide { IfOk result (λ writer. AreWide width writer.published) }
    ensures values { IfOk result (λ writer. writer.published ≡ took_turns width count) }
{
    let one = vec![in alloc; 1; width as usize]?;
    let two = vec![in alloc; 2; width as usize]?;
    let (cell, mut writer, _reader) = ThreadedCell::new(alloc, &two)?;
    updates(&cell, &mut writer, &one, &two, count);
    Ok(writer)
}
