//! Calls by the typed handles of a board's one entry.
ghost use Rattle.std.specs.Prelude.{◌≡◌, ◌+◌, ◌*◌, ◌^◌, ◌<◌, ◌++◌, drop, length, true, IfErr, IfOk, OnOk};
ghost use Rattle.board_cell.specs.Passes.{GivesUp, NotesRise};
ghost use Rattle.board_cells.specs.Ends.{IsUnread};
ghost use Rattle.board_bench.specs.Handles.{HasRoomFor, ReadsOn, ReadsOnce, last_value};
ghost use Rattle.board_bench.specs.Watchers.{MetUpdate, in_turn};

use anyhow::{Result, bail};
use gullinsu::port::reader::{EntryHandle, GetAgain};
use gullinsu::port::writer::EntryHandleMut;
use gullinsu::prelude::{Domain, Node, NodeName, ServiceName, Shared, ZeroCopySend};
use gullinsu::service::port_factory::blackboard::PortFactory;
use std::alloc::Global;
use std::sync::Wait;

/// A read handle of the entry with values of type `V`.
pub type Read<V> = EntryHandle<u64, V, Shared>;

/// The write handle of the entry with values of type `V`.
pub type Write<V> = EntryHandleMut<u64, V, Shared>;

// The key of the entry.
const KEY: u64 = 1;

// A board of one entry, in a domain of its own.
fn board_of<V: ZeroCopySend, R: Wait>(
    rt: &R,
    alloc: Global,
    first: V,
) -> Result<PortFactory<u64, Shared>> {
    let domain = Domain::new(alloc)?;
    let node = Node::new(rt, &domain, NodeName::new("bench")?)?;
    let service = node.service_builder(&ServiceName::new("bench")?)?;
    let creator = service.blackboard_creator::<u64, Shared>(alloc);
    Ok(creator.add(KEY, first)?.create(rt)?)
}

// A read handle of the entry of a new board.
fn read_handle_of<V: ZeroCopySend, R: Wait>(rt: &R, alloc: Global, first: V) -> Result<Read<V>>
    ensures width { IfOk result (λ h. h.cell.width ≡ V.WORDS) }
    ensures unread { IfOk result (λ h. IsUnread h.pass) }
{
    let board = board_of(rt, alloc, first)?;
    let reader = board.reader_builder()?.create(rt)?;
    Ok(reader.entry(rt, &KEY)?)
}

// The write handle of the entry of a new board, at its opening value.
fn write_handle_of<V: ZeroCopySend, R: Wait>(rt: &R, alloc: Global, first: V) -> Result<Write<V>>
    ensures width { IfOk result (λ h. h.held.cell.width ≡ V.WORDS) }
    ensures opening { IfOk result (λ h. length h.held.published ≡ 1) }
{
    let board = board_of(rt, alloc, first)?;
    let writer = board.writer_builder()?.create(rt)?;
    let handle: Write<V> = writer.entry(rt, &KEY)?;
    if handle.generation() != 1 {
        bail!("a new entry was published to");
    }
    Ok(handle)
}

/// This many gets, one after another. Gives the last one's value, so that each has to be given, and `first` where there is none.
pub fn gets<V: ZeroCopySend, R: Wait>(rt: &R, handle: &mut Read<V>, first: V, count: u64) -> V
    ensures kept { handle.new ≡ record handle.old { pass = handle.new.pass } }
    ensures count { length handle.new.pass.notes ≡ length handle.old.pass.notes + count }
    ensures values { let noted = handle.new.pass.notes in
        ReadsOn V.value_of first result handle.old.pass.notes noted }
    ensures rises { NotesRise handle.old.pass.notes → NotesRise handle.new.pass.notes }
{
    let mut latest = first;
    for _ in 0..count {
        latest = *handle.get(rt).get_ref();
    }
    latest
}

// A get of one try, which loads the counter twice.
#[inline(always)]
fn try_once<V: ZeroCopySend>(handle: &mut Read<V>) -> Result<V, GetAgain>
    ensures kept { handle.new ≡ record handle.old { pass = handle.new.pass } }
    ensures got { IfOk result (λ value. ReadsOnce V.value_of value handle.old.pass handle.new.pass) }
    ensures again { IfErr result (λ e. GivesUp 1 e.before e.after handle.old.pass handle.new.pass) }
    ensures rises { NotesRise handle.new.pass.notes }
{
    let value = handle.try_get(1)?;
    Ok(*value.get_ref())
}

/// This many gets of one try each, which loads the counter twice. Gives the last one's value, so that each has to be given, and `first` where there is none.
///
/// # Errors
/// `GetAgain` where a try met an update.
#[tactic(auto, using(crate::proofs::Tries::gave_up))]
pub fn tries<V: ZeroCopySend>(handle: &mut Read<V>, first: V, count: u64) -> Result<V, GetAgain>
    ensures kept { handle.new ≡ record handle.old { pass = handle.new.pass } }
    ensures count { OnOk result (length handle.new.pass.notes ≡ length handle.old.pass.notes + count) }
    ensures loads { OnOk result (length handle.new.pass.loads ≡ length handle.old.pass.loads + 2 * count) }
    ensures values { let noted = handle.new.pass.notes in
        IfOk result (λ latest. ReadsOn V.value_of first latest handle.old.pass.notes noted) }
    ensures again { IfErr result (λ e. MetUpdate handle.old.pass.reached e.before e.after handle.new.pass) }
    ensures rises { NotesRise handle.old.pass.notes → NotesRise handle.new.pass.notes }
{
    let mut latest = first;
    for _ in 0..count {
        latest = try_once(handle)?;
    }
    Ok(latest)
}

/// This many updates, by two values in turn.
pub fn updates<V: ZeroCopySend>(handle: &mut Write<V>, one: V, two: V, count: u64)
    requires room { HasRoomFor count handle.old }
    ensures found { handle.new.found ≡ handle.old.found }
    ensures cell { handle.new.held.cell ≡ handle.old.held.cell }
    ensures count { length handle.new.held.published ≡ length handle.old.held.published + count }
    ensures values { handle.new.held.published
        ≡ handle.old.held.published ++ in_turn (V.words_of one) (V.words_of two) count }
{
    for i in 0..count {
        let value = if i % 2 == 0 { &one } else { &two };
        handle.update_with_copy(*value);
    }
}

// The value that was read is the one that was put.
fn check<V: PartialEq + Copy>(latest: V, first: V) -> Result<()>
    ensures { OnOk result (V.eq latest first ≡ true) }
{
    if latest != first {
        bail!("another value than was put");
    }
    Ok(())
}

/// A board with one entry, and this many gets of it by the handle that is given back.
///
/// # Errors
/// Where a call that makes the handle is refused, or the last value isn't the first one.
pub fn run_gets<V: ZeroCopySend + PartialEq, R: Wait>(
    rt: &R,
    alloc: Global,
    first: V,
    count: u64,
) -> Result<Read<V>>
    ensures width { IfOk result (λ h. h.cell.width ≡ V.WORDS) }
    ensures count { IfOk result (λ h. length h.pass.notes ≡ count) }
    ensures values { IfOk result (λ h. V.eq (last_value V.value_of first h.pass.notes) first ≡ true) }
    ensures rises { IfOk result (λ h. NotesRise h.pass.notes) }
{
    let mut handle = read_handle_of(rt, alloc, first)?;
    check(gets(rt, &mut handle, first, count), first)?;
    Ok(handle)
}

/// A board with one entry, and this many gets of it of one try each, by the handle that is given back.
///
/// # Errors
/// Where a call that makes the handle is refused, a try met an update, or the last value isn't the first one.
pub fn run_tries<V: ZeroCopySend + PartialEq, R: Wait>(
    rt: &R,
    alloc: Global,
    first: V,
    count: u64,
) -> Result<Read<V>>
    ensures width { IfOk result (λ h. h.cell.width ≡ V.WORDS) }
    ensures count { IfOk result (λ h. length h.pass.notes ≡ count) }
    ensures loads { IfOk result (λ h. length h.pass.loads ≡ 2 * count) }
    ensures values { IfOk result (λ h. V.eq (last_value V.value_of first h.pass.notes) first ≡ true) }
    ensures rises { IfOk result (λ h. NotesRise h.pass.notes) }
{
    let mut handle = read_handle_of(rt, alloc, first)?;
    match tries(&mut handle, first, count) {
        Ok(latest) => check(latest, first)?,
        Err(_) => bail!("a try met an update"),
    }
    Ok(handle)
}

/// A board with one entry, and this many updates of it by the handle that is given back.
///
/// # Errors
/// Where a call that makes the handle is refused.
pub fn run_updates<V: ZeroCopySend, R: Wait>(
    rt: &R,
    alloc: Global,
    one: V,
    two: V,
    count: u64,
) -> Result<Write<V>>
    requires { count < 2 ^ 40 }
    ensures width { IfOk result (λ h. h.held.cell.width ≡ V.WORDS) }
    ensures count { IfOk result (λ h. length h.held.published ≡ count + 1) }
    ensures values { let turns = in_turn (V.words_of one) (V.words_of two) count in
        IfOk result (λ h. drop 1 h.held.published ≡ turns) }
{
    let mut handle = write_handle_of(rt, alloc, two)?;
    updates(&mut handle, one, two, count);
    Ok(handle)
}
