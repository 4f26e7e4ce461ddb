//! What the words of the command line ask for is done.
ghost use Rattle.std.specs.Prelude.{◌≡◌, ◌<◌, ◌^◌, map, Ok, IfOk, IfErr, IfSome, IsSome, IsTrue, string_bytes};
ghost use Rattle.board_bench.specs.Done.{EndsBy, EndsOneBy, HasCalled, HasCalledTyped, HasDone, HasDoneOne, HasReturned, IsRefusalOf, counted_of, told_of};
ghost use Rattle.board_bench.specs.Task.{IsBenchTask, IsCount, is_width, spelling};
ghost use Rattle.board_bench.specs.declared.bench_error.BenchError.TheVariants as bench_error;
ghost use Rattle.board_bench.specs.declared.task.Task.{Task};

use crate::bench_error::BenchError;
use crate::shared::{Outcome, run_shared};
use crate::solo::{run_gets, run_tries, run_updates};
use crate::task::{Call, Task, task_of};
use crate::widths::{ReadHandle, WriteHandle, typed_gets, typed_tries, typed_updates};
use board_cell::{ReaderPass, WriterPass};
use board_event::{EventKind, QueueOfIds, SetOfIds};
use board_trips::{Trips, run_trips};
use std::alloc::Global;
use std::sync::Wait;
use std::thread::Threads;

/// A task that was done, by what it leaves: the number beside a pass or a handle is that of its calls.
#[derive(Drop)]
pub enum Done {
    /// The reader that made the gets.
    Got(ReaderPass, u64),
    /// The writer that made the updates.
    Updated(WriterPass, u64),
    /// The read handle that made the gets.
    GotTyped(ReadHandle, u64),
    /// The write handle that made the updates.
    UpdatedTyped(WriteHandle, u64),
    /// Ids that went over sets and came back.
    BitsReturned(Trips<SetOfIds>),
    /// Ids that went over queues and came back.
    QueueReturned(Trips<QueueOfIds>),
    /// A writer beside readers.
    Raced(Outcome),
}

impl Done {
    /// How many calls or round trips were made, and of a race how many gets. The program tells it.
    pub fn told(&self) -> u64
        ensures { result ≡ told_of self.now }
    {
        match self {
            Done::Got(_, count) => *count,
            Done::Updated(_, count) => *count,
            Done::GotTyped(_, count) => *count,
            Done::UpdatedTyped(_, count) => *count,
            Done::BitsReturned(trips) => trips.made.number(),
            Done::QueueReturned(trips) => trips.made.number(),
            Done::Raced(outcome) => outcome.gets,
        }
    }

    /// What the number that is told counts.
    pub fn counted(&self) -> &'static str
        ensures { result.now ≡ counted_of self.now }
    {
        match self {
            Done::Got(..) | Done::GotTyped(..) | Done::Raced(_) => "gets",
            Done::Updated(..) | Done::UpdatedTyped(..) => "updates",
            Done::BitsReturned(_) | Done::QueueReturned(_) => "trips",
        }
    }
}

// Calls on a cell.
fn run_solo<R: Wait>(
    rt: &R,
    alloc: Global,
    width: u64,
    call: Call,
    count: u64,
) -> Result<Done, BenchError>
    requires { IsCount count }
    ensures done { IfOk result (HasCalled call width count) }
    ensures err { IfErr result (λ e. e ≡ bench_error.OutOfMemory) }
{
    Ok(match call {
        Call::Get => Done::Got(run_gets(rt, alloc, width, count)?, count),
        Call::TryGet => Done::Got(run_tries(alloc, width, count)?, count),
        Call::Update => Done::Updated(run_updates(alloc, width, count)?, count),
    })
}

// Calls by a typed handle.
fn run_typed<R: Wait>(
    rt: &R,
    alloc: Global,
    width: u64,
    call: Call,
    count: u64,
) -> anyhow::Result<Done>
    requires { IsTrue (is_width width) × IsCount count }
    ensures { IfOk result (HasCalledTyped call width count) }
{
    Ok(match call {
        Call::Get => Done::GotTyped(typed_gets(rt, alloc, width, count)?, count),
        Call::TryGet => Done::GotTyped(typed_tries(rt, alloc, width, count)?, count),
        Call::Update => Done::UpdatedTyped(typed_updates(rt, alloc, width, count)?, count),
    })
}

// Round trips of ids.
fn run_event<R: Threads + Wait + Sync>(
    rt: &R,
    alloc: Global,
    kind: EventKind,
    count: u64,
) -> anyhow::Result<Done>
    ensures { IfOk result (HasReturned kind count) }
{
    Ok(match kind {
        EventKind::Bits => Done::BitsReturned(run_trips(rt, alloc, count)?),
        EventKind::Queue => Done::QueueReturned(run_trips(rt, alloc, count)?),
    })
}

// What was done, or the call that was refused.
fn or_refused(tried: anyhow::Result<Done>) -> Result<Done, BenchError>
    ensures ok { IfOk result (λ done. tried ≡ Ok done) }
    ensures err { IfErr result (IsRefusalOf tried) }
{
    match tried {
        Ok(done) => Ok(done),
        Err(error) => Err(BenchError::Refused(error)),
    }
}

/// Does the task.
///
/// # Errors
/// `OutOfMemory` where memory is refused; of typed ports and events `Refused`, where one of their calls is, for want of memory too, or doesn't give what was put.
pub fn run<R: Threads + Wait + Sync>(rt: &R, alloc: Global, task: Task) -> Result<Done, BenchError>
    requires { IsBenchTask task }
    ensures done { IfOk result (HasDone task) }
    ensures err { IfErr result (EndsBy task) }
{
    match task {
        Task::Solo(calls) => run_solo(rt, alloc, calls.width, calls.call, calls.count),
        Task::Typed(calls) => or_refused(run_typed(
            rt,
            alloc,
            calls.width,
            calls.call,
            calls.count,
        )),
        Task::Event { kind, count } => or_refused(run_event(rt, alloc, kind, count)),
        Task::Shared {
            width,
            readers,
            updates,
        } => Ok(Done::Raced(run_shared(rt, alloc, width, readers, updates)?)),
    }
}

/// Does the task that the words spell, if they spell one.
///
/// # Errors
/// `OutOfMemory` where memory is refused; of typed ports and events `Refused`, where one of their calls is, for want of memory too, or doesn't give what was put.
pub fn measure<R: Threads + Wait + Sync>(
    rt: &R,
    alloc: Global,
    words: &[String],
) -> Result<Option<Done>, BenchError>
    // What was done is the task of these words: its count, its width, its readers.
    ensures done { IfOk result (λ o. IfSome o (HasDoneOne (map string_bytes words.now))) }

    // Where they spell one it is done.
    ensures found { (t : Task) → IsBenchTask t → map string_bytes words.now ≡ spelling t
        → IfOk result IsSome }
    ensures err { IfErr result (EndsOneBy (map string_bytes words.now)) }
{
    let Some(task) = task_of(alloc, words)? else {
        return Ok(None);
    };
    Ok(Some(run(rt, alloc, task)?))
}
