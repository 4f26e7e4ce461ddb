//! The program's top call.
ghost use Rattle.std.specs.Prelude.{◌≡◌, ◌⊎◌, map, Err, IfOk, IfSome, IsSome, None, OnOk, string_bytes};
ghost use Rattle.std.specs.Io.KnownBytes.{Appends};
ghost use Rattle.std.specs.Process.{exit_status};
ghost use Rattle.board_bench.specs.Done.{EndsOneBy, HasDoneOne};
ghost use Rattle.board_bench.specs.Task.{IsBenchTask, spelling};
ghost use Rattle.board_bench.specs.Top.{line_of, usage_note};
ghost use Rattle.board_bench.specs.declared.bench_error.BenchError.{BenchError};
ghost use Rattle.board_bench.specs.declared.task.Task.{Task};
ghost use Rattle.board_bench.specs.declared.top.TopError.TheVariants as top_error;

use crate::bench_error::BenchError;
use crate::done::{Done, measure};
use std::alloc::Global;
use std::io;
use std::io::Write;
use std::process::ExitCode;
use std::sync::Wait;
use std::thread::Threads;
use thiserror::Error;

/// How the program is called.
pub const USAGE: &str = "usage: board_bench solo|typed 1|4|32 get|try_get|update COUNT, \
     board_bench event bits|queue COUNT, or board_bench shared 1|4|32 1|2|3 UPDATES";

/// How the program ended.
#[derive(Drop)]
pub struct Ended {
    /// What was done, if the words spelled a task.
    pub done: Option<Done>,
    /// The status for the process.
    pub code: ExitCode,
}

/// Why the program told nothing of its task.
#[derive(Debug, Drop, Error)]
pub enum TopError {
    /// The task wasn't done.
    #[error("{0}")]
    NotDone(BenchError),
    /// A writer failed.
    #[error("{0}")]
    NotWritten(io::Error),
}

impl From<io::Error> for TopError {
    ghost from_gives = { λ error e. e ≡ top_error.NotWritten error };

    fn from(error: io::Error) -> TopError {
        TopError::NotWritten(error)
    }
}

// Writes the line of what was done.
fn tell<W: Write>(done: &Done, out: &mut W) -> io::Result<()>
    ensures { OnOk result (Appends (W.contents out.old) (W.contents out.new) (line_of done.now)) }
{
    writeln!(out, "{} {}", done.counted(), done.told())
}

// Writes how the program is called.
fn tell_usage<N: Write>(notes: &mut N) -> io::Result<()>
    ensures { OnOk result (Appends (N.contents notes.old) (N.contents notes.new) usage_note) }
{
    writeln!(notes, "{USAGE}")
}

/// Does the task that the words spell, and writes its line; with other words it notes how the program is called.
///
/// # Errors
/// `NotDone` where the task wasn't done, and then nothing was written; `NotWritten` where a writer failed.
pub fn run_program<R: Threads + Wait + Sync, W: Write, N: Write>(
    rt: &R,
    alloc: Global,
    words: &[String],
    out: &mut W,
    notes: &mut N,
) -> Result<Ended, TopError>
    // What was done is the task of these words. Its line was written, nothing was noted, and the status is 0.
    ensures done { IfOk result (λ e. IfSome e.done (HasDoneOne (map string_bytes words.now))) }
    ensures line { IfOk result (λ e. IfSome e.done (λ done.
        Appends (W.contents out.old) (W.contents out.new) (line_of done))) }
    ensures silent { IfOk result (λ e. IsSome e.done → notes.new ≡ notes.old) }
    ensures status { IfOk result (λ e. IsSome e.done → exit_status e.code ≡ 0) }

    // Where the words spell a task it is done.
    ensures found { (t : Task) → IsBenchTask t → map string_bytes words.now ≡ spelling t
        → IfOk result (λ e. IsSome e.done) }

    // Where nothing was done the usage was noted, nothing was written, and the status is 2.
    ensures usage { IfOk result (λ e. e.done ≡ None → exit_status e.code ≡ 2) }
    ensures usage_note { IfOk result (λ e. e.done ≡ None
        → Appends (N.contents notes.old) (N.contents notes.new) usage_note) }
    ensures unwritten { IfOk result (λ e. e.done ≡ None → out.new ≡ out.old) }

    // A task that wasn't done is refused for one of its reasons, and then nothing was written or noted.
    ensures err { (e : BenchError) → result ≡ Err (top_error.NotDone e)
        → EndsOneBy (map string_bytes words.now) e }
    ensures err_unwritten { (e : BenchError) → result ≡ Err (top_error.NotDone e) → out.new ≡ out.old }
    ensures err_silent { (e : BenchError) → result ≡ Err (top_error.NotDone e) → notes.new ≡ notes.old }

    // Whatever comes of it, at most one of the two was written to.
    ensures one { (out.new ≡ out.old) ⊎ (notes.new ≡ notes.old) }
{
    match measure(rt, alloc, words) {
        Ok(Some(done)) => {
            tell(&done, out)?;
            Ok(Ended {
                done: Some(done),
                code: ExitCode::SUCCESS,
            })
        }
        Ok(None) => {
            tell_usage(notes)?;
            Ok(Ended {
                done: None,
                code: ExitCode::from(2),
            })
        }
        Err(error) => Err(TopError::NotDone(error)),
    }
}
