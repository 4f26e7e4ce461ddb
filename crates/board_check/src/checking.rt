//! The check of a source.
ghost use Rattle.std.specs.Prelude.{IfOk};
ghost use Rattle.script_loop.specs.Runs.{stream_of};
ghost use Rattle.script_pairs.specs.Checks.{Checks, IsReadToEnd};
ghost use Rattle.script_pairs.specs.Faults.{TellsFaults};
ghost use Rattle.board_check.specs.Top.{AcceptsRuns};

use script_judge::Judge;
use script_loop::Source;
use script_pairs::{CheckError, Verdict, check_pairs};
use std::alloc::Global;

/// The most pairs of a session.
const MAX_PAIRS: u64 = 4294967295;

/// Decides whether the lines of the source, a line of a script and its answer in turn, are a lawful session.
///
/// # Errors
/// `ReadFault` where the source failed, `TooLong` where a byte follows 4294967295 lawful pairs, `OutOfMemory`.
pub fn check<S: Source>(alloc: Global, source: &mut S) -> Result<Verdict, CheckError>
    // A verdict is true of the source's lines, and comes where it is true; but memory may be refused, or the source fail.
    ensures checks { Checks 4294967295 (S.left source.old) result }

    // Where it is `Lawful` the source was read to its end.
    ensures end { IfOk result (λ verdict. IsReadToEnd verdict (S.left source.new)) }

    // The lines and the output of a run, in turn, are told to be lawful.
    ensures runs { AcceptsRuns (S.left source.old) result }

    // Faults of the source are told.
    ensures faults { TellsFaults (stream_of S.left S.faults source.old source.new)
        (S.never_fails source.old) (S.never_fails_before_end source.old) result }
{
    let mut judge = Judge::new(alloc);
    check_pairs(alloc, MAX_PAIRS, &mut judge, source)
}
