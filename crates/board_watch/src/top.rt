//! The program's top call.
ghost use Rattle.std.specs.Prelude.{◌≡◌, ◌≢◌, ◌⊎◌, ℕ, ◌<◌, length, map};
ghost use Rattle.std.specs.Process.{exit_status};
ghost use Rattle.std.specs.String.{string_bytes};
ghost use Rattle.std.specs.Io.KnownBytes.{IsAtEnd};
ghost use Rattle.script_endings.specs.Endings.{IsNoted};
ghost use Rattle.script_loop.specs.Runs.{stream_of};
ghost use Rattle.script_exchanges.specs.declared.line.Drive.TheVariants.{Watchers};
ghost use Rattle.script_drive.specs.DriveRuns.{FitsInto, IsRunnable, IsUndisturbed};
ghost use Rattle.script_watches.specs.WatchExchanges.{IsLawful};
ghost use Rattle.board_watch.specs.Top.{HasEnded, IsAnswered, IsWatchRun, usage_note};

use board_cell::SeatWords;
use script_drive::run_driven;
use script_endings::{end_with, refuse_words};
use script_loop::{Sink, Source};
use script_machine::Machine;
use script_watchers::WatcherMachine;
use std::alloc::Global;
use std::process::ExitCode;

/// The most lines of a script.
const MAX_LINES: u64 = 4294967295;

/// Runs the script of the source, whose parties can be watchers, where there are no words on the command line. Gives the
/// status.
///
/// The status is 0 where the script was run to its end, 2 where there are words, 3 and 4 where the source and the sink
/// failed, 5 and 6 where a line is outside the grammar and where there are too many, and 7 where memory was refused. Each
/// but 0 has a note of one line.
pub fn watch_words<S: Source, K: Sink, N: Sink>(
    alloc: Global,
    words: &Vec<String>,
    source: &mut S,
    sink: &mut K,
    notes: &mut N,
) -> u8
    // With status 0 the source was read to its end. The sink gained what is rightly told of its lines: those that were
    // given are a lawful session, and what is reported rises, is an item of its list, and is fresh once a get that a
    // taken id called for has ended.
    ensures ok { result ≡ 0 → IsWatchRun
        (stream_of S.left S.faults source.old source.new)
        (stream_of K.held K.faults sink.old sink.new) }
    ensures end { result ≡ 0 → IsAtEnd (S.left source.new) }

    // Without words the status and the note are those of the run's answer, which comes where `DriveRuns` says.
    ensures ran { length words.now.items ≡ 0
        → IsAnswered result
        (stream_of S.left S.faults source.old source.new)
        (stream_of K.held K.faults sink.old sink.new)
        (stream_of N.held N.faults notes.old notes.new) }

    // The status is 3 only where the source may fail, and before its end, and 4 only where the sink may before all is told.
    ensures reads { S.never_fails source.old → result ≢ 3 }
    ensures before_end { S.never_fails_before_end source.old → result ≢ 3 }
    ensures writes { length words.now.items ≡ 0
        → (room : ℕ) → K.never_fails_within sink.old room
        → FitsInto Watchers IsLawful room 4294967295 (S.left source.old) → result ≢ 4 }

    // A known script of the grammar ends with status 0, or 7 where memory is refused: where nothing failed in this run, and
    // where nothing can fail of which the sink takes all that is told.
    ensures undisturbed { length words.now.items ≡ 0
        → IsUndisturbed Watchers 4294967295
        (stream_of S.left S.faults source.old source.new)
        (stream_of K.held K.faults sink.old sink.new)
        → (result ≡ 0) ⊎ (result ≡ 7) }
    ensures complete { length words.now.items ≡ 0
        → S.never_fails source.old → (room : ℕ) → K.never_fails_within sink.old room
        → IsRunnable Watchers IsLawful room 4294967295 (S.left source.old)
        → (result ≡ 0) ⊎ (result ≡ 7) }

    // The status is 2 exactly where there are words. Then nothing is read or written.
    ensures usage { 0 < length words.now.items → result ≡ 2 }
    ensures usage_only { result ≡ 2 → 0 < length words.now.items }
    ensures usage_note { 0 < length words.now.items
        → IsNoted (stream_of N.held N.faults notes.old notes.new) usage_note }
    ensures unread { 0 < length words.now.items → source.new ≡ source.old }
    ensures unwritten { 0 < length words.now.items → sink.new ≡ sink.old }

    // With status 0 nothing is noted.
    ensures silent { result ≡ 0 → notes.new ≡ notes.old }
{
    if !words.is_empty() {
        return refuse_words(b"usage: board_watch_run\n", notes);
    }
    let mut driver = WatcherMachine::new(alloc, Machine::<SeatWords>::new(alloc));
    end_with(
        run_driven(alloc, MAX_LINES, &mut driver, source, sink),
        notes,
    )
}

/// The same, with the status as the process's exit code.
pub fn run_program<S: Source, K: Sink, N: Sink>(
    alloc: Global,
    words: &Vec<String>,
    source: &mut S,
    sink: &mut K,
    notes: &mut N,
) -> ExitCode
    // The process ends with the status of what the words ask for, and with its note.
    ensures ended { HasEnded (map string_bytes words.now.items) (exit_status result)
        (stream_of S.left S.faults source.old source.new)
        (stream_of K.held K.faults sink.old sink.new)
        (stream_of N.held N.faults notes.old notes.new) }

    // The status is 3 only where the source may fail, and before its end, and 4 only where the sink may before all is told.
    ensures reads { S.never_fails source.old → exit_status result ≢ 3 }
    ensures before_end { S.never_fails_before_end source.old → exit_status result ≢ 3 }
    ensures writes { length words.now.items ≡ 0
        → (room : ℕ) → K.never_fails_within sink.old room
        → FitsInto Watchers IsLawful room 4294967295 (S.left source.old) → exit_status result ≢ 4 }

    // Without words a known script of the grammar, over streams that can't fail and take all that is told, ends with status
    // 0, or 7 where memory is refused.
    ensures complete { length words.now.items ≡ 0
        → S.never_fails source.old → (room : ℕ) → K.never_fails_within sink.old room
        → IsRunnable Watchers IsLawful room 4294967295 (S.left source.old)
        → (exit_status result ≡ 0) ⊎ (exit_status result ≡ 7) }

    // With words nothing is read or written.
    ensures unread { 0 < length words.now.items → source.new ≡ source.old }
    ensures unwritten { 0 < length words.now.items → sink.new ≡ sink.old }

    // With status 0 nothing is noted.
    ensures silent { exit_status result ≡ 0 → notes.new ≡ notes.old }
{
    ExitCode::from(watch_words(alloc, words, source, sink, notes))
}
