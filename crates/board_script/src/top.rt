//! The program's top call, its statuses and its notes.
ghost use Rattle.std.specs.Prelude.{◌≡◌, ◌≢◌, ◌⊎◌, ℕ, ◌<◌, length, map, IfNone, IfSome};
ghost use Rattle.std.specs.Process.{exit_status};
ghost use Rattle.std.specs.String.{string_bytes};
ghost use Rattle.std.specs.Io.KnownBytes.{IsAtEnd};
ghost use Rattle.script_loop.specs.Runs.{FitsInto, IsRunOf, IsRunnable, stream_of};
ghost use Rattle.script_generator.specs.Summary.{IsSummed, SummaryFits};
ghost use Rattle.board_script.specs.Top.{IsAnswered, AreGenWords, HasEnded, IsNoted, IsSummedUp, IsUsage, usage_note};

use crate::script::run_script;
use script_endings::{end_with, refuse_words};
use script_generator::run_generated;
use script_loop::{Sink, Source};
use script_parse::number_of;
use std::alloc::Global;
use std::process::ExitCode;

// N, where the words are `gen N`.
fn generated_by(words: &[String]) -> Option<u64>
    ensures some { IfSome result (AreGenWords (map string_bytes words.now)) }
    ensures none { IfNone result ((n : ℕ) → AreGenWords (map string_bytes words.now) n → ⊥) }
{
    if words.len() != 2 || words[0].as_bytes() != b"gen".as_slice() {
        return None;
    }
    let n = number_of(words[1].as_bytes())?;
    if n < 1 || n > 1000000 {
        return None;
    }
    Some(n)
}

/// Runs the script of the source where there are no words on the command line, and with the words `gen N`, N from 1 to
/// 1000000, the script that is made from N. Gives the status.
///
/// The status is 0 where the script was run to its end, 2 where there are other words, 3 and 4 where the source and the
/// sink failed, 5 and 6 where a line is outside the grammar and where there are too many, and 7 where memory was refused.
/// Each but 0 has a note of one line.
pub fn run_words<S: Source, K: Sink, N: Sink>(
    alloc: Global,
    words: &Vec<String>,
    source: &mut S,
    sink: &mut K,
    notes: &mut N,
) -> u8
    // Without words, and with status 0, the sink gained the output of the lawful session of the input's lines, which was read to its end.
    ensures ok { length words.now.items ≡ 0 → result ≡ 0
        → IsRunOf 4294967295
        (stream_of S.left S.faults source.old source.new)
        (stream_of K.held K.faults sink.old sink.new) }
    ensures end { length words.now.items ≡ 0 → result ≡ 0 → IsAtEnd (S.left source.new) }

    // Without words the status and the note are those of the script's answer, which comes where `RunsScript` says.
    ensures ran { length words.now.items ≡ 0
        → IsAnswered result (S.never_fails source.old) (K.never_fails_within sink.old)
        (stream_of S.left S.faults source.old source.new)
        (stream_of K.held K.faults sink.old sink.new)
        (stream_of N.held N.faults notes.old notes.new) }

    // The status is 3 only where the source may fail, and before its end, and 4 only where the sink may before all is written.
    ensures reads { S.never_fails source.old → result ≢ 3 }
    ensures before_end { S.never_fails_before_end source.old → result ≢ 3 }
    ensures writes { length words.now.items ≡ 0
        → (room : ℕ) → K.never_fails_within sink.old room
        → FitsInto room 4294967295 (S.left source.old) → result ≢ 4 }
    ensures written { (n : ℕ) → AreGenWords (map string_bytes words.now.items) n
        → (room : ℕ) → K.never_fails_within sink.old room → SummaryFits room n → result ≢ 4 }

    // A known script of the grammar whose output the sink takes ends with status 0, or 7 where memory is refused.
    ensures complete { length words.now.items ≡ 0
        → S.never_fails source.old → (room : ℕ) → K.never_fails_within sink.old room
        → IsRunnable room 4294967295 (S.left source.old) → (result ≡ 0) ⊎ (result ≡ 7) }

    // With `gen N`, and with status 0, the sink gained the summary of the lawful session whose lines are the generated script.
    ensures summed { (n : ℕ) → AreGenWords (map string_bytes words.now.items) n → result ≡ 0
        → IsSummed n (stream_of K.held K.faults sink.old sink.new) }

    // The other statuses are 4, after a front of the summary, and 7, after nothing; the note is the status's.
    ensures generated { (n : ℕ) → AreGenWords (map string_bytes words.now.items) n
        → IsSummedUp result n (K.never_fails_within sink.old)
        (stream_of K.held K.faults sink.old sink.new)
        (stream_of N.held N.faults notes.old notes.new) }

    // With any words nothing is read.
    ensures unread { 0 < length words.now.items → source.new ≡ source.old }

    // The status is 2 with all other words, and only then. Then nothing is run.
    ensures usage { IsUsage (map string_bytes words.now.items) → result ≡ 2 }
    ensures usage_only { result ≡ 2 → IsUsage (map string_bytes words.now.items) }
    ensures usage_note { IsUsage (map string_bytes words.now.items)
        → IsNoted (stream_of N.held N.faults notes.old notes.new) usage_note }
    ensures unwritten { IsUsage (map string_bytes words.now.items) → sink.new ≡ sink.old }

    // With status 0 nothing is noted.
    ensures silent { result ≡ 0 → notes.new ≡ notes.old }
{
    if words.is_empty() {
        return end_with(run_script(alloc, source, sink), notes);
    }
    let Some(n) = generated_by(words) else {
        return refuse_words(b"usage: board_run [gen N]\n", notes);
    };
    end_with(run_generated(alloc, n, sink), notes)
}

/// The same, with the status as the process's exit code.
pub fn run_program<S: Source, K: Sink, N: Sink>(
    alloc: Global,
    words: &Vec<String>,
    source: &mut S,
    sink: &mut K,
    notes: &mut N,
) -> ExitCode
    // The process ends with the status of what the words ask for, and with its note.
    ensures ended { HasEnded (map string_bytes words.now.items) (exit_status result)
        (S.never_fails source.old) (K.never_fails_within sink.old)
        (stream_of S.left S.faults source.old source.new)
        (stream_of K.held K.faults sink.old sink.new)
        (stream_of N.held N.faults notes.old notes.new) }

    // The status is 3 only where the source may fail, and before its end, and 4 only where the sink may before all is written.
    ensures reads { S.never_fails source.old → exit_status result ≢ 3 }
    ensures before_end { S.never_fails_before_end source.old → exit_status result ≢ 3 }
    ensures writes { length words.now.items ≡ 0
        → (room : ℕ) → K.never_fails_within sink.old room
        → FitsInto room 4294967295 (S.left source.old) → exit_status result ≢ 4 }
    ensures written { (n : ℕ) → AreGenWords (map string_bytes words.now.items) n
        → (room : ℕ) → K.never_fails_within sink.old room → SummaryFits room n
        → exit_status result ≢ 4 }

    // A known script of the grammar whose output the sink takes ends with status 0, or 7 where memory is refused.
    ensures complete { length words.now.items ≡ 0
        → S.never_fails source.old → (room : ℕ) → K.never_fails_within sink.old room
        → IsRunnable room 4294967295 (S.left source.old)
        → (exit_status result ≡ 0) ⊎ (exit_status result ≡ 7) }

    // With any words nothing is read, and with those that ask for the usage nothing is written.
    ensures unread { 0 < length words.now.items → source.new ≡ source.old }
    ensures unwritten { IsUsage (map string_bytes words.now.items) → sink.new ≡ sink.old }

    // With status 0 nothing is noted.
    ensures silent { exit_status result ≡ 0 → notes.new ≡ notes.old }
{
    ExitCode::from(run_words(alloc, words, source, sink, notes))
}
