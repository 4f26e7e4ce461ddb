//! The program's top call.
ghost use Rattle.std.specs.Prelude.{◌≡◌, ◌≢◌, ◌⊎◌, ℕ, ◌<◌, ◌≤◌, Err, Ok, length, map};
ghost use Rattle.std.specs.Process.{exit_status};
ghost use Rattle.std.specs.String.{string_bytes};
ghost use Rattle.script_endings.specs.Endings.{IsNoted};
ghost use Rattle.script_loop.specs.Runs.{stream_of};
ghost use Rattle.script_pairs.specs.Checks.{HasLinesOf};
ghost use Rattle.board_check.specs.Top.{HasEnded, IsAnswered, IsBrokenIn, IsEnding, IsJudged, IsLawfulIn, IsRunIn, error_in, status_told, usage_note, verdict_text};

use crate::checking::check;
use board_layout::Text;
use itoa::Buffer;
use script_endings::{end_with, refuse_words};
use script_loop::{ScriptError, Sink, Source, write_whole};
use script_pairs::{CheckError, Verdict};
use std::alloc::Global;
use std::process::ExitCode;

// A verdict as it is printed.
#[tactic(auto, using(crate::proofs::TopLemmas::name_short))]
fn text_of(verdict: Verdict) -> Text<64>
    ensures { result ≡ verdict_text verdict }
{
    let mut buffer = Buffer::new();
    match verdict {
        Verdict::Lawful { pairs } => {
            let mut text: Text<64> = Text::of(b"lawful ");
            text.push(buffer.format(pairs).as_bytes());
            text.push(b"\n");
            text
        }
        Verdict::No { pair, rule } => {
            let mut text: Text<64> = Text::of(b"line ");
            text.push(buffer.format(pair).as_bytes());
            text.push(b": ");
            text.push(rule.as_str().as_bytes());
            text.push(b"\n");
            text
        }
    }
}

fn status_of(verdict: Verdict) -> u8
    ensures { result ≡ status_told verdict }
{
    match verdict {
        Verdict::Lawful { pairs: _ } => 0,
        Verdict::No { pair: _, rule: _ } => 1,
    }
}

// The same error as a run of a script has it.
fn as_of_run(error: CheckError) -> ScriptError
    ensures { result ≡ error_in error }
{
    match error {
        CheckError::ReadFault => ScriptError::ReadFault,
        CheckError::TooLong => ScriptError::TooLong,
        CheckError::OutOfMemory => ScriptError::OutOfMemory,
    }
}

// Writes the verdict, and gives its status.
fn tell<K: Sink, N: Sink>(verdict: Verdict, sink: &mut K, notes: &mut N) -> u8
    ensures ending { IsEnding (Ok verdict) result
        (stream_of K.held K.faults sink.old sink.new)
        (stream_of N.held N.faults notes.old notes.new) }
    ensures unfailing { K.never_fails_within sink.old 64 → result ≡ status_told verdict }

    // Nothing is noted of a verdict that was written.
    ensures silent { result ≢ 4 → notes.new ≡ notes.old }

    // A fault of the sink is told by the status 4.
    ensures told { result ≢ 4 → K.faults sink.new ≡ K.faults sink.old }
    ensures later { K.faults sink.old ≤ K.faults sink.new }
{
    let text = text_of(verdict);
    match write_whole(sink, text.as_bytes()) {
        Ok(()) => status_of(verdict),
        Err(_) => end_with(Err(ScriptError::WriteFault), notes),
    }
}

/// Checks the session of the source where there are no words on the command line, and writes the verdict. Gives the status.
///
/// The status is 0 for a lawful session, 1 for another, 2 where there are words, 3 and 4 where the source and the sink
/// failed, 6 where there are too many pairs, and 7 where memory was refused. From 2 on each has a note of one line.
pub fn check_words<S: Source, K: Sink, N: Sink>(
    alloc: Global,
    words: &Vec<String>,
    source: &mut S,
    sink: &mut K,
    notes: &mut N,
) -> u8
    // With status 0 the source's lines are a lawful session, read to its end, and with status 1 a pair breaks a rule.
    // That was written.
    ensures lawful { result ≡ 0 → IsLawfulIn
        (stream_of S.left S.faults source.old source.new)
        (stream_of K.held K.faults sink.old sink.new) }
    ensures broken { result ≡ 1 → IsBrokenIn
        (stream_of S.left S.faults source.old source.new)
        (stream_of K.held K.faults sink.old sink.new) }

    // Without words the status, what is written and the note are those of the check's answer, which comes where `Checks` says.
    // Faults of the source and of the sink are told.
    ensures ran { length words.now.items ≡ 0
        → IsAnswered result
        (stream_of S.left S.faults source.old source.new)
        (stream_of K.held K.faults sink.old sink.new)
        (stream_of N.held N.faults notes.old notes.new) }

    // Nothing is noted of a verdict that was written.
    ensures silent { result < 2 → notes.new ≡ notes.old }

    // The status is 3 only where the source may fail, and before its end, and 4 only where the sink may within a verdict's bytes.
    ensures reads { S.never_fails source.old → result ≢ 3 }
    ensures before_end { S.never_fails_before_end source.old → result ≢ 3 }
    ensures writes { K.never_fails_within sink.old 64 → result ≢ 4 }

    // The lines and the output of a run, in turn, end with status 0, or 7 where memory is refused.
    ensures runs { length words.now.items ≡ 0
        → S.never_fails source.old → K.never_fails_within sink.old 64
        → IsRunIn (S.left source.old) → (result ≡ 0) ⊎ (result ≡ 7) }

    // No more lines than those of the pairs that are allowed come to a verdict, or to want of memory.
    ensures complete { length words.now.items ≡ 0
        → S.never_fails source.old → K.never_fails_within sink.old 64
        → HasLinesOf 4294967295 (S.left source.old) → IsJudged result }

    // The status is 2 exactly where there are words. Then nothing is read or written.
    ensures usage { 0 < length words.now.items → result ≡ 2 }
    ensures usage_only { result ≡ 2 → 0 < length words.now.items }
    ensures usage_note { 0 < length words.now.items
        → IsNoted (stream_of N.held N.faults notes.old notes.new) usage_note }
    ensures unread { 0 < length words.now.items → source.new ≡ source.old }
    ensures unwritten { 0 < length words.now.items → sink.new ≡ sink.old }
{
    if !words.is_empty() {
        return refuse_words(b"usage: board_check_run\n", notes);
    }
    match check(alloc, source) {
        Ok(verdict) => tell(verdict, sink, notes),
        Err(error) => end_with(Err(as_of_run(error)), notes),
    }
}

/// The same, with the status as the process's exit code.
pub fn run_program<S: Source, K: Sink, N: Sink>(
    alloc: Global,
    words: &Vec<String>,
    source: &mut S,
    sink: &mut K,
    notes: &mut N,
) -> ExitCode
    // The process ends with the status of what the words ask for, and with its note.
    ensures ended { HasEnded (map string_bytes words.now.items) (exit_status result)
        (stream_of S.left S.faults source.old source.new)
        (stream_of K.held K.faults sink.old sink.new)
        (stream_of N.held N.faults notes.old notes.new) }

    // Nothing is noted of a verdict that was written.
    ensures silent { exit_status result < 2 → notes.new ≡ notes.old }

    // The status is 3 only where the source may fail, and before its end, and 4 only where the sink may within a verdict's bytes.
    ensures reads { S.never_fails source.old → exit_status result ≢ 3 }
    ensures before_end { S.never_fails_before_end source.old → exit_status result ≢ 3 }
    ensures writes { K.never_fails_within sink.old 64 → exit_status result ≢ 4 }

    // The lines and the output of a run, in turn, end with status 0, or 7 where memory is refused.
    ensures runs { length words.now.items ≡ 0
        → S.never_fails source.old → K.never_fails_within sink.old 64
        → IsRunIn (S.left source.old) → (exit_status result ≡ 0) ⊎ (exit_status result ≡ 7) }

    // No more lines than those of the pairs that are allowed come to a verdict, or to want of memory.
    ensures complete { length words.now.items ≡ 0
        → S.never_fails source.old → K.never_fails_within sink.old 64
        → HasLinesOf 4294967295 (S.left source.old) → IsJudged (exit_status result) }

    // With words nothing is read or written.
    ensures unread { 0 < length words.now.items → source.new ≡ source.old }
    ensures unwritten { 0 < length words.now.items → sink.new ≡ sink.old }
{
    ExitCode::from(check_words(alloc, words, source, sink, notes))
}
