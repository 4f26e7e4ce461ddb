//! Statuses and notes.
ghost use Rattle.std.specs.Prelude.{◌≡◌, Err, IsOk};
ghost use Rattle.std.specs.Process.{exit_status};
ghost use Rattle.script_loop.specs.Runs.{stream_of};
ghost use Rattle.script_endings.specs.Endings.{IsNoted, note_of, status_of};

use board_layout::Text;
use itoa::Buffer;
use script_loop::{ScriptError, Sink, write_whole};
use std::process::ExitCode;

// Writes a note. That it fails changes nothing else.
fn note<N: Sink>(notes: &mut N, text: &[u8])
    ensures { IsNoted (stream_of N.held N.faults notes.old notes.new) text.now }
{
    let _ = write_whole(notes, text);
}

// The note of a line outside the grammar.
fn bad_line(n: u64) -> Text<80>
    ensures { result ≡ note_of (Err (ScriptError.BadLine n)) }
{
    let mut buffer = Buffer::new();
    let mut text: Text<80> = Text::of(b"line ");
    text.push(buffer.format(n).as_bytes());
    text.push(b": not in the grammar\n");
    text
}

// The status of an error, and its note with the newline.
fn ending_of(error: ScriptError) -> (u8, Text<80>)
    ensures status { result.0 ≡ status_of (Err error) }
    ensures note { result.1 ≡ note_of (Err error) }
{
    match error {
        ScriptError::ReadFault => (3, Text::of(b"read fault\n")),
        ScriptError::WriteFault => (4, Text::of(b"write fault\n")),
        ScriptError::BadLine(n) => (5, bad_line(n)),
        ScriptError::TooLong => (6, Text::of(b"too long\n")),
        ScriptError::OutOfMemory => (7, Text::of(b"out of memory\n")),
    }
}

/// The status of a run's answer. An error is noted.
pub fn end_with<N: Sink>(answer: Result<(), ScriptError>, notes: &mut N) -> u8
    ensures is { result ≡ status_of answer }
    ensures noted { IsNoted (stream_of N.held N.faults notes.old notes.new) (note_of answer) }

    // Of a run that went well nothing is noted, and nothing is written.
    ensures silent { IsOk answer → notes.new ≡ notes.old }
{
    match answer {
        Ok(()) => 0,
        Err(error) => {
            let (status, text) = ending_of(error);
            note(notes, text.as_bytes());
            status
        }
    }
}

/// The status of a program that takes no words where there are some. How it is called is noted.
pub fn refuse_words<N: Sink>(usage: &[u8], notes: &mut N) -> u8
    ensures is { result ≡ 2 }
    ensures noted { IsNoted (stream_of N.held N.faults notes.old notes.new) usage.now }
{
    note(notes, usage);
    2
}

/// The exit code of a process whose words can't be had, since memory was refused for them.
pub fn end_without_words<N: Sink>(notes: &mut N) -> ExitCode
    ensures status { exit_status result ≡ 7 }
    ensures note { IsNoted (stream_of N.held N.faults notes.old notes.new)
        (note_of (Err ScriptError.OutOfMemory)) }
{
    ExitCode::from(end_with(Err(ScriptError::OutOfMemory), notes))
}
