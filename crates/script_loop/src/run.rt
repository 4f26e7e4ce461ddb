//! Lines that are run one after another.
ghost use Rattle.std.specs.Prelude.{◌≡◌, ◌≢◌, ◌≤◌, List, [], IfSome, IsErrOf, OnErr, OnOk, false, ℕ, vec_capacity};
ghost use Rattle.script_model.specs.ScriptSession.{Session, start};
ghost use Rattle.script_model.specs.ScriptTurns.{ScriptState};
ghost use Rattle.script_loop.specs.Reader.{in_hand, source_ended};
ghost use Rattle.script_loop.specs.Runs.{FitsInto, Runs, SomeWants, StopsForMemory, stream_of};
ghost use Rattle.script_loop.specs.Machines.{AnswersEach, SpellsNone, StandsFor, StandsStill, short_room};

use crate::error::{LineError, ScriptError};
use crate::line_reader::{Fetched, LineReader};
use crate::stream::{Sink, Source};
use crate::writer::write_whole;
use std::alloc::Global;

/// What answers the lines of a script.
///
/// Contracts see for which numbers of lines and which states a machine stands: those of the lawful sessions that may have led to it.
/// They see too for which lines it `wants` memory beside that of the answer.
pub trait RunsLines {
    ghost stands: { Self → ℕ → ScriptState → Type 0 };

    ghost wants: { Self → List ℕ → Type 0 };

    /// Answers a line: `answer` then has the answer and its newline, and nothing else.
    ///
    /// # Errors
    /// `Bad` where the line is outside the grammar; `OutOfMemory`, where `answer` has room for 400 bytes only for a line that wants memory.
    fn line(&mut self, line: &[u8], answer: &mut Vec<u8>) -> Result<(), LineError>
        // The machine stands for a session that is short enough that no number reaches its end.
        requires { (session : Session) × StandsFor stands self.old session }

        // For each session that it stands for the answer is right, and it stands for the session with this pair.
        ensures ok { OnOk result (AnswersEach stands self.old self.new line.now answer.new.items) }

        // A line outside the grammar is refused, no other one is, and nothing changes.
        ensures bad { IsErrOf result LineError.Bad → SpellsNone line.now }
        ensures same { IsErrOf result LineError.Bad → StandsStill stands self.old self.new }

        ensures err { OnErr result (answer.new.items ≡ []) }

        // Memory is refused only where the line wants some, where the buffer has room for each answer without a list. It keeps its room.
        ensures memory { IsErrOf result LineError.OutOfMemory → short_room ≤ vec_capacity answer.old
            → wants self.old line.now }
        ensures room { vec_capacity answer.old ≤ vec_capacity answer.new };
}

// Room for each answer that tells no list, which is taken before the first line: so none of them needs any of its own.
const SHORT_ANSWER: usize = 400;

/// A reader with nothing in hand, or none where memory is refused.
pub fn new_reader(alloc: Global) -> Option<LineReader>
    ensures hand { IfSome result (λ reader. in_hand reader ≡ []) }
    ensures ended { IfSome result (λ reader. source_ended reader ≡ false) }
{
    match LineReader::new(alloc) {
        Ok(reader) => Some(reader),
        Err(LineError::OutOfMemory) => None,
        // No line was looked at yet.
        Err(LineError::Bad) => unreachable!(),
    }
}

/// Answers the lines of the source, at most `limit` of them, and writes each answer before the next line is looked at.
///
/// Line n is counted from 1. `TooLong` is looked at when a byte follows the last line that is allowed.
///
/// # Errors
/// `ReadFault` and `WriteFault` where source or sink failed; `BadLine` with the number of the first line outside the grammar; `TooLong`; `OutOfMemory`, before the first line or at one that wants memory. The answers to the lines before are written.
pub fn run_lines<M: RunsLines, S: Source, K: Sink>(
    alloc: Global,
    limit: u64,
    machine: &mut M,
    source: &mut S,
    sink: &mut K,
) -> Result<(), ScriptError>
    requires limit { limit ≤ 4294967295 }
    requires machine { M.stands machine.old 0 start }

    // The sink gained the output of the lawful session of the input's lines, or the error says what stands. What it can hold at most stays.
    ensures runs { Runs limit
        (stream_of S.left S.faults source.old source.new)
        (stream_of K.held K.faults sink.old sink.new)
        result }

    ensures most { K.most sink.new ≡ K.most sink.old }

    // Where no read fails there is no read fault, and where no write fails within the output no write fault.
    ensures reads { S.never_fails source.old → result ≢ Err ScriptError.ReadFault }

    // The source isn't read behind its end: where reads may fail only there, there is no read fault either.
    ensures before_end { S.never_fails_before_end source.old → result ≢ Err ScriptError.ReadFault }
    ensures writes { (room : ℕ) → K.never_fails_within sink.old room
        → FitsInto room limit (S.left source.old) → result ≢ Err ScriptError.WriteFault }

    // Memory is refused before the first line, or at one for which a machine that stands for the lines before wants some.
    ensures memory { IsErrOf result ScriptError.OutOfMemory
        → StopsForMemory (SomeWants M.stands M.wants) limit
        (stream_of S.left S.faults source.old source.new)
        (stream_of K.held K.faults sink.old sink.new) }
{
    let Some(mut reader) = new_reader(alloc) else {
        return Err(ScriptError::OutOfMemory);
    };
    let Ok(mut answer) = Vec::with_capacity(alloc, SHORT_ANSWER) else {
        return Err(ScriptError::OutOfMemory);
    };
    for n in 0..limit {
        match reader.next(source) {
            Ok(Fetched::End) => return Ok(()),
            Ok(Fetched::Long) => return Err(ScriptError::BadLine(n + 1)),
            Ok(Fetched::Line) => match machine.line(reader.line(), &mut answer) {
                Err(LineError::Bad) => return Err(ScriptError::BadLine(n + 1)),
                Err(LineError::OutOfMemory) => return Err(ScriptError::OutOfMemory),
                Ok(()) => match write_whole(sink, &answer) {
                    Err(_) => return Err(ScriptError::WriteFault),
                    Ok(()) => {}
                },
            },
            Err(_) => return Err(ScriptError::ReadFault),
        }
    }
    match reader.is_at_end(source) {
        Err(_) => Err(ScriptError::ReadFault),
        Ok(true) => Ok(()),
        Ok(false) => Err(ScriptError::TooLong),
    }
}
