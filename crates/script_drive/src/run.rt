//! Lines that are run one after another.
ghost use Rattle.std.specs.Prelude.{◌≡◌, ◌≢◌, ◌<◌, ℕ, [], IfErr};
ghost use Rattle.script_loop.specs.Runs.{stream_of};
ghost use Rattle.script_drive.specs.DriveRuns.{DriveRuns, FitsInto, IsRunnable};

use crate::driver::{Drives, answer_line};
use script_loop::{Fetched, LineError, ScriptError, Sink, Source, new_reader, write_whole};
use std::alloc::Global;

/// Answers the lines of the source, at most `limit` of them, and writes what is told of each before the next line is looked at.
///
/// Line n is counted from 1. What follows the last line that is allowed is read up to its newline; it is `TooLong` where a byte was read.
///
/// # Errors
/// `ReadFault` and `WriteFault` where source or sink failed; `BadLine` with the number of the first line outside the grammar; `TooLong`; `OutOfMemory`. What is told of the lines before is written.
pub fn run_driven<D: Drives, S: Source, K: Sink>(
    alloc: Global,
    limit: u64,
    driver: &mut D,
    source: &mut S,
    sink: &mut K,
) -> Result<(), ScriptError>
    requires limit { limit < 4294967296 }
    requires lawful { D.lawful [] }
    requires stands { D.stands driver.old [] }

    // The sink gained what is told of the input's lines, or the error says what stands.
    ensures runs { DriveRuns D.drive D.lawful limit
        (stream_of S.left S.faults source.old source.new)
        (stream_of K.held K.faults sink.old sink.new)
        result }

    // Where no read fails before the source's end, behind which none is made, there is no read fault, and where no write fails within what is told no write fault.
    ensures reads { S.never_fails source.old → result ≢ Err ScriptError.ReadFault }
    ensures before_end { S.never_fails_before_end source.old → result ≢ Err ScriptError.ReadFault }
    ensures writes { (room : ℕ) → K.never_fails_within sink.old room
        → FitsInto D.drive D.lawful room limit (S.left source.old)
        → result ≢ Err ScriptError.WriteFault }

    // A known script is run to its end where neither fails.
    ensures complete { S.never_fails source.old → (room : ℕ) → K.never_fails_within sink.old room
        → IsRunnable D.drive D.lawful room limit (S.left source.old)
        → IfErr result (λ e. e ≡ ScriptError.OutOfMemory) }
{
    let Some(mut reader) = new_reader(alloc) else {
        return Err(ScriptError::OutOfMemory);
    };
    let mut told = Vec::new(alloc);
    for n in 0..limit {
        match reader.next(source) {
            Err(_) => return Err(ScriptError::ReadFault),
            Ok(Fetched::End) => return Ok(()),
            Ok(Fetched::Long) => return Err(ScriptError::BadLine(n + 1)),
            Ok(Fetched::Line) => match answer_line(alloc, driver, reader.line(), &mut told) {
                Err(LineError::Bad) => return Err(ScriptError::BadLine(n + 1)),
                Err(LineError::OutOfMemory) => return Err(ScriptError::OutOfMemory),
                Ok(()) => match write_whole(sink, &told) {
                    Err(_) => return Err(ScriptError::WriteFault),
                    Ok(()) => {}
                },
            },
        }
    }
    match reader.next(source) {
        Err(_) => Err(ScriptError::ReadFault),
        Ok(Fetched::End) => Ok(()),
        Ok(Fetched::Long) => Err(ScriptError::TooLong),
        Ok(Fetched::Line) => Err(ScriptError::TooLong),
    }
}
