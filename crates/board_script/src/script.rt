//! Scripts, from their source to their sink.
ghost use Rattle.std.specs.Prelude.{◌≡◌, ◌≢◌, ◌≤◌, Err, IfErr, IfOk};
ghost use Rattle.script_model.specs.ScriptOutput.{IsOutputOf};
ghost use Rattle.script_loop.specs.Memory.{sink_holds, sink_most};
ghost use Rattle.board_script.specs.Whole.{FitsRoom, RunsInMemory, RunsScript};
ghost use Rattle.script_loop.specs.Runs.{stream_of};

use board_cell::SeatWords;
use board_service::BoardWords;
use script_loop::{
    MemorySink, MemorySource, RunsLines, ScriptError, Sink, SinkError, Source, run_lines,
};
use script_machine::Machine;
use std::alloc::Global;

/// The most lines of a script.
const MAX_LINES: u64 = 4294967295;

/// Runs the lines of the source to its end, at most `limit` of them, and writes the answer to each before the next is run.
/// The words of the script's boards are held by `C`.
///
/// # Errors
/// `ReadFault` and `WriteFault` where source or sink failed; `BadLine` with the number, from 1 on, of the first line outside the grammar; `TooLong` where a byte follows the last line that is allowed; `OutOfMemory`, before the first line or at one that takes memory. The answers to the lines before are written.
pub fn run_script_on<C: BoardWords + Drop, S: Source, K: Sink>(
    alloc: Global,
    limit: u64,
    source: &mut S,
    sink: &mut K,
) -> Result<(), ScriptError>
    requires { limit ≤ 4294967295 }
    ensures runs { RunsScript limit (S.never_fails source.old) (K.never_fails_within sink.old)
        (stream_of S.left S.faults source.old source.new)
        (stream_of K.held K.faults sink.old sink.new)
        result }
    ensures before_end { S.never_fails_before_end source.old → result ≢ Err ScriptError.ReadFault }
    ensures most { K.most sink.new ≡ K.most sink.old }
{
    let mut machine = Machine::<C>::new(alloc);
    run_lines(alloc, limit, &mut machine, source, sink)
}

/// The same, over words that threads may share.
///
/// # Errors
/// As `run_script_on`.
pub fn run_script_within<S: Source, K: Sink>(
    alloc: Global,
    limit: u64,
    source: &mut S,
    sink: &mut K,
) -> Result<(), ScriptError>
    requires { limit ≤ 4294967295 }
    ensures runs { RunsScript limit (S.never_fails source.old) (K.never_fails_within sink.old)
        (stream_of S.left S.faults source.old source.new)
        (stream_of K.held K.faults sink.old sink.new)
        result }
    ensures before_end { S.never_fails_before_end source.old → result ≢ Err ScriptError.ReadFault }
    ensures most { K.most sink.new ≡ K.most sink.old }
{
    run_script_on::<SeatWords, S, K>(alloc, limit, source, sink)
}

/// The same with at most 4294967295 lines.
///
/// # Errors
/// As `run_script_on`.
pub fn run_script<S: Source, K: Sink>(
    alloc: Global,
    source: &mut S,
    sink: &mut K,
) -> Result<(), ScriptError>
    ensures runs { RunsScript 4294967295 (S.never_fails source.old) (K.never_fails_within sink.old)
        (stream_of S.left S.faults source.old source.new)
        (stream_of K.held K.faults sink.old sink.new)
        result }
    ensures before_end { S.never_fails_before_end source.old → result ≢ Err ScriptError.ReadFault }
    ensures most { K.most sink.new ≡ K.most sink.old }
{
    run_script_within(alloc, MAX_LINES, source, sink)
}

/// Runs a script in memory, and gives the sink of so much room that has its output.
///
/// # Errors
/// As `run_script`, and `WriteFault` where the output has more bytes than the room. After an error no output is given.
pub fn run_in_memory(alloc: Global, script: Vec<u8>, room: usize) -> Result<MemorySink, ScriptError>
    // The sink holds the output of the lawful session of the script's lines, can hold as many bytes as there was room for, and has
    // failed at none of its writes.
    ensures output { IfOk result (λ sink. IsOutputOf script.items (sink_holds sink)) }
    ensures most { IfOk result (λ sink. sink_most sink ≡ room) }
    ensures told { IfOk result (λ sink. sink.faults ≡ 0) }

    // An error is one of `run_script` over a source of the script, which never fails, and an empty sink that takes what fits into
    // the room, and holds no more than that afterwards.
    ensures err { IfErr result (λ e. RunsInMemory room script.items (Err e)) }

    // A script of the grammar whose output fits is run to its end, or memory is refused.
    ensures complete { FitsRoom room script.items
        → IfErr result (λ e. e ≡ ScriptError.OutOfMemory) }
{
    let mut source = MemorySource::new(script, 0, Vec::new(alloc));
    let mut sink = match MemorySink::new(alloc, room, 0, Vec::new(alloc)) {
        Ok(sink) => sink,
        Err(SinkError::OutOfMemory) => return Err(ScriptError::OutOfMemory),
    };
    run_script(alloc, &mut source, &mut sink)?;
    Ok(sink)
}
