//! Scripts run over streams in memory: what is answered and written.
use crate::idle::Idle;
use script_loop::{MemorySink, MemorySource, ScriptError, run_lines};
use std::alloc::Global;
use std::test::Fail;

// How a script is run, and what was written, with a limit, pieces of the source and of the sink, and a room.
#[derive(Clone, Copy)]
struct Trial {
    script: &'static [u8],
    limit: u32,
    piece: usize,
    room: usize,
    read_fails: u64,
    result: Result<(), ScriptError>,
    written: &'static [u8],
}

const PLAIN: Trial = Trial {
    script: b"",
    limit: 9,
    piece: 0,
    room: 99,
    read_fails: 99,
    result: Ok(()),
    written: b"",
};

fn check(alloc: Global, trial: &Trial) -> Result<bool, Fail> {
    let script = Vec::from_slice(alloc, trial.script)?;
    let fails = Vec::from_array(alloc, [trial.read_fails])?;
    let mut source = MemorySource::new(script, trial.piece, fails);
    let mut sink = MemorySink::new(alloc, trial.room, trial.piece, Vec::new(alloc))?;
    let mut machine = Idle { alloc };
    let result = run_lines(
        alloc,
        u64::from(trial.limit),
        &mut machine,
        &mut source,
        &mut sink,
    );
    Ok(result == trial.result && sink.held() == trial.written)
}

#[test]
fn scripts_are_run_until_they_end_or_must_stop(rt: HostRuntime) -> Result<(), Fail> {
    let trials = [
        Trial {
            script: b"words 1\nstep a",
            written: b"refused noboard\nrefused idle\n",
            ..PLAIN
        },
        Trial {
            script: b"begin a notify n 1\nbegin a wait l all try\nexpire a\nbegin a notify n\n",
            piece: 1,
            result: Err(ScriptError::BadLine(4)),
            written: b"refused unknown\nrefused unknown\nrefused idle\n",
            ..PLAIN
        },
        Trial {
            script: b"step a\nstep b\n\n",
            limit: 2,
            result: Err(ScriptError::TooLong),
            written: b"refused idle\nrefused idle\n",
            ..PLAIN
        },
        Trial {
            script: b"step a\nstep b\nx",
            limit: 2,
            piece: 1,
            read_fails: 15,
            result: Err(ScriptError::TooLong),
            written: b"refused idle\nrefused idle\n",
            ..PLAIN
        },
        Trial {
            script: b"step a\nstep b\n",
            piece: 4,
            read_fails: 2,
            result: Err(ScriptError::ReadFault),
            written: b"refused idle\n",
            ..PLAIN
        },
        Trial {
            script: b"step a\nstep b\n",
            room: 15,
            result: Err(ScriptError::WriteFault),
            written: b"refused idle\nre",
            ..PLAIN
        },
        Trial {
            script: b"step a\nbegin a gen m\n",
            result: Err(ScriptError::OutOfMemory),
            written: b"refused idle\n",
            ..PLAIN
        },
    ];
    for trial in &trials {
        assert!(rt; check(rt.alloc(), trial)?);
    }
    Ok(())
}
