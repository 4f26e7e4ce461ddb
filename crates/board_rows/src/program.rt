//! The programs: their words, faults, statuses and notes.
use crate::boards::FIRST_RUN;
use crate::programs::{Ended, Program, words_of};
use crate::row::bytes_of;
use crate::same::same;
use board_script::{MemorySink, MemorySource};
use std::alloc::Global;
use std::process::{Abort, ExitCode};
use std::test::Fail;

/// A run of a program with these words on its command line. Its source gives the first run, 60 bytes a call, and its sink has so much room; the calls of these numbers, counted from 0, fail.
#[derive(Clone, Copy)]
struct Run {
    program: Program,
    words: &'static [&'static str],
    failed_reads: &'static [u64],
    room: usize,
    failed_writes: &'static [u64],
    status: u8,
    output: &'static str,
    note: &'static str,
}

/// The program of scripts without words and faults.
const PLAIN: Run = Run {
    program: Program::Scripts,
    words: &[],
    failed_reads: &[],
    room: 4096,
    failed_writes: &[],
    status: 0,
    output: "",
    note: "",
};

/// It reads nothing, so that a source which fails changes nothing.
const GENERATED: Run = Run {
    failed_reads: &[0],
    ..PLAIN
};

/// It reads nothing, and tells how it is called.
const USAGE: Run = Run {
    failed_reads: &[0],
    status: 2,
    note: "usage: board_run [gen N]\n",
    ..PLAIN
};

const RUNS: [Run; 15] = [
    Run {
        failed_reads: &[1],
        status: 3,
        output: "ok\n",
        note: "read fault\n",
        ..PLAIN
    },
    Run {
        failed_writes: &[2],
        status: 4,
        output: "ok\ntable = ok 1\n",
        note: "write fault\n",
        ..PLAIN
    },
    // The sink has room for the front of an answer.
    Run {
        room: 5,
        status: 4,
        output: "ok\nta",
        note: "write fault\n",
        ..PLAIN
    },
    Run {
        words: &["gen", "1"],
        output: "lines 25\nrefused 1\nsteps 12\nupdates 0\ngets 0\ngenerations 1 1\n",
        ..GENERATED
    },
    Run {
        words: &["gen", "1000"],
        output: "lines 1024\nrefused 433\nsteps 489\nupdates 47\ngets 41\ngenerations 27 22\n",
        ..GENERATED
    },
    // The sink has room for the front of a summary.
    Run {
        words: &["gen", "100"],
        room: 40,
        status: 4,
        output: "lines 124\nrefused 53\nsteps 48\nupdates 5\n",
        note: "write fault\n",
        ..GENERATED
    },
    Run {
        words: &["gen", "0"],
        ..USAGE
    },
    Run {
        words: &["gen", "01"],
        ..USAGE
    },
    Run {
        words: &["gen", "1000001"],
        ..USAGE
    },
    Run {
        words: &["gen", "1", "2"],
        ..USAGE
    },
    Run {
        words: &["gen"],
        ..USAGE
    },
    Run {
        words: &["x"],
        ..USAGE
    },
    Run {
        program: Program::Snapshots,
        words: &[""],
        note: "usage: board_snapshot_run\n",
        ..USAGE
    },
    Run {
        program: Program::Watchers,
        words: &[""],
        note: "usage: board_watch_run\n",
        ..USAGE
    },
    Run {
        program: Program::Sessions,
        words: &[""],
        note: "usage: board_check_run\n",
        ..USAGE
    },
];

impl Run {
    fn holds(&self, rt: &impl Abort, alloc: Global) -> Result<(), Fail> {
        let words = words_of(alloc, self.words)?;
        let (script, _) = bytes_of(alloc, &FIRST_RUN.all_lines(alloc)?)?;
        let source = MemorySource::new(script, 60, self.failed_reads.to_vec(alloc)?);
        let sink = MemorySink::new(alloc, self.room, 0, self.failed_writes.to_vec(alloc)?)?;
        let ended = Ended::with_words(alloc, self.program, &words, source, sink)?;
        let output = Some(self.output.as_bytes());
        let wanted = (self.status, output, self.note.as_bytes());
        same(rt, &(&words, ended.told()), &(&words, wanted), "");
        Ok(())
    }
}

#[test]
fn a_process_has_the_status_of_its_program(rt: HostRuntime) -> Result<(), Fail> {
    let alloc = rt.alloc();
    for run in &RUNS {
        let words = words_of(alloc, run.words)?;
        let (script, _) = bytes_of(alloc, &FIRST_RUN.all_lines(alloc)?)?;
        let mut source = MemorySource::new(script, 60, run.failed_reads.to_vec(alloc)?);
        let mut sink = MemorySink::new(alloc, run.room, 0, run.failed_writes.to_vec(alloc)?)?;
        let mut notes = MemorySink::new(alloc, 100, 0, Vec::new(alloc))?;
        let program = run.program;
        let code = program.exit_code(alloc, &words, &mut source, &mut sink, &mut notes);
        assert_eq!(rt; code, ExitCode::from(run.status));
    }
    Ok(())
}

#[test]
fn each_program_ends_as_it_is_called(rt: HostRuntime) -> Result<(), Fail> {
    for run in &RUNS {
        run.holds(&rt, rt.alloc())?;
    }
    Ok(())
}
