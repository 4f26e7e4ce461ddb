//! Sources that give a byte a call and sinks that take one, of which each call fails in turn.
use crate::boards::FIRST_RUN;
use crate::openings::{ONE_NUMBER, WRITTEN_AND_READ};
use crate::programs::{Ended, Program};
use crate::row::{Row, joined};
use crate::same::same;
use crate::whole::Whole;
use crate::{events, limits, loans};
use board_script::{MemorySink, MemorySource};
use std::alloc::{AllocError, Global};
use std::process::Abort;
use std::test::Fail;

// A row in bytes.
fn whole_of(alloc: Global, row: &Row) -> Result<Whole<'static>, AllocError> {
    let mut whole = Whole::new(alloc, Program::Scripts, row.name);
    for (line, answer) in &row.all_lines(alloc)? {
        whole.push(line, answer)?;
    }
    whole.ends_with(row.status, row.note)?;
    Ok(whole)
}

fn rows_hold(rt: &impl Abort, alloc: Global, rows: &[Row]) -> Result<(), Fail> {
    for row in rows {
        whole_of(alloc, row)?.fails_in_turn(rt, alloc)?;
    }
    Ok(())
}

#[test]
fn each_call_of_a_stream_may_fail(rt: HostRuntime) -> Result<(), Fail> {
    let alloc = rt.alloc();
    rows_hold(&rt, alloc, &[FIRST_RUN])?;
    rows_hold(&rt, alloc, &limits::ROWS)?;
    rows_hold(&rt, alloc, &loans::ROWS)?;
    rows_hold(&rt, alloc, &events::ROWS)
}

// 300 lines: an entry, and 96 updates of it.
fn many_updates(alloc: Global) -> Result<Whole<'static>, AllocError> {
    let mut whole = Whole::new(alloc, Program::Scripts, "many updates");
    for (line, answer) in &joined(alloc, &[ONE_NUMBER, WRITTEN_AND_READ])? {
        whole.push(line, answer)?;
    }
    for n in 0u64..96 {
        let begin = format!(in alloc; "begin a update m u64:{n}")?;
        whole.push(&begin, "ok")?;
        let spare = 3 - n % 2;
        let copied = format!(in alloc; "write 1:{spare} {n}")?;
        whole.push("step a", &copied)?;
        let raised = format!(in alloc; "write 1:0 {} = ok", n + 2)?;
        whole.push("step a", &raised)?;
    }
    Ok(whole)
}

#[test]
fn each_read_may_fail_in_300_lines(rt: HostRuntime) -> Result<(), Fail> {
    let whole = many_updates(rt.alloc())?;
    same(&rt, &whole.answered.len(), &300, whole.name);
    whole.ends_as_it_is(&rt, rt.alloc())?;
    whole.ends_at_each_read(&rt, rt.alloc())
}

#[test]
fn each_write_may_fail_in_300_lines(rt: HostRuntime) -> Result<(), Fail> {
    let whole = many_updates(rt.alloc())?;
    whole.ends_at_each_write(&rt, rt.alloc())
}

/// A run of which one call fails. Source and sink give and take so many bytes a call, or any number where that is 0.
#[derive(Clone, Copy)]
struct Fault {
    script: &'static str,
    piece: usize,
    failed_reads: &'static [u64],
    failed_writes: &'static [u64],
    status: u8,
    output: &'static str,
    note: &'static str,
}

const FAULTS: [Fault; 5] = [
    // The second answer isn't written.
    Fault {
        script: "abandon a\nabandon b\n",
        piece: 0,
        failed_reads: &[],
        failed_writes: &[1],
        status: 4,
        output: "gone\n",
        note: "write fault\n",
    },
    // The second line is cut.
    Fault {
        script: "abandon a\nabandon b\n",
        piece: 1,
        failed_reads: &[12],
        failed_writes: &[],
        status: 3,
        output: "gone\n",
        note: "read fault\n",
    },
    Fault {
        script: "abandon a\n",
        piece: 1,
        failed_reads: &[],
        failed_writes: &[3],
        status: 4,
        output: "gon",
        note: "write fault\n",
    },
    Fault {
        script: "abandon a\n",
        piece: 1,
        failed_reads: &[4],
        failed_writes: &[],
        status: 3,
        output: "",
        note: "read fault\n",
    },
    // All nine bytes are read, and the read that would tell the end fails: the line isn't whole.
    Fault {
        script: "abandon a",
        piece: 1,
        failed_reads: &[9],
        failed_writes: &[],
        status: 3,
        output: "",
        note: "read fault\n",
    },
];

#[test]
fn what_stands_written_after_a_fault(rt: HostRuntime) -> Result<(), Fail> {
    let alloc = rt.alloc();
    for fault in &FAULTS {
        let script = fault.script.as_bytes().to_vec(alloc)?;
        let source = MemorySource::new(script, fault.piece, fault.failed_reads.to_vec(alloc)?);
        let writes = fault.failed_writes.to_vec(alloc)?;
        let sink = MemorySink::new(alloc, 100, fault.piece, writes)?;
        let ended = Ended::of(alloc, Program::Scripts, source, sink)?;
        let output = Some(fault.output.as_bytes());
        let wanted = (fault.status, output, fault.note.as_bytes());
        same(&rt, &ended.told(), &wanted, fault.script);
    }
    Ok(())
}
