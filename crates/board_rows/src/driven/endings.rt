//! Lines outside the grammar, and calls of source and sink that fail.
use crate::driven::watchers::{BITS, REPORTED};
use crate::driven::{BOARD, Lines, ONE_ENTRY, Scene, script_of};
use crate::programs::Program;
use std::alloc::Global;
use std::process::Abort;
use std::test::Fail;

/// The most handles that a snapshot may have.
const MOST_SNAPPED: Lines = "snap b h k h k h k h k h k h k h k h k |  | snapping b";

/// The most handles that a watcher may have.
const MOST_WATCHED: Lines = "
    watch b e h h h h h h h h h h h h h h h h | begin b id h | refused unknown
                                              |              | unwatched b
";

/// Lines outside the grammar of snapshots.
const OUTSIDE_SNAPSHOTS: [&'static str; 12] = [
    "snap b",
    "snap b h k h k h k h k h k h k h k h k h",
    "snap B h",
    "snap b H",
    "snap b  h",
    "snap b h ",
    "turn",
    "turn b h",
    "watch b e h",
    "",
    "> step b",
    "snapping b",
];

/// Lines outside the grammar of watchers.
const OUTSIDE_WATCHERS: [&'static str; 9] = [
    "watch b",
    "watch b e",
    "watch b e h h h h h h h h h h h h h h h h h",
    "watch B e h",
    "watch b  e h",
    "turn",
    "turn b h",
    "snap b h",
    "",
];

// Each is refused behind this line.
fn are_outside(
    rt: &impl Abort,
    alloc: Global,
    program: Program,
    first: Lines,
    outside: &[&'static str],
) -> Result<(), Fail> {
    for line in outside {
        let mut whole = script_of(alloc, program, line, &[])?;
        whole.push_lines(first)?;
        whole.push_outside(line)?;
        whole.ends_with(5, "line 2: not in the grammar")?;
        whole.runs_in_pieces(rt, alloc, 0)?;
    }
    Ok(())
}

#[test]
fn lines_are_outside_the_grammar(rt: HostRuntime) -> Result<(), Fail> {
    let alloc = rt.alloc();
    are_outside(
        &rt,
        alloc,
        Program::Snapshots,
        MOST_SNAPPED,
        &OUTSIDE_SNAPSHOTS,
    )?;
    are_outside(
        &rt,
        alloc,
        Program::Watchers,
        MOST_WATCHED,
        &OUTSIDE_WATCHERS,
    )
}

/// A whole snapshot of one entry.
const ONE_SNAPSHOT: Scene = &[
    "
        snap b h |               | snapping b
        turn b   | begin b get h | ok
        turn b   | step b        | read 1:0 1
        turn b   | step b        | read 1:2 7
        turn b   | step b        | read 1:0 1 = u64:7 gen 1
        turn b   | begin b get h | ok
        turn b   | step b        | read 1:0 1
        turn b   | step b        | read 1:2 7
        turn b   | step b        | read 1:0 1 = u64:7 gen 1
                 |               | snapshot b h u64:7 gen 1
    ",
];

#[test]
fn each_call_of_a_stream_may_fail_in_a_snapshot(rt: HostRuntime) -> Result<(), Fail> {
    let alloc = rt.alloc();
    let whole = script_of(
        alloc,
        Program::Snapshots,
        "a snapshot",
        &[ONE_ENTRY, ONE_SNAPSHOT],
    )?;
    whole.fails_in_turn(&rt, alloc)
}

#[test]
fn each_call_of_a_stream_may_fail_in_a_report(rt: HostRuntime) -> Result<(), Fail> {
    let alloc = rt.alloc();
    let whole = script_of(
        alloc,
        Program::Watchers,
        "a report",
        &[BOARD, BITS, REPORTED],
    )?;
    whole.fails_in_turn(&rt, alloc)
}
