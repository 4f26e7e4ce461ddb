//! Lines outside the grammar, and how long a line and a script may be.
use crate::row::{PLAIN, Row, Script, all_hold};
use crate::same::same;
use board_script::{MemorySink, MemorySource, ScriptError, run_script, run_script_within};
use std::alloc::{AllocError, Global};
use std::test::Fail;

pub(crate) const ROWS: [Row; 2] = [
    Row {
        name: "an empty line",
        lines: "
            abandon a | gone
                      |
            abandon b |
        ",
        status: 5,
        note: "line 2: not in the grammar",
        ..PLAIN
    },
    Row {
        name: "an empty line after a refusal",
        lines: "
            words 1 | refused noboard
                    |
        ",
        status: 5,
        note: "line 2: not in the grammar",
        ..PLAIN
    },
];

const BAD_LINES: [&str; 16] = [
    "step a\r",
    "step  a",
    " step a",
    "begin a update m u64:01",
    "begin a update m u64:18446744073709551616",
    "stop a",
    "begin a create f b\x7f u64",
    "words 00",
    "begin a listen e bits ev 65536",
    "begin a listen e bits ev",
    "begin a listen e queue q 1",
    "begin a listen e queue a/b",
    "begin a notifier n queue ..",
    "begin a wait e some try",
    "begin a wait e one later",
    "expire",
];

#[test]
fn lines_outside_the_grammar(rt: HostRuntime) -> Result<(), Fail> {
    all_hold(&rt, rt.alloc(), &ROWS)?;
    for line in BAD_LINES {
        Script {
            name: line,
            lines: &[("step a", "refused idle"), (line, ""), ("step a", "")],
            status: 5,
            note: "line 2: not in the grammar",
        }
        .holds(&rt, rt.alloc())?;
    }
    Ok(())
}

// A line that creates a board: one with that name, 8 attributes, and 66 entries of four words. It has 4079 bytes and those of the name.
fn long_create(alloc: Global, name: &str) -> Result<String, AllocError> {
    let mut line = format!(in alloc; "begin a create f {name} u64")?;
    for n in 0..8 {
        line.push_str(&format!(in alloc; " attr k{n:K<63} v{n:V<255}")?)?;
    }
    for key in 0..66 {
        line.push_str(&format!(in alloc; " add u64:{key} q4:1,2,3,4")?)?;
    }
    Ok(line)
}

#[test]
fn a_line_has_at_most_4096_bytes(rt: HostRuntime) -> Result<(), Fail> {
    let cases = [
        ("nnnnnnnnnnnnnnnnn", 4096, "ok", 0, ""),
        (
            "nnnnnnnnnnnnnnnnnn",
            4097,
            "",
            5,
            "line 1: not in the grammar",
        ),
    ];
    for (name, len, answer, status, note) in cases {
        let line = long_create(rt.alloc(), name)?;
        same(&rt, &line.len(), &len, name);
        Script {
            name: "a long line",
            lines: &[(&line, answer)],
            status,
            note,
        }
        .holds(&rt, rt.alloc())?;
    }
    Ok(())
}

// A script, how many lines of it are allowed, and how it ends.
const SCRIPTS: [(&str, u32, Result<(), ScriptError>, &str); 5] = [
    (
        "abandon a\nabandon b\nabandon c\nabandon d\n",
        3,
        Err(ScriptError::TooLong),
        "gone\ngone\ngone\n",
    ),
    (
        "abandon a\nabandon b\nabandon c\n",
        3,
        Ok(()),
        "gone\ngone\ngone\n",
    ),
    (
        "abandon a\nabandon b\nabandon c\nstop",
        3,
        Err(ScriptError::TooLong),
        "gone\ngone\ngone\n",
    ),
    (
        "abandon a\nstop\nabandon c\nabandon d\n",
        3,
        Err(ScriptError::BadLine(2)),
        "gone\n",
    ),
    ("a", 0, Err(ScriptError::TooLong), ""),
];

#[test]
fn a_script_has_at_most_so_many_lines(rt: HostRuntime) -> Result<(), Fail> {
    let alloc = rt.alloc();
    for (script, limit, result, output) in SCRIPTS {
        let bytes = script.as_bytes().to_vec(alloc)?;
        let mut source = MemorySource::new(bytes, 0, Vec::new(alloc));
        let mut sink = MemorySink::new(alloc, 100, 0, Vec::new(alloc))?;
        let ran = run_script_within(alloc, u64::from(limit), &mut source, &mut sink);
        let wanted = (result, output.as_bytes());
        same(&rt, &(ran, sink.held()), &wanted, script);
    }
    Ok(())
}

// The last line needs no newline.
#[test]
fn a_script_of_one_line(rt: HostRuntime) -> Result<(), Fail> {
    let alloc = rt.alloc();
    let mut source = MemorySource::new(Vec::from_slice(alloc, b"abandon a")?, 0, Vec::new(alloc));
    let mut sink = MemorySink::new(alloc, 100, 0, Vec::new(alloc))?;
    let ran = run_script(alloc, &mut source, &mut sink);
    let wanted = (Ok(()), b"gone\n".as_slice());
    same(&rt, &(ran, sink.held()), &wanted, "abandon a");
    Ok(())
}
