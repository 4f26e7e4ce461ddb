//! Publications at each place of a snapshot.
use crate::driven::letters::lines_of;
use crate::driven::{TWO_ENTRIES, script_of};
use crate::programs::Program;
use crate::row::{Part, joined};
use crate::whole::Whole;
use std::alloc::{AllocError, Global};
use std::process::Abort;
use std::test::Fail;

// Each row has the letters of a snapshot's lines, turn by turn, and what is written behind the last.

/// Nothing, or the entry of 1 is published after each number of turns.
const FIRST_ENTRY: Part = "
    bcwe pqrs bcwe pqrs               | snapshot b h u64:7 gen 1 k u64:8 gen 1
    u bCWE pqrs bCWE pqrs             | snapshot b h u64:9 gen 2 k u64:8 gen 1
    bu CWE pqrs bCWE pqrs             | snapshot b h u64:9 gen 2 k u64:8 gen 1
    bcu wCWE pqrs bCWE pqrs           | snapshot b h u64:9 gen 2 k u64:8 gen 1
    bcwu CWE pqrs bCWE pqrs           | snapshot b h u64:9 gen 2 k u64:8 gen 1
    bcwe u pqrs bCWE pqrs bCWE pqrs   | snapshot b h u64:9 gen 2 k u64:8 gen 1
    bcwe pu qrs bCWE pqrs bCWE pqrs   | snapshot b h u64:9 gen 2 k u64:8 gen 1
    bcwe pqu rs bCWE pqrs bCWE pqrs   | snapshot b h u64:9 gen 2 k u64:8 gen 1
    bcwe pqru s bCWE pqrs bCWE pqrs   | snapshot b h u64:9 gen 2 k u64:8 gen 1
    bcwe pqrs u bCWE pqrs bCWE pqrs   | snapshot b h u64:9 gen 2 k u64:8 gen 1
    bcwe pqrs bu CWE pqrs bCWE pqrs   | snapshot b h u64:9 gen 2 k u64:8 gen 1
    bcwe pqrs bcu wCWE pqrs bCWE pqrs | snapshot b h u64:9 gen 2 k u64:8 gen 1
    bcwe pqrs bcwu CWE pqrs bCWE pqrs | snapshot b h u64:9 gen 2 k u64:8 gen 1
    bcwe pqrs bcwe u pqrs             | snapshot b h u64:7 gen 1 k u64:8 gen 1
    bcwe pqrs bcwe pu qrs             | snapshot b h u64:7 gen 1 k u64:8 gen 1
    bcwe pqrs bcwe pqu rs             | snapshot b h u64:7 gen 1 k u64:8 gen 1
    bcwe pqrs bcwe pqru s             | snapshot b h u64:7 gen 1 k u64:8 gen 1
";

/// The entry of 2 is.
const SECOND_ENTRY: Part = "
    v bcwe pQRS bcwe pQRS             | snapshot b h u64:7 gen 1 k u64:9 gen 2
    bv cwe pQRS bcwe pQRS             | snapshot b h u64:7 gen 1 k u64:9 gen 2
    bcv we pQRS bcwe pQRS             | snapshot b h u64:7 gen 1 k u64:9 gen 2
    bcwv e pQRS bcwe pQRS             | snapshot b h u64:7 gen 1 k u64:9 gen 2
    bcwe v pQRS bcwe pQRS             | snapshot b h u64:7 gen 1 k u64:9 gen 2
    bcwe pv QRS bcwe pQRS             | snapshot b h u64:7 gen 1 k u64:9 gen 2
    bcwe pqv rQRS bcwe pQRS           | snapshot b h u64:7 gen 1 k u64:9 gen 2
    bcwe pqrv QRS bcwe pQRS           | snapshot b h u64:7 gen 1 k u64:9 gen 2
    bcwe pqrs v bcwe pQRS bcwe pQRS   | snapshot b h u64:7 gen 1 k u64:9 gen 2
    bcwe pqrs bv cwe pQRS bcwe pQRS   | snapshot b h u64:7 gen 1 k u64:9 gen 2
    bcwe pqrs bcv we pQRS bcwe pQRS   | snapshot b h u64:7 gen 1 k u64:9 gen 2
    bcwe pqrs bcwv e pQRS bcwe pQRS   | snapshot b h u64:7 gen 1 k u64:9 gen 2
    bcwe pqrs bcwe v pQRS bcwe pQRS   | snapshot b h u64:7 gen 1 k u64:9 gen 2
    bcwe pqrs bcwe pv QRS bcwe pQRS   | snapshot b h u64:7 gen 1 k u64:9 gen 2
    bcwe pqrs bcwe pqv rQRS bcwe pQRS | snapshot b h u64:7 gen 1 k u64:9 gen 2
    bcwe pqrs bcwe pqrv QRS bcwe pQRS | snapshot b h u64:7 gen 1 k u64:9 gen 2
";

/// Both are, or one is with the value that it has.
const BOTH_ENTRIES: Part = "
    bcwe uv pQRS bCWE pQRS bCWE pQRS  | snapshot b h u64:9 gen 2 k u64:9 gen 2
    bcwe u pqrs v bCWE pQRS bCWE pQRS | snapshot b h u64:9 gen 2 k u64:9 gen 2
    bcwe pqrs u bCWE v pQRS bCWE pQRS | snapshot b h u64:9 gen 2 k u64:9 gen 2
    bcwe pqrs x bCyz pqrs bCyz pqrs   | snapshot b h u64:7 gen 2 k u64:8 gen 1
";

/// A handle is named twice.
const ONE_TWICE: Part = "
    bcwe bcwe bcwe bcwe                       | snapshot b h u64:7 gen 1 h u64:7 gen 1
    bcwe u bCWE bCWE bCWE bCWE bCWE           | snapshot b h u64:9 gen 2 h u64:9 gen 2
    bcwe bcwe u bCWE bCWE bCWE bCWE           | snapshot b h u64:9 gen 2 h u64:9 gen 2
    bcwe bcwe bcwe u bCWE bCWE bCWE bCWE bCWE | snapshot b h u64:9 gen 2 h u64:9 gen 2
";

// The script of a row. A turn behind it finds no snapshot.
fn script_of_row(
    alloc: Global,
    snap: &'static str,
    letters: &'static str,
    told: &str,
) -> Result<Whole<'static>, AllocError> {
    let mut whole = script_of(alloc, Program::Snapshots, letters, &[TWO_ENTRIES])?;
    whole.push_driven(snap, "", "snapping b")?;
    for letter in letters.as_bytes() {
        whole.push_lines(lines_of(*letter))?;
    }
    whole.push_driven("", "", told)?;
    whole.push_driven("turn b", "", "unsnapped b")?;
    Ok(whole)
}

// There are so many rows, and each tells what is written of it.
fn all_tell(
    rt: &impl Abort,
    alloc: Global,
    snap: &'static str,
    rows: Part,
    count: usize,
) -> Result<(), Fail> {
    let rows = joined(alloc, &[rows])?;
    assert!(rt; rows.len() == count);
    for (letters, told) in &rows {
        let whole = script_of_row(alloc, snap, letters, told)?;
        whole.runs_in_pieces(rt, alloc, 0)?;
    }
    Ok(())
}

#[test]
fn the_first_entry_is_published_at_each_place(rt: HostRuntime) -> Result<(), Fail> {
    all_tell(&rt, rt.alloc(), "snap b h k", FIRST_ENTRY, 17)
}

#[test]
fn the_second_entry_is_published_at_each_place(rt: HostRuntime) -> Result<(), Fail> {
    all_tell(&rt, rt.alloc(), "snap b h k", SECOND_ENTRY, 16)
}

#[test]
fn both_entries_are_published(rt: HostRuntime) -> Result<(), Fail> {
    all_tell(&rt, rt.alloc(), "snap b h k", BOTH_ENTRIES, 4)
}

#[test]
fn a_handle_is_named_twice(rt: HostRuntime) -> Result<(), Fail> {
    all_tell(&rt, rt.alloc(), "snap b h h", ONE_TWICE, 4)
}
