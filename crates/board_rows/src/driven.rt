//! Scripts whose parties are driven by snapshots or by watchers, each with what is told of it.
mod endings;
mod letters;
mod places;
mod snapshots;
mod watchers;

use crate::openings::{ONE_NUMBER, SECOND_READ, SECOND_WRITTEN, TWO_NUMBERS, WRITTEN_AND_READ};
use crate::programs::Program;
use crate::row::push_line;
use crate::whole::Whole;
use std::alloc::{AllocError, Global};
use std::process::Abort;
use std::test::Fail;

/// Lines of a script, each in a row of a text, with bars between what stands in it and blanks beside them.
///
/// `LINE | ANSWER` is a line that is given to the machine as it is, and so answered. `LINE | GIVEN | ANSWER` is one that gives
/// another, and `LINE | | TOLD` one that gives none, of which this is told. A row without its line belongs to the line above.
type Lines = &'static str;

/// Lines, one after another.
type Scene = &'static [Lines];

/// The one entry of a board is written and read.
const ONE_ENTRY: Scene = &[ONE_NUMBER, WRITTEN_AND_READ];

/// The same, with a second entry, which `b` reads.
const BOARD: Scene = &[TWO_NUMBERS, WRITTEN_AND_READ, SECOND_READ];

/// Two entries are written and read.
const TWO_ENTRIES: Scene = &[TWO_NUMBERS, WRITTEN_AND_READ, SECOND_READ, SECOND_WRITTEN];

impl Whole<'_> {
    // Adds a line, or goes on with the last one where it is empty. It gives this line, if any, and that is told then.
    fn push_driven(&mut self, line: &str, given: &str, told: &str) -> Result<(), AllocError> {
        if line.is_empty() {
            self.answered.pop();
        } else {
            push_line(line, &mut self.input)?;
        }
        if !given.is_empty() {
            self.output.extend_from_slice(b"> ")?;
            push_line(given, &mut self.output)?;
        }
        push_line(told, &mut self.output)?;
        self.push_ends()
    }

    // Adds lines.
    fn push_lines(&mut self, lines: Lines) -> Result<(), AllocError> {
        for row in lines.lines() {
            if row.trim().is_empty() {
                continue;
            }
            let (line, rest) = row.split_once('|').unwrap_or((row, ""));
            let (given, told) = rest.split_once('|').unwrap_or((line, rest));
            self.push_driven(line.trim(), given.trim(), told.trim())?;
        }
        Ok(())
    }

    fn push_scene(&mut self, scene: Scene) -> Result<(), AllocError> {
        for lines in scene {
            self.push_lines(lines)?;
        }
        Ok(())
    }
}

// The scenes as one script.
fn script_of(
    alloc: Global,
    program: Program,
    name: &'static str,
    scenes: &[Scene],
) -> Result<Whole<'static>, AllocError> {
    let mut whole = Whole::new(alloc, program, name);
    for scene in scenes {
        whole.push_scene(scene)?;
    }
    Ok(whole)
}

// The scenes, in one piece and byte by byte.
fn tells(
    rt: &impl Abort,
    alloc: Global,
    program: Program,
    name: &'static str,
    scenes: &[Scene],
) -> Result<(), Fail> {
    let whole = script_of(alloc, program, name, scenes)?;
    whole.runs_in_both_ways(rt, alloc)
}
