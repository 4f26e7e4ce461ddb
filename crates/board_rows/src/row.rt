//! A worked script, and the ways in which it is run.
ghost use Rattle.script_model.specs.ScriptSession.{start};

use crate::programs::Program;
use crate::same::same;
use crate::whole::Whole;
use board_cell::{PlainWords, SeatWords};
use board_check::{Verdict, check};
use board_script::{LineError, Machine, MemorySink, MemorySource, RunsLines, run_script_on};
use board_service::BoardWords;
use std::alloc::{AllocError, Global};
use std::process::Abort;
use std::test::Fail;

/// Lines, each with its answer behind a bar. There is none at a line outside the grammar and at those behind it. No line has a bar, and blanks beside a line and an answer are no part of them.
///
/// It is one text, since the prover takes that as one value, and each pair of a list of pairs anew in each function that names it.
pub(crate) type Part = &'static str;

/// A worked script, with the status and the note that a run of it ends with.
#[derive(Clone, Copy)]
pub(crate) struct Row {
    pub(crate) name: &'static str,
    /// The lines with which other rows begin too.
    pub(crate) opening: &'static [Part],
    pub(crate) lines: Part,
    pub(crate) status: u8,
    pub(crate) note: &'static str,
}

/// What a row leaves out.
pub(crate) const PLAIN: Row = Row {
    name: "",
    opening: &[],
    lines: "",
    status: 0,
    note: "",
};

/// Adds the lines of a part, each with its answer.
pub(crate) fn push_part(
    part: Part,
    lines: &mut Vec<(&'static str, &'static str)>,
) -> Result<(), AllocError> {
    for row in part.lines() {
        if row.trim().is_empty() {
            continue;
        }
        let (line, answer) = row.split_once('|').unwrap_or((row, ""));
        lines.push((line.trim(), answer.trim()))?;
    }
    Ok(())
}

/// The lines of the parts, one after another.
pub(crate) fn joined(
    alloc: Global,
    parts: &[Part],
) -> Result<Vec<(&'static str, &'static str)>, AllocError> {
    let mut lines = Vec::new(alloc);
    for part in parts {
        push_part(part, &mut lines)?;
    }
    Ok(lines)
}

impl Row {
    /// All its lines with their answers.
    pub(crate) fn all_lines(
        &self,
        alloc: Global,
    ) -> Result<Vec<(&'static str, &'static str)>, AllocError> {
        let mut lines = joined(alloc, self.opening)?;
        push_part(self.lines, &mut lines)?;
        Ok(lines)
    }

    /// Runs the row in each way.
    pub(crate) fn holds(&self, rt: &impl Abort, alloc: Global) -> Result<(), Fail> {
        let lines = self.all_lines(alloc)?;
        let script = Script {
            name: self.name,
            lines: &lines,
            status: self.status,
            note: self.note,
        };
        script.holds(rt, alloc)
    }
}

/// Runs each row in each way.
pub(crate) fn all_hold(rt: &impl Abort, alloc: Global, rows: &[Row]) -> Result<(), Fail> {
    for row in rows {
        row.holds(rt, alloc)?;
    }
    Ok(())
}

/// The same, of lines that are put together by code.
#[derive(Clone, Copy)]
pub(crate) struct Script<'a> {
    pub(crate) name: &'a str,
    pub(crate) lines: &'a [(&'a str, &'a str)],
    pub(crate) status: u8,
    pub(crate) note: &'a str,
}

impl Script<'_> {
    /// Runs it line by line, over plain words and over words that threads may share, and then as the program does, in one piece and byte by byte. What it answers is checked.
    pub(crate) fn holds(&self, rt: &impl Abort, alloc: Global) -> Result<(), Fail> {
        answers_each_line(rt, alloc, &mut Machine::<PlainWords>::new(alloc), self)?;
        self.is_answered_on_shared_words(rt, alloc)?;
        self.runs_on::<PlainWords>(rt, alloc)?;
        self.runs_on::<SeatWords>(rt, alloc)?;
        self.runs_as_a_program(rt, alloc)?;
        self.is_lawful(rt, alloc)
    }

    fn is_answered_on_shared_words(&self, rt: &impl Abort, alloc: Global) -> Result<(), Fail> {
        let mut machine = Machine::<SeatWords>::new(alloc);
        answers_each_line(rt, alloc, &mut machine, self)?;
        assert!(rt; !machine.is_spent(), "memory of {}", self.name);
        Ok(())
    }

    // The lines that are answered, each with its answer behind it, are a lawful session.
    fn is_lawful(&self, rt: &impl Abort, alloc: Global) -> Result<(), Fail> {
        let mut session = Vec::new(alloc);
        let mut pairs = 0;
        for (n, (line, answer)) in self.lines.iter().enumerate() {
            if answer.is_empty() {
                break;
            }
            push_line(line, &mut session)?;
            push_line(answer, &mut session)?;
            pairs = n + 1;
        }
        let mut source = MemorySource::new(session, 0, Vec::new(alloc));
        let verdict = check(alloc, &mut source);
        let pairs = pairs as u64;
        same(rt, &verdict, &Ok(Verdict::Lawful { pairs }), self.name);
        Ok(())
    }

    // Runs it from a source to a sink, over words of one kind.
    fn runs_on<C: BoardWords + Drop>(&self, rt: &impl Abort, alloc: Global) -> Result<(), Fail> {
        let (script, output) = bytes_of(alloc, self.lines)?;
        let mut source = MemorySource::new(script, 0, Vec::new(alloc));
        let mut sink = MemorySink::new(alloc, output.len(), 0, Vec::new(alloc))?;
        let ran = run_script_on::<C, MemorySource, MemorySink>(
            alloc,
            4294967295,
            &mut source,
            &mut sink,
        );
        let told = match ran {
            Ok(_) => String::new(alloc),
            Err(error) => format!(in alloc; "{error}")?,
        };
        let found = (sink.held(), told.as_str());
        same(rt, &found, &(output.as_slice(), self.note), self.name);
        Ok(())
    }

    // Runs it as the program does, in one piece and byte by byte.
    fn runs_as_a_program(&self, rt: &impl Abort, alloc: Global) -> Result<(), Fail> {
        let mut whole = Whole::new(alloc, Program::Scripts, self.name);
        for (line, answer) in self.lines {
            whole.push(line, answer)?;
        }
        whole.ends_with(self.status, self.note)?;
        whole.runs_in_both_ways(rt, alloc)
    }
}

/// Adds a text with its newline.
pub(crate) fn push_line(text: &str, out: &mut Vec<u8>) -> Result<(), AllocError> {
    out.extend_from_slice(text.as_bytes())?;
    out.extend_from_slice(b"\n")
}

/// Adds what is told with its newline, or nothing where nothing is told.
pub(crate) fn push_told(text: &str, out: &mut Vec<u8>) -> Result<(), AllocError> {
    if text.is_empty() {
        return Ok(());
    }
    push_line(text, out)
}

/// The bytes of a script, and those of its output.
pub(crate) fn bytes_of(
    alloc: Global,
    lines: &[(&str, &str)],
) -> Result<(Vec<u8>, Vec<u8>), AllocError> {
    let mut script = Vec::new(alloc);
    let mut output = Vec::new(alloc);
    for (line, answer) in lines {
        push_line(line, &mut script)?;
        push_told(answer, &mut output)?;
    }
    Ok((script, output))
}

// Runs the lines one after another up to the first outside the grammar, and compares each answer.
fn answers_each_line<M: RunsLines>(
    rt: &impl Abort,
    alloc: Global,
    machine: &mut M,
    script: &Script,
) -> Result<(), Fail>
    requires { M.stands machine.old 0 start }
{
    let mut answer = Vec::new(alloc);
    for (n, (line, wanted)) in script.lines.iter().enumerate() {
        match machine.line(line.as_bytes(), &mut answer) {
            Ok(()) => {
                let told = String::from_utf8_lossy(alloc, &answer)?;
                assert_eq!(rt;
                    told.strip_suffix('\n'),
                    Some(*wanted),
                    "{}, line {}",
                    script.name,
                    n + 1
                );
            }
            Err(LineError::Bad) => {
                assert_eq!(rt; *wanted, "", "{}, line {}", script.name, n + 1);
                return Ok(());
            }
            Err(LineError::OutOfMemory) => return Err(AllocError)?,
        }
    }
    Ok(())
}
