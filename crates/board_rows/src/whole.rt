//! A script in bytes with all that a program tells of it, and the ways in which it is run.
use crate::programs::{Ended, Program};
use crate::row::{push_line, push_told};
use crate::same::same;
use board_script::{MemorySink, MemorySource};
use std::alloc::{AllocError, Global};
use std::process::Abort;
use std::test::Fail;

/// A script, and how a program's run of it ends where no call fails.
#[derive(Drop)]
pub(crate) struct Whole<'a> {
    pub(crate) program: Program,
    pub(crate) name: &'a str,
    pub(crate) input: Vec<u8>,
    pub(crate) output: Vec<u8>,
    /// Of each line that is answered: the number of bytes up to its end, and of those written up to the end of what is told of it.
    pub(crate) answered: Vec<(usize, usize)>,
    /// The number of bytes up to the end of the first line outside the grammar, behind which nothing is read.
    pub(crate) stopped: Option<usize>,
    pub(crate) status: u8,
    pub(crate) note: Vec<u8>,
}

impl<'a> Whole<'a> {
    pub(crate) fn new(alloc: Global, program: Program, name: &'a str) -> Whole<'a> {
        Whole {
            program,
            name,
            input: Vec::new(alloc),
            output: Vec::new(alloc),
            answered: Vec::new(alloc),
            stopped: None,
            status: 0,
            note: Vec::new(alloc),
        }
    }

    /// Adds a line with its answer, which is empty where there is none.
    pub(crate) fn push(&mut self, line: &str, answer: &str) -> Result<(), AllocError> {
        if answer.is_empty() {
            return self.push_outside(line);
        }
        push_line(line, &mut self.input)?;
        push_line(answer, &mut self.output)?;
        self.push_ends()
    }

    /// Adds a line outside the grammar, or one behind it.
    pub(crate) fn push_outside(&mut self, line: &str) -> Result<(), AllocError> {
        push_line(line, &mut self.input)?;
        let end = self.input.len();
        self.stopped = self.stopped.or(Some(end));
        Ok(())
    }

    /// Notes where the last line and what is told of it end.
    pub(crate) fn push_ends(&mut self) -> Result<(), AllocError> {
        let ends = (self.input.len(), self.output.len());
        self.answered.push(ends)?;
        Ok(())
    }

    /// Its run ends with this status, and with this note.
    pub(crate) fn ends_with(&mut self, status: u8, note: &str) -> Result<(), AllocError> {
        self.status = status;
        push_told(note, &mut self.note)
    }

    /// How many calls the source gets: one for each byte, and one more that tells the end, if that is asked for.
    fn reads(&self) -> usize {
        match self.stopped {
            Some(end) => end,
            None => self.input.len().saturating_add(1),
        }
    }

    /// What is told of the lines that are whole after so many bytes.
    fn answers_after(&self, read: usize) -> Option<&[u8]> {
        let mut written = 0;
        for (line_end, answer_end) in &self.answered {
            if *line_end <= read {
                written = *answer_end;
            }
        }
        self.output.get(..written)
    }

    /// Runs the script with a call of the source and one of the sink that fail, if they come to it.
    fn run(&self, alloc: Global, failed_read: usize, failed_write: usize) -> Result<Ended, Fail> {
        let reads = Vec::from_slice(alloc, &[failed_read as u64])?;
        let writes = Vec::from_slice(alloc, &[failed_write as u64])?;
        let source = MemorySource::new(self.input.to_vec(alloc)?, 1, reads);
        let sink = MemorySink::new(alloc, self.output.len(), 1, writes)?;
        Ended::of(alloc, self.program, source, sink)
    }

    /// After a read fault the lines stand answered that were whole before it.
    pub(crate) fn ends_at_each_read(&self, rt: &impl Abort, alloc: Global) -> Result<(), Fail> {
        for call in 0..self.reads() {
            let ended = self.run(alloc, call, self.output.len())?;
            let wanted = (3, self.answers_after(call), b"read fault\n".as_slice());
            same(rt, &(call, ended.told()), &(call, wanted), self.name);
        }
        Ok(())
    }

    /// After a write fault the bytes stand that were written before it.
    pub(crate) fn ends_at_each_write(&self, rt: &impl Abort, alloc: Global) -> Result<(), Fail> {
        for call in 0..self.output.len() {
            let ended = self.run(alloc, self.reads(), call)?;
            let wanted = (4, self.output.get(..call), b"write fault\n".as_slice());
            same(rt, &(call, ended.told()), &(call, wanted), self.name);
        }
        Ok(())
    }

    // How a run is to end.
    fn has_ended(&self, rt: &impl Abort, ended: &Ended) {
        let output = Some(self.output.as_slice());
        let wanted = (self.status, output, self.note.as_slice());
        same(rt, &ended.told(), &wanted, self.name);
    }

    /// A call that isn't made can't fail.
    pub(crate) fn ends_as_it_is(&self, rt: &impl Abort, alloc: Global) -> Result<(), Fail> {
        let ended = self.run(alloc, self.reads(), self.output.len())?;
        self.has_ended(rt, &ended);
        Ok(())
    }

    /// Source and sink give and take so many bytes a call, or any number where that is 0.
    pub(crate) fn runs_in_pieces(
        &self,
        rt: &impl Abort,
        alloc: Global,
        piece: usize,
    ) -> Result<(), Fail> {
        let source = MemorySource::new(self.input.to_vec(alloc)?, piece, Vec::new(alloc));
        let sink = MemorySink::new(alloc, self.output.len(), piece, Vec::new(alloc))?;
        let ended = Ended::of(alloc, self.program, source, sink)?;
        self.has_ended(rt, &ended);
        Ok(())
    }

    /// Runs it in one piece, and byte by byte.
    pub(crate) fn runs_in_both_ways(&self, rt: &impl Abort, alloc: Global) -> Result<(), Fail> {
        self.runs_in_pieces(rt, alloc, 0)?;
        self.runs_in_pieces(rt, alloc, 1)
    }

    /// Runs it with each call failing in turn, and with none.
    pub(crate) fn fails_in_turn(&self, rt: &impl Abort, alloc: Global) -> Result<(), Fail> {
        self.ends_as_it_is(rt, alloc)?;
        self.ends_at_each_read(rt, alloc)?;
        self.ends_at_each_write(rt, alloc)
    }
}
