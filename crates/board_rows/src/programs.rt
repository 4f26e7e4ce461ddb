//! The programs over scripts, as their top calls.
use board_check::check_words;
use board_script::{MemorySink, MemorySource, run_words};
use board_snapshot::snapshot_words;
use board_watch::watch_words;
use std::alloc::{AllocError, Global};
use std::process::ExitCode;
use std::test::Fail;

/// A program.
#[derive(Clone, Copy)]
pub(crate) enum Program {
    /// `board_run`.
    Scripts,
    /// `board_snapshot_run`.
    Snapshots,
    /// `board_watch_run`.
    Watchers,
    /// `board_check_run`.
    Sessions,
}

impl Program {
    /// Runs it with these words on its command line, and gives its status.
    pub(crate) fn run(
        self,
        alloc: Global,
        words: &Vec<String>,
        source: &mut MemorySource,
        sink: &mut MemorySink,
        notes: &mut MemorySink,
    ) -> u8 {
        match self {
            Program::Scripts => run_words(alloc, words, source, sink, notes),
            Program::Snapshots => snapshot_words(alloc, words, source, sink, notes),
            Program::Watchers => watch_words(alloc, words, source, sink, notes),
            Program::Sessions => check_words(alloc, words, source, sink, notes),
        }
    }

    /// Runs it with these words on its command line, and gives the status of its process.
    pub(crate) fn exit_code(
        self,
        alloc: Global,
        words: &Vec<String>,
        source: &mut MemorySource,
        sink: &mut MemorySink,
        notes: &mut MemorySink,
    ) -> ExitCode {
        match self {
            Program::Scripts => board_script::run_program(alloc, words, source, sink, notes),
            Program::Snapshots => board_snapshot::run_program(alloc, words, source, sink, notes),
            Program::Watchers => board_watch::run_program(alloc, words, source, sink, notes),
            Program::Sessions => board_check::run_program(alloc, words, source, sink, notes),
        }
    }
}

/// How a run of a program ended.
#[derive(Drop)]
pub(crate) struct Ended {
    pub(crate) status: u8,
    pub(crate) output: Vec<u8>,
    pub(crate) note: Vec<u8>,
}

impl Ended {
    /// The program with these words, from this source to this sink.
    pub(crate) fn with_words(
        alloc: Global,
        program: Program,
        words: &Vec<String>,
        source: MemorySource,
        sink: MemorySink,
    ) -> Result<Ended, Fail> {
        let mut source = source;
        let mut sink = sink;
        let mut notes = MemorySink::new(alloc, 100, 0, Vec::new(alloc))?;
        let status = program.run(alloc, words, &mut source, &mut sink, &mut notes);
        Ok(Ended {
            status,
            output: sink.held().to_vec(alloc)?,
            note: notes.held().to_vec(alloc)?,
        })
    }

    /// Its status, its output and its note.
    pub(crate) fn told(&self) -> (u8, Option<&[u8]>, &[u8]) {
        (
            self.status,
            Some(self.output.as_slice()),
            self.note.as_slice(),
        )
    }

    /// The program without words.
    pub(crate) fn of(
        alloc: Global,
        program: Program,
        source: MemorySource,
        sink: MemorySink,
    ) -> Result<Ended, Fail> {
        Ended::with_words(alloc, program, &Vec::new(alloc), source, sink)
    }
}

/// The words of a command line.
pub(crate) fn words_of(alloc: Global, words: &[&str]) -> Result<Vec<String>, AllocError> {
    let mut all = Vec::new(alloc);
    for word in words {
        all.push(String::from_str(alloc, word)?)?;
    }
    Ok(all)
}
