//! Runs of the script that is made from a number.
ghost use Rattle.std.specs.Prelude.{◌≡◌, ◌+◌, ◌∷◌, ◌++◌, [], ◌≤◌, ◌<◌, List, codes, decimal, true, IfOk, IsErrOf, OnOk};
ghost use Rattle.board_model.specs.declared.line.Call.{Call};
ghost use Rattle.board_model.specs.declared.line.Line.{Line};
ghost use Rattle.board_model.specs.LineGrammar.{is_name, spell};
ghost use Rattle.script_generator.specs.Counting.{HasCounted, SpellsCall, IsRunning, IsSummaryOf, RanMore, SpellsPlain};
ghost use Rattle.script_generator.specs.Generator as generator;
ghost use Rattle.script_generator.specs.Generator.{asked_by, asked_once, four_times, generated, line_for, opening, reader_calls, writer_calls};
ghost use Rattle.script_generator.specs.Summary.{IsGenerated};
ghost use Rattle.script_loop.specs.Runs.{stream_of};
ghost use Rattle.script_machine.specs.Counters.{EntryStands};

use crate::summary::{Counts, summary_text};
use board_cell::SeatWords;
use board_layout::Text;
use itoa::Buffer;
use script_loop::{LineError, ScriptError, Sink, write_whole};
use script_machine::Machine;
use std::alloc::{AllocError, Global};

/// A machine, the answer to the last line that it ran, and what is counted over all of them.
#[derive(Drop)]
pub(crate) struct Generator {
    pub(crate) machine: Machine<SeatWords>,
    pub(crate) answer: Vec<u8>,
    pub(crate) counts: Counts,
}

// The number after `x`.
fn number_after(x: u64) -> u64
    ensures { result ≡ generator.number_after x }
{
    x.wrapping_mul(6364136223846793005)
        .wrapping_add(1442695040888963407)
}

// Writes the line by which the party begins the call of these bytes.
fn write_begin(party: &[u8], call: &[u8], line: &mut Vec<u8>) -> Result<(), AllocError>
    ensures { OnOk result (line.new.items ≡ codes "begin " ++ (party.now ++ (codes " " ++ call.now))) }
{
    line.clear();
    line.extend_from_slice(b"begin ")?;
    line.extend_from_slice(party)?;
    line.extend_from_slice(b" ")?;
    line.extend_from_slice(call)
}

// Writes the line by which the party takes a step.
fn write_step(party: &[u8], line: &mut Vec<u8>) -> Result<(), AllocError>
    ensures { OnOk result (line.new.items ≡ codes "step " ++ party.now) }
{
    line.clear();
    line.extend_from_slice(b"step ")?;
    line.extend_from_slice(party)
}

// Writes the line by which the entry of one word is updated.
fn write_update_of_one(k: u64, line: &mut Vec<u8>) -> Result<(), AllocError>
    ensures { OnOk result (line.new.items ≡ codes "begin w update m0 u64:" ++ decimal k) }
{
    let mut buffer = Buffer::new();
    line.clear();
    line.extend_from_slice(b"begin w update m0 u64:")?;
    line.extend_from_slice(buffer.format(k).as_bytes())
}

// Writes the line by which the entry of four words is updated, each of them with this number.
fn write_update_of_four(k: u64, line: &mut Vec<u8>) -> Result<(), AllocError>
    ensures { OnOk result (line.new.items ≡ codes "begin w update m1 q4:" ++ four_times k) }
{
    let mut buffer = Buffer::new();
    let digits = buffer.format(k).as_bytes();
    line.clear();
    line.extend_from_slice(b"begin w update m1 q4:")?;
    line.extend_from_slice(digits)?;
    line.push(b',')?;
    line.extend_from_slice(digits)?;
    line.push(b',')?;
    line.extend_from_slice(digits)?;
    line.push(b',')?;
    line.extend_from_slice(digits)
}

// Line `k` of those that are drawn, for the number drawn. That of an update is written into the buffer.
fn drawn_line<'a>(number: u64, k: u64, buffer: &'a mut Vec<u8>) -> Result<&'a [u8], AllocError>
    ensures { IfOk result (λ line. line.now ≡ spell (line_for (generator.choice number) k)) }
{
    match (number >> 32) % 16 {
        0 => {
            write_update_of_one(k, buffer)?;
            Ok(buffer)
        }
        1 => {
            write_update_of_four(k, buffer)?;
            Ok(buffer)
        }
        2 => Ok(b"begin a get h0"),
        3 => Ok(b"begin a get h1"),
        4 => Ok(b"begin b get h0"),
        5 => Ok(b"begin b get h1"),
        6..=9 => Ok(b"step w"),
        10..=12 => Ok(b"step a"),
        _ => Ok(b"step b"),
    }
}

impl Generator {
    // Nothing was run.
    fn new(alloc: Global) -> Generator
        ensures { HasCounted result [] }
    {
        Generator {
            machine: Machine::new(alloc),
            answer: Vec::new(alloc),
            counts: Counts {
                lines: 0,
                refused: 0,
                steps: 0,
                updates: 0,
                gets: 0,
            },
        }
    }

    // Runs a line, and counts it.
    fn run(&mut self, line: &[u8]) -> Result<(), AllocError>
        requires room { IsRunning self.old 1 }
        requires plain { (l : Line) × SpellsPlain line.now l }
        ensures { OnOk result ((l : Line) → SpellsPlain line.now l → RanMore self.old self.new (l ∷ [])) }
    {
        match self.machine.line(line, &mut self.answer) {
            Ok(()) => {
                self.counts.count(&self.answer);
                Ok(())
            }
            Err(LineError::OutOfMemory) => Err(AllocError),
            // The line is in the grammar, and clause `bad` of `Machine::line` refuses no such line.
            Err(LineError::Bad) => unreachable!(),
        }
    }

    // Begins a call on the tables, and takes its step. The lines are written into the buffer.
    fn ask(&mut self, party: &[u8], call: &[u8], line: &mut Vec<u8>) -> Result<(), AllocError>
        requires room { IsRunning self.old 2 }
        requires asked { (c : Call) × SpellsCall party.now call.now c }
        ensures { OnOk result ((c : Call) → SpellsCall party.now call.now c
            → RanMore self.old self.new (asked_once party.now c)) }
    {
        write_begin(party, call, line)?;
        self.run(line)?;
        write_step(party, line)?;
        self.run(line)
    }

    // Makes the board, and takes a write handle of each entry.
    fn open_writer(&mut self, line: &mut Vec<u8>) -> Result<(), AllocError>
        requires { IsRunning self.old 8 }
        ensures { OnOk result (RanMore self.old self.new (asked_by (codes "w") writer_calls)) }
    {
        self.ask(
            b"w",
            b"create f gen u64 add u64:0 u64:0 add u64:1 q4:0,0,0,0",
            line,
        )?;
        self.ask(b"w", b"writer p f", line)?;
        self.ask(b"w", b"entrymut m0 p u64:0 u64", line)?;
        self.ask(b"w", b"entrymut m1 p u64:1 q4", line)
    }

    // Opens the board, and takes a read handle of each entry.
    fn open_reader(&mut self, party: &[u8], line: &mut Vec<u8>) -> Result<(), AllocError>
        requires room { IsRunning self.old 8 }
        requires name { is_name party.now ≡ true }
        ensures { OnOk result (RanMore self.old self.new (asked_by party.now reader_calls)) }
    {
        self.ask(party, b"open f gen u64", line)?;
        self.ask(party, b"reader r f", line)?;
        self.ask(party, b"entry h0 r u64:0 u64", line)?;
        self.ask(party, b"entry h1 r u64:1 q4", line)
    }

    // Runs the opening.
    fn open(&mut self, line: &mut Vec<u8>) -> Result<(), AllocError>
        requires { HasCounted self.old [] }
        ensures run { OnOk result (HasCounted self.new opening) }

        // Both entries stand.
        ensures first { OnOk result (EntryStands self.new.machine 1 0) }
        ensures second { OnOk result (EntryStands self.new.machine 1 1) }
    {
        self.open_writer(line)?;
        self.open_reader(b"a", line)?;
        self.open_reader(b"b", line)
    }

    // The six lines of what was run.
    fn summary(&mut self) -> Text<256>
        requires running { IsRunning self.old 0 }
        requires first { EntryStands self.old.machine 1 0 }
        requires second { EntryStands self.old.machine 1 1 }
        ensures { (lines : List Line) → HasCounted self.old lines → IsSummaryOf lines result }
    {
        let first = self.machine.counter(1, 0);
        let second = self.machine.counter(1, 1);
        summary_text(&self.counts, first, second)
    }
}

// Runs the script of `n`, and gives its six lines.
fn summary_of(alloc: Global, n: u64) -> Result<Text<256>, AllocError>
    requires { n ≤ 1000000 }
    ensures { IfOk result (IsSummaryOf (generated n)) }
{
    let mut generator = Generator::new(alloc);
    let mut buffer = Vec::new(alloc);
    generator.open(&mut buffer)?;
    let mut number = n;
    for k in 0..n {
        number = number_after(number);
        let line = drawn_line(number, k + 1, &mut buffer)?;
        generator.run(line)?;
    }
    Ok(generator.summary())
}

/// Runs the machine on the script that is made from `n`, and writes the six lines of its summary.
///
/// # Errors
/// `WriteFault` where the sink failed: a front of the lines is written. `OutOfMemory` before anything is.
pub fn run_generated<K: Sink>(alloc: Global, n: u64, sink: &mut K) -> Result<(), ScriptError>
    requires { n ≤ 1000000 }

    // The sink gained the summary of the lawful session of the generated lines, or the error says what stands.
    ensures run { IsGenerated n (K.never_fails_within sink.old)
        (stream_of K.held K.faults sink.old sink.new) result }

    // The sink is untouched where memory was refused.
    ensures untouched { IsErrOf result ScriptError.OutOfMemory → sink.new ≡ sink.old }
{
    let Ok(summary) = summary_of(alloc, n) else {
        return Err(ScriptError::OutOfMemory);
    };
    match write_whole(sink, summary.as_bytes()) {
        Ok(()) => Ok(()),
        Err(_) => Err(ScriptError::WriteFault),
    }
}
