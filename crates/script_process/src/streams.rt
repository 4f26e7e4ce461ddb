//! Standard input, output and error as a source and sinks.
//!
//! No contract knows what bytes these have. That an adapter passes on all that its reader gives and all that its writer
//! takes is proved of any reader and any writer.
ghost use Rattle.std.specs.Prelude.{◌≡◌, None, OnErr, OnOk};
ghost use Rattle.std.specs.Io.KnownBytes.{WriteAppends};
ghost use Rattle.board_model.specs.Lines.{HasCause};
ghost use Rattle.script_loop.specs.Streams.{Writes, one_fault_more};

use script_loop::{Failed, Sink, Source};
use std::io::{Read, Stderr, Stdin, Stdout, Write};

/// A reader as a source. Each of its errors is a fault.
#[derive(Drop)]
pub struct InSource<R> {
    input: R,
    faults: u64,
}

/// Standard input.
pub type StdinSource = InSource<Stdin>;

impl<R: Read + Drop> InSource<R> {
    /// The source that reads it.
    pub fn new(input: R) -> InSource<R>
        ensures input { result.input ≡ input }
        ensures faults { result.faults ≡ 0 }
    {
        InSource { input, faults: 0 }
    }
}

impl<R: Read + Drop> Source for InSource<R> {
    ghost left = { λ s. R.remaining s.input };

    ghost faults = { λ s. s.faults };

    ghost never_fails = { λ s. ⊥ };

    ghost never_fails_before_end = { λ s. ⊥ };

    fn read(&mut self, buf: &mut [u8]) -> Result<usize, Failed> {
        match self.input.read(buf) {
            Ok(count) => Ok(count),
            Err(_) => {
                self.faults = self.faults.saturating_add(1);
                Err(Failed)
            }
        }
    }
}

/// A writer as a sink. Each of its errors is a fault, and so is a write that takes nothing of some bytes.
#[derive(Drop)]
pub struct OutSink<W> {
    out: W,
    faults: u64,
}

/// Standard output.
pub type StdoutSink = OutSink<Stdout>;

/// Standard error.
pub type StderrSink = OutSink<Stderr>;

impl<W: Write + Drop> OutSink<W> {
    /// The sink that writes to it.
    pub fn new(out: W) -> OutSink<W>
        ensures out { result.out ≡ out }
        ensures faults { result.faults ≡ 0 }
    {
        OutSink { out, faults: 0 }
    }
}

// Writes a front of the bytes.
fn write_front<W: Write>(out: &mut W, faults: &mut u64, bytes: &[u8]) -> Result<usize, Failed>
    ensures bound { Writes result bytes.now }
    ensures bytes { WriteAppends (W.contents out.old) (W.contents out.new) result bytes.now }
    ensures cause { HasCause faults.old faults.new result }
    ensures once { OnErr result (faults.new ≡ one_fault_more faults.old) }
    ensures told { OnOk result (faults.new ≡ faults.old) }
{
    match out.write(bytes) {
        Ok(count) => {
            if count > 0 || bytes.is_empty() {
                return Ok(count);
            }
        }
        Err(_) => {}
    }
    *faults = faults.saturating_add(1);
    Err(Failed)
}

impl<W: Write + Drop> Sink for OutSink<W> {
    ghost held = { λ s. W.contents s.out };

    ghost most = { λ s. None };

    ghost faults = { λ s. s.faults };

    ghost never_fails_within = { λ s n. ⊥ };

    fn write(&mut self, bytes: &[u8]) -> Result<usize, Failed> {
        write_front(&mut self.out, &mut self.faults, bytes)
    }
}
