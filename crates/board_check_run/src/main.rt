//! Checks a session: a script and its output in turn from standard input, the verdict to standard output, notes on standard error.
#![tactic(auto)]

use board_check::run_program;
use script_endings::end_without_words;
use script_process::{StderrSink, StdinSource, StdoutSink, words};
use std::process::ExitCode;

fn main(rt: HostRuntime) -> ExitCode {
    let mut notes = StderrSink::new(rt.stderr());
    let Ok(words) = words(&rt) else {
        return end_without_words(&mut notes);
    };
    let mut source = StdinSource::new(rt.stdin());
    let mut sink = StdoutSink::new(rt.stdout());
    run_program(rt.alloc(), &words, &mut source, &mut sink, &mut notes)
}
