//! Measures the cell between threads, the typed handles of a board's entry, and typed events: `solo W CALL COUNT`,
//! `typed W CALL COUNT`, `event KIND COUNT` or `shared W R UPDATES`. It reads no clock.
#![tactic(auto)]

mod bench_error;
mod block;
mod done;
mod shared;
mod solo;
mod task;
mod top;
mod typed;
mod widths;

use script_process::words;
use std::process::ExitCode;
use top::run_program;

fn main(rt: HostRuntime) -> anyhow::Result<ExitCode> {
    let words = words(&rt)?;
    let (mut out, mut notes) = (rt.stdout(), rt.stderr());
    Ok(run_program(&rt, rt.alloc(), &words, &mut out, &mut notes)?.code)
}
