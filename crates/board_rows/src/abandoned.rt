//! Parties that are abandoned in the middle of what they do.
mod boards;
mod cases;
mod events;
mod loans;

use crate::row::{Part, Script, joined};
use cases::{ON_BOARDS, ON_EVENTS, ON_FOUR_WORDS, ON_INFO, ON_ONE_NUMBER, ON_QUEUES, ON_SETS};
use std::alloc::Global;
use std::process::Abort;
use std::test::Fail;

/// A call whose party is abandoned: in a first run before the first step, in another after it, and so on.
#[derive(Clone, Copy)]
struct Abandoned {
    opening: &'static [Part],
    /// The line that begins the call, and its steps.
    call: Part,
    /// Its steps behind those, which other calls make too.
    steps: &'static [Part],
    /// What is done and answered then, after each of these lines, and what another party does. The last one stands for further lines too.
    after: &'static [&'static [Part]],
    other: &'static [&'static [Part]],
}

impl Abandoned {
    // Each run ends with the lines of another party.
    fn holds(&self, rt: &impl Abort, alloc: Global) -> Result<(), Fail> {
        let mut begun = joined(alloc, self.opening)?;
        let mut call = joined(alloc, &[self.call])?;
        call.extend_from_slice(&joined(alloc, self.steps)?)?;
        for (n, line) in call.iter().enumerate() {
            begun.push(*line)?;
            let mut lines = begun.to_vec(alloc)?;
            for parts in [self.after, self.other] {
                if let Some(then) = parts.get(n).or(parts.last()) {
                    lines.extend_from_slice(&joined(alloc, then)?)?;
                }
            }
            Script {
                name: line.0,
                lines: &lines,
                status: 0,
                note: "",
            }
            .holds(rt, alloc)?;
        }
        Ok(())
    }
}

fn all_hold(rt: &impl Abort, alloc: Global, cases: &[Abandoned]) -> Result<(), Fail> {
    for case in cases {
        case.holds(rt, alloc)?;
    }
    Ok(())
}

#[test]
fn each_call_that_makes_things_of_boards_is_abandoned_after_each_step(
    rt: HostRuntime,
) -> Result<(), Fail> {
    all_hold(&rt, rt.alloc(), &ON_BOARDS)
}

#[test]
fn each_call_that_asks_of_a_board_is_abandoned_after_each_step(
    rt: HostRuntime,
) -> Result<(), Fail> {
    all_hold(&rt, rt.alloc(), &ON_INFO)
}

#[test]
fn each_call_on_a_number_is_abandoned_after_each_step(rt: HostRuntime) -> Result<(), Fail> {
    all_hold(&rt, rt.alloc(), &ON_ONE_NUMBER)
}

#[test]
fn each_call_on_four_words_is_abandoned_after_each_step(rt: HostRuntime) -> Result<(), Fail> {
    all_hold(&rt, rt.alloc(), &ON_FOUR_WORDS)
}

#[test]
fn each_call_on_a_set_is_abandoned_after_each_step(rt: HostRuntime) -> Result<(), Fail> {
    all_hold(&rt, rt.alloc(), &ON_SETS)
}

#[test]
fn each_call_on_a_queue_is_abandoned_after_each_step(rt: HostRuntime) -> Result<(), Fail> {
    all_hold(&rt, rt.alloc(), &ON_QUEUES)
}

#[test]
fn each_call_that_makes_things_of_events_is_abandoned_after_each_step(
    rt: HostRuntime,
) -> Result<(), Fail> {
    all_hold(&rt, rt.alloc(), &ON_EVENTS)
}
