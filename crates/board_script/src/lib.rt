//! Scripts, run from their source to their sink, and the program's top call.
//!
//! This is the front that users call; the crates named `script_..` stand behind it, and it passes on what callers need.
//! A script in memory:
//!
//! ```text
//! let script = Vec::from_slice(alloc, b"begin a create f b u64 add u64:1 u64:5\nstep a\n")?;
//! let sink = run_in_memory(alloc, script, 4096)?;    // with room for an output of 4096 bytes
//! assert_eq!(sink.held(), b"ok\ntable = ok 1\n");
//! ```
#![tactic(auto)]

mod script;
mod top;

pub use board_model::worked_updates::{an_update_at_once_is_wrong, an_update_writes_a_word_a_step};
pub use script::{run_in_memory, run_script, run_script_on, run_script_within};
pub use script_endings::end_without_words;
pub use script_generator::{
    generated_scripts_are_scripts, run_generated, the_run_for_one_is_lawful,
};
pub use script_loop::{
    Failed, Fetched, LineError, LineReader, MemorySink, MemorySource, RunsLines, ScriptError, Sink,
    SinkError, Source,
};
pub use script_machine::Machine;
pub use top::{run_program, run_words};
