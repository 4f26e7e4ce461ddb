//! How sources and sinks in memory are made.
ghost use Rattle.std.specs.Prelude.{◌≡◌, IfOk, Some, []};
ghost use Rattle.script_loop.specs.Memory.{fresh_calls, sink_calls, sink_holds, sink_most, sink_room, source_calls, source_left};

use super::{MemorySink, MemorySource};
use crate::error::SinkError;
use std::alloc::Global;

impl MemorySource {
    /// A source of these bytes.
    ///
    /// It gives at most `piece` bytes a call, and 0 is no bound. The calls whose numbers `fails` lists, counted from 0, fail.
    pub fn new(bytes: Vec<u8>, piece: usize, fails: Vec<u64>) -> MemorySource
        ensures left { source_left result ≡ Some bytes.items }
        ensures faults { result.faults ≡ 0 }
        ensures calls { source_calls result ≡ fresh_calls piece fails.items }
    {
        MemorySource {
            bytes,
            at: 0,
            piece,
            calls: 0,
            faults: 0,
            fails,
        }
    }
}

impl MemorySink {
    /// A sink with room for so many bytes, which it takes first.
    ///
    /// It takes at most `piece` bytes a call, and 0 is no bound. The calls whose numbers `fails` lists, counted from 0, fail.
    ///
    /// # Errors
    /// `OutOfMemory` where memory is refused.
    pub fn new(
        alloc: Global,
        room: usize,
        piece: usize,
        fails: Vec<u64>,
    ) -> Result<MemorySink, SinkError>
        ensures held { IfOk result (λ sink. sink_holds sink ≡ []) }
        ensures room { IfOk result (λ sink. sink_room sink ≡ room) }
        ensures most { IfOk result (λ sink. sink_most sink ≡ room) }
        ensures faults { IfOk result (λ sink. sink.faults ≡ 0) }
        ensures calls { IfOk result (λ sink. sink_calls sink ≡ fresh_calls piece fails.items) }
    {
        let bytes = vec![in alloc; 0; room]?;
        Ok(MemorySink {
            bytes,
            len: 0,
            piece,
            calls: 0,
            faults: 0,
            fails,
        })
    }

    /// The bytes that it took.
    pub fn held(&self) -> &[u8]
        ensures { result.now ≡ sink_holds self.now }
    {
        &self.bytes[..self.len]
    }
}
