//! What sources and sinks in memory give and take, and which of their calls fail.
ghost use Rattle.std.specs.Prelude.{◌≡◌, ◌≤◌, ◌<◌, ◌+◌, ◌-◌, ◌↔◌, ℕ, IfOk, IsErr, IsOk, IsOkAnd, IsTrue, OnErr, OnOk, Some, length};
ghost use Rattle.std.specs.Io.{ReadsAtMost};
ghost use Rattle.std.specs.Io.KnownBytes.{ReadConsumes, WriteAppends};
ghost use Rattle.board_model.specs.Lines.{HasCause};
ghost use Rattle.script_loop.specs.Memory as memory;
ghost use Rattle.script_loop.specs.Memory.{CannotTake, FailsBehindEnd, FindsNoRoom, IsListed, NoneIsListed, SinkNeverFails, one_more, sink_calls, sink_held, sink_most, sink_room, source_calls, source_left, piece_given, piece_taken};
ghost use Rattle.script_loop.specs.Streams.{Writes, one_fault_more};

use super::{MemorySink, MemorySource};
use crate::stream::{Failed, Sink, Source};

// As much of what is wanted as there is, and as a piece holds.
fn piece_of(wanted: usize, there: usize, piece: usize) -> usize
    ensures is { result ≡ memory.piece_of wanted there piece }
    ensures wanted { result ≤ wanted }
    ensures there { result ≤ there }
    ensures some { 0 < wanted → 0 < there → 0 < result }
{
    let most = wanted.min(there);
    if piece == 0 { most } else { piece.min(most) }
}

impl Source for MemorySource {
    ghost left = { source_left };

    ghost faults = { λ s. s.faults };

    ghost never_fails = { λ s. NoneIsListed (source_calls s) };

    ghost never_fails_before_end = { FailsBehindEnd };

    /// As any source. It fails exactly where the call's number is listed.
    fn read(&mut self, buf: &mut [u8]) -> Result<usize, Failed>
        ensures bound { ReadsAtMost result buf.new }
        ensures bytes { ReadConsumes (source_left self.old) (source_left self.new) result buf.new }
        ensures cause { HasCause self.old.faults self.new.faults result }
        ensures once { OnErr result (self.new.faults ≡ one_fault_more self.old.faults) }
        ensures told { OnOk result (self.new.faults ≡ self.old.faults) }
        ensures unfailing { NoneIsListed (source_calls self.old) → IsOk result }
        ensures never_later { NoneIsListed (source_calls self.old)
            → NoneIsListed (source_calls self.new) }
        ensures before_end { FailsBehindEnd self.old → IsOkAnd result (λ count. 0 < count → FailsBehindEnd self.new) }

        // Which call fails, how many bytes one gives, and how many were made.
        ensures fails { IsErr result ↔ IsListed (source_calls self.old) }
        ensures count { IfOk result (λ n. n ≡ piece_given self.old (length buf.old)) }
        ensures calls { source_calls self.new ≡ one_more (source_calls self.old) }
    {
        let call = self.calls;
        self.calls = self.calls.saturating_add(1);
        if self.fails.contains(&call) {
            self.faults = self.faults.saturating_add(1);
            return Err(Failed);
        }
        let count = piece_of(buf.len(), self.bytes.len() - self.at, self.piece);
        buf[..count].copy_from_slice(&self.bytes[self.at..self.at + count]);
        self.at += count;
        Ok(count)
    }
}

impl MemorySink {
    // Whether there are bytes, and no room for one.
    fn finds_no_room(&self, bytes: &[u8]) -> bool
        ensures { IsTrue result ↔ FindsNoRoom self.now bytes.now }
    {
        self.len == self.bytes.len() && !bytes.is_empty()
    }
}

impl Sink for MemorySink {
    ghost held = { sink_held };

    ghost most = { λ k. Some (sink_most k) };

    ghost faults = { λ k. k.faults };

    ghost never_fails_within = { SinkNeverFails };

    /// As any sink. It fails exactly where the call's number is listed or no room is left for a byte.
    fn write(&mut self, bytes: &[u8]) -> Result<usize, Failed>
        ensures bound { Writes result bytes.now }
        ensures bytes { WriteAppends (sink_held self.old) (sink_held self.new) result bytes.now }
        ensures most { Some (sink_most self.new) ≡ Some (sink_most self.old) }
        ensures cause { HasCause self.old.faults self.new.faults result }
        ensures once { OnErr result (self.new.faults ≡ one_fault_more self.old.faults) }
        ensures told { OnOk result (self.new.faults ≡ self.old.faults) }
        ensures unfailing { (n : ℕ) → SinkNeverFails self.old n → length bytes.now ≤ n
            → IsOkAnd result (λ count. SinkNeverFails self.new (n - count)) }

        // Which call fails, how many bytes one takes, and how many were made. The room loses what was taken.
        ensures fails { IsErr result ↔ CannotTake self.old bytes.now }
        ensures count { IfOk result (λ n. n ≡ piece_taken self.old (length bytes.now)) }
        ensures room { IfOk result (λ n. sink_room self.old ≡ sink_room self.new + n) }
        ensures kept { OnErr result (sink_room self.new ≡ sink_room self.old) }
        ensures calls { sink_calls self.new ≡ one_more (sink_calls self.old) }
    {
        let is_full = self.finds_no_room(bytes);
        let call = self.calls;
        self.calls = self.calls.saturating_add(1);
        if self.fails.contains(&call) || is_full {
            self.faults = self.faults.saturating_add(1);
            return Err(Failed);
        }
        let count = piece_of(bytes.len(), self.bytes.len() - self.len, self.piece);
        self.bytes[self.len..self.len + count].copy_from_slice(&bytes[..count]);
        self.len += count;
        Ok(count)
    }
}
