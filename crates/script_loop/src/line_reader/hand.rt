//! The bytes that are in hand between two lines.
ghost use Rattle.std.specs.Prelude.{◌≡◌, ◌<◌, ◌≤◌, ◌+◌, [], IfErr, IfNone, IfOk, IfSome, IsOk, IsOkAnd, IsTrue, OnErr, OnOk, drop, false, length, slice_index, take};
ghost use Rattle.std.specs.Io.KnownBytes.{Consumes, Keeps, IsAtEnd};
ghost use Rattle.board_model.specs.Lines.{HasCause, IsOneLine};
ghost use Rattle.script_loop.specs.Streams.{one_fault_more};
ghost use Rattle.script_loop.specs.Reader.{NeedsBytes, TillEnd, source_ended, hand_length, in_hand, line_given, to_come};

use super::LineReader;
use crate::error::LineError;
use crate::stream::{Failed, Source};
use memchr::memchr;
use std::alloc::Global;

// Reads into the bytes from a place on, and gives how many came.
fn read_behind<S: Source>(bytes: &mut [u8], from: usize, source: &mut S) -> Result<usize, Failed>
    requires { from < length bytes.old }
    ensures bound { IfOk result (λ count. from + count ≤ length bytes.old) }
    ensures front { take from bytes.new ≡ take from bytes.old }
    ensures ok { IfOk result (λ count. Consumes (S.left source.old) (S.left source.new)
        (take count (drop from bytes.new))) }
    ensures end { IfOk result (λ count. count ≡ 0 → IsAtEnd (S.left source.new)) }
    ensures err { OnErr result (Keeps (S.left source.old) (S.left source.new)) }
    ensures cause { HasCause (S.faults source.old) (S.faults source.new) result }
    ensures once { OnErr result (S.faults source.new ≡ one_fault_more (S.faults source.old)) }
    ensures told { OnOk result (S.faults source.new ≡ S.faults source.old) }
    ensures unfailing { S.never_fails source.old → IsOk result }
    ensures never_later { S.never_fails source.old → S.never_fails source.new }
    ensures before_end { S.never_fails_before_end source.old
        → IsOkAnd result (λ count. 0 < count → S.never_fails_before_end source.new) }
{
    source.read(&mut bytes[from..])
}

/// Where the first newline stands.
#[inline(always)]
pub fn newline_in(bytes: &[u8]) -> Option<usize>
    ensures none { IfNone result (IsOneLine bytes.now) }
    ensures inside { IfSome result (λ at. at < length bytes.now) }
    ensures found { IfSome result (λ at. slice_index bytes.now at ≡ 10) }
    ensures first { IfSome result (λ at. IsOneLine (take at bytes.now)) }
{
    memchr(b'\n', bytes)
}

impl LineReader {
    /// A reader with nothing in hand. It takes its whole buffer, and no memory after that.
    ///
    /// # Errors
    /// `OutOfMemory` where memory is refused.
    pub fn new(alloc: Global) -> Result<LineReader, LineError>
        ensures hand { IfOk result (λ reader. in_hand reader ≡ []) }
        ensures ended { IfOk result (λ reader. source_ended reader ≡ false) }
        ensures err { IfErr result (λ e. e ≡ LineError.OutOfMemory) }
    {
        let bytes = vec![in alloc; 0; 4097]?;
        Ok(LineReader {
            bytes,
            start: 0,
            end: 0,
            line_start: 0,
            line_end: 0,
            ended: false,
        })
    }

    /// The line that the last `next` found, without its newline. Nothing is said of these bytes where it found none.
    pub fn line(&self) -> &[u8]
        ensures { result.now ≡ line_given self.now }
    {
        &self.bytes[self.line_start..self.line_end]
    }

    // How many bytes are in hand.
    pub(super) fn hand_len(&self) -> usize
        ensures len { result ≡ hand_length self.now }
        ensures most { result ≤ 4097 }
    {
        self.end - self.start
    }

    // Where the first newline in hand stands; it is looked for behind the first bytes, so many of them.
    pub(super) fn newline_from(&self, searched: usize) -> Option<usize>
        requires inside { searched ≤ hand_length self.now }
        requires none_before { IsOneLine (take searched (in_hand self.now)) }
        ensures none { IfNone result (IsOneLine (in_hand self.now)) }
        ensures inside { IfSome result (λ at. at < hand_length self.now) }
        ensures found { IfSome result (λ at. slice_index (in_hand self.now) at ≡ 10) }
        ensures first { IfSome result (λ at. IsOneLine (take at (in_hand self.now))) }
    {
        let at = newline_in(&self.bytes[self.start + searched..self.end])?;
        Some(searched + at)
    }

    // Gives out the first `len` bytes in hand as the line, and skips `dropped` more.
    pub(super) fn give(&mut self, len: usize, dropped: usize)
        requires { len + dropped ≤ hand_length self.old }
        ensures line { line_given self.new ≡ take len (in_hand self.old) }
        ensures hand { in_hand self.new ≡ drop (len + dropped) (in_hand self.old) }
        ensures ended { source_ended self.new ≡ source_ended self.old }
    {
        self.line_start = self.start;
        self.line_end = self.start + len;
        self.start = self.line_end + dropped;
    }

    // Moves the bytes in hand to the front of the buffer.
    fn to_front(&mut self)
        ensures front { self.new.start ≡ 0 }
        ensures hand { in_hand self.new ≡ in_hand self.old }
        ensures ended { source_ended self.new ≡ source_ended self.old }
    {
        if self.start > 0 {
            self.bytes.copy_within(self.start..self.end, 0);
            self.end -= self.start;
            self.start = 0;
            self.line_start = 0;
            self.line_end = 0;
        }
    }

    // Takes more bytes in hand, as many as the buffer has room for, and notes where none is left.
    pub(super) fn fill<S: Source>(&mut self, source: &mut S) -> Result<(), Failed>
        requires { NeedsBytes self.old }
        ensures kept { Keeps (to_come self.old (S.left source.old))
            (to_come self.new (S.left source.new)) }
        ensures front { take (hand_length self.old) (in_hand self.new) ≡ in_hand self.old }
        ensures grew { OnOk result (source_ended self.new ≡ false
            → hand_length self.old < hand_length self.new) }
        ensures same { IsTrue (source_ended self.new) → in_hand self.new ≡ in_hand self.old }
        ensures failed { OnErr result (in_hand self.new ≡ in_hand self.old) }
        ensures ended { IsTrue (source_ended self.new) → IsAtEnd (S.left source.new) }
        ensures unended { OnErr result (source_ended self.new ≡ false) }
        ensures cause { HasCause (S.faults source.old) (S.faults source.new) result }
        ensures once { OnErr result (S.faults source.new ≡ one_fault_more (S.faults source.old)) }
        ensures told { OnOk result (S.faults source.new ≡ S.faults source.old) }
        ensures unfailing { S.never_fails source.old → IsOk result }
        ensures never_later { S.never_fails source.old → S.never_fails source.new }
        ensures before_end { S.never_fails_before_end source.old → IsOk result }
        ensures still_before { S.never_fails_before_end source.old
            → OnOk result (TillEnd (source_ended self.new) (S.never_fails_before_end source.new)) }
    {
        self.to_front();
        let count = read_behind(&mut self.bytes, self.end, source)?;
        self.end += count;
        self.ended = count == 0;
        Ok(())
    }
}
