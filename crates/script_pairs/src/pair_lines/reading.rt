//! How lines and answers are read in turn.
ghost use Rattle.std.specs.Prelude.{◌≡◌, ◌≢◌, ◌≤◌, ◌<◌, ◌↔◌, [], Err, IfErr, IfOk, IsOk, IsTrue, OnErr, OnOk, drop, false, length, true};
ghost use Rattle.std.specs.Io.KnownBytes.{IsAtEnd, Keeps};
ghost use Rattle.board_model.specs.Lines.{HasCause};
ghost use Rattle.script_loop.specs.Reader.{HasMore, TillEnd};
ghost use Rattle.script_loop.specs.Runs.{stream_of};
ghost use Rattle.script_loop.specs.Streams.{one_fault_more};
ghost use Rattle.script_pairs.specs.Faults.{TellsFaults};
ghost use Rattle.script_pairs.specs.PairLines.{IsFound, NeedsByte, Refills, TakesPart, has_ended, in_hand, to_come};

use super::{CHUNK, Found, PairLines};
use crate::verdict::CheckError;
use script_loop::{Failed, Source, newline_in};
use std::alloc::{AllocError, Global};

// What the bytes behind the last newline are: a line, or the end.
fn last_of(line: &[u8]) -> Found
    ensures line { 0 < length line.now → result ≡ Found.Line }
    ensures end { length line.now ≡ 0 → result ≡ Found.End }
{
    if line.is_empty() {
        return Found::End;
    }
    Found::Line
}

impl PairLines {
    // With nothing in hand.
    pub(crate) fn new(alloc: Global) -> Result<PairLines, AllocError>
        ensures hand { IfOk result (λ reader. in_hand reader ≡ []) }
        ensures ended { IfOk result (λ reader. has_ended reader ≡ false) }
    {
        let bytes = vec![in alloc; 0; CHUNK]?;
        Ok(PairLines {
            bytes,
            start: 0,
            end: 0,
            ended: false,
        })
    }

    // The bytes in hand.
    fn hand(&self) -> &[u8]
        ensures { result.now ≡ in_hand self.now }
    {
        &self.bytes[self.start..self.end]
    }

    // Whether nothing is in hand.
    fn hand_is_empty(&self) -> bool
        ensures { IsTrue result ↔ (in_hand self.now ≡ []) }
    {
        self.start == self.end
    }

    // Skips the first bytes in hand, so many of them.
    fn skip(&mut self, count: usize)
        requires { count ≤ length (in_hand self.old) }
        ensures hand { in_hand self.new ≡ drop count (in_hand self.old) }
        ensures ended { has_ended self.new ≡ has_ended self.old }
    {
        self.start += count;
    }

    // Skips all bytes in hand.
    fn skip_all(&mut self)
        ensures hand { in_hand self.new ≡ [] }
        ensures ended { has_ended self.new ≡ has_ended self.old }
    {
        self.start = self.end;
    }

    // Reads a chunk where nothing is in hand, and notes where none is left.
    fn fill<S: Source>(&mut self, source: &mut S) -> Result<(), Failed>
        requires { in_hand self.old ≡ [] }
        ensures { Refills self.old self.new (stream_of S.left S.faults source.old source.new)
            (S.never_fails source.old) (S.never_fails source.new)
            (S.never_fails_before_end source.old)
            (S.never_fails_before_end source.new) result }
    {
        self.start = 0;
        self.end = 0;
        let count = source.read(&mut self.bytes)?;
        self.end = count;
        self.ended = count == 0;
        Ok(())
    }

    // Reads a chunk, unless something is in hand or the source is at its end.
    fn refill<S: Source>(&mut self, source: &mut S) -> Result<(), Failed>
        requires one_source { has_ended self.old ≡ true → IsAtEnd (S.left source.old) }
        requires none { has_ended self.old ≡ true → in_hand self.old ≡ [] }
        ensures { Refills self.old self.new (stream_of S.left S.faults source.old source.new)
            (S.never_fails source.old) (S.never_fails source.new)
            (TillEnd (has_ended self.old) (S.never_fails_before_end source.old))
            (S.never_fails_before_end source.new) result }
    {
        if self.ended || !self.hand_is_empty() {
            return Ok(());
        }
        self.fill(source)
    }

    // Moves the bytes in hand behind the line, up to a newline, and tells whether one was found, which is skipped.
    fn take_part(&mut self, line: &mut Vec<u8>) -> Result<bool, AllocError>
        ensures taken { IfOk result (λ whole. TakesPart whole (in_hand self.old) (in_hand self.new)
            line.old.items line.new.items) }
        ensures ended { has_ended self.new ≡ has_ended self.old }
    {
        match newline_in(self.hand()) {
            Some(at) => {
                line.extend_from_slice(&self.hand()[..at])?;
                self.skip(at + 1);
                Ok(true)
            }
            None => {
                line.extend_from_slice(self.hand())?;
                self.skip_all();
                Ok(false)
            }
        }
    }

    // Looks for the next line, and puts it into `line`, which is empty then where there is none.
    //
    // A reader goes with one source, which stays at its end once it is there.
    pub(crate) fn next<S: Source>(
        &mut self,
        source: &mut S,
        most: usize,
        line: &mut Vec<u8>,
    ) -> Result<Found, CheckError>
        requires one_source { has_ended self.old ≡ true → IsAtEnd (S.left source.old) }
        requires none { has_ended self.old ≡ true → in_hand self.old ≡ [] }
        ensures found { IfOk result (λ found. IsFound found most line.new.items
            (to_come self.old (S.left source.old)) (to_come self.new (S.left source.new))) }
        ensures one_source { OnOk result (has_ended self.new ≡ true → IsAtEnd (S.left source.new)) }
        ensures at_end { IfOk result (λ found. found ≡ Found.End → IsAtEnd (S.left source.new)) }
        ensures none { OnOk result (has_ended self.new ≡ true → in_hand self.new ≡ []) }
        ensures kind { result ≢ Err CheckError.TooLong }
        ensures faults { TellsFaults (stream_of S.left S.faults source.old source.new)
            (S.never_fails source.old)
            (TillEnd (has_ended self.old) (S.never_fails_before_end source.old)) result }
        ensures never_later { S.never_fails source.old → S.never_fails source.new }
        ensures still_before { TillEnd (has_ended self.old) (S.never_fails_before_end source.old)
            → OnOk result (TillEnd (has_ended self.new) (S.never_fails_before_end source.new)) }
    {
        line.clear();
        'look: loop {
            match self.refill(source) {
                Ok(()) => {}
                Err(_) => return Err(CheckError::ReadFault),
            }
            let whole = self.take_part(line)?;
            if line.len() > most {
                return Ok(Found::Long);
            }
            if whole {
                return Ok(Found::Line);
            }
            if self.ended {
                return Ok(last_of(line));
            }
        }
    }

    // Whether no byte is left. The source is read only where nothing is in hand.
    pub(crate) fn is_at_end<S: Source>(&mut self, source: &mut S) -> Result<bool, CheckError>
        requires one_source { has_ended self.old ≡ true → IsAtEnd (S.left source.old) }
        ensures end { IfOk result (λ end. IsTrue end
            → IsAtEnd (to_come self.old (S.left source.old))) }
        ensures left { IfOk result (λ end. IsTrue end → IsAtEnd (S.left source.new)) }
        ensures more { IfOk result (λ end. end ≡ false
            → HasMore (to_come self.old (S.left source.old))) }
        ensures kept { OnErr result
            (Keeps (to_come self.old (S.left source.old)) (to_come self.new (S.left source.new))) }

        // The source isn't read where bytes are in hand, nor behind its end.
        ensures unread { (NeedsByte self.old → ⊥) → source.new ≡ source.old }

        ensures kind { IfErr result (λ e. e ≡ CheckError.ReadFault) }
        ensures cause { HasCause (S.faults source.old) (S.faults source.new) result }
        ensures told { OnOk result (S.faults source.new ≡ S.faults source.old) }
        ensures once { OnErr result (S.faults source.new ≡ one_fault_more (S.faults source.old)) }
        ensures unfailing { S.never_fails source.old → IsOk result }
        ensures before_end { TillEnd (has_ended self.old) (S.never_fails_before_end source.old) → IsOk result }
    {
        if !self.hand_is_empty() {
            return Ok(false);
        }
        if self.ended {
            return Ok(true);
        }
        match self.fill(source) {
            Ok(()) => Ok(self.ended),
            Err(_) => Err(CheckError::ReadFault),
        }
    }
}
