//! The next line of a source.
ghost use Rattle.std.specs.Prelude.{◌≡◌, IfOk, IsOk, IsTrue, OnErr, OnOk, false};
ghost use Rattle.std.specs.Io.KnownBytes.{IsAtEnd, Keeps};
ghost use Rattle.board_model.specs.Lines.{HasCause};
ghost use Rattle.script_loop.specs.Streams.{one_fault_more};
ghost use Rattle.script_loop.specs.Reader.{HasMore, NeedsByte, NeedsBytes, TillEnd, source_ended, in_hand, line_given, to_come};
ghost use Rattle.script_loop.specs.Reader.{FoundFull, FoundShort, IsEnd, IsFetched, IsFull, IsShortLine, KeepsUnlessLine};

use super::{Fetched, LineReader};
use crate::stream::{Failed, Source};

impl LineReader {
    /// Looks for the next line, which `line` gives afterwards.
    ///
    /// The source is read only when the bytes in hand hold neither a newline nor 4097 bytes, and not again after it
    /// came to its end. No memory is taken. A reader goes with one source, which stays at its end once it is there.
    ///
    /// # Errors
    /// `Failed` where the source failed.
    pub fn next<S: Source>(&mut self, source: &mut S) -> Result<Fetched, Failed>
        requires one_source { IsTrue (source_ended self.old) → IsAtEnd (S.left source.old) }

        // The bytes in hand and those that are left lose the line, and nothing else.
        ensures fetched { IfOk result (λ f.
            IsFetched f (source_ended self.new) (line_given self.new)
            (to_come self.old (S.left source.old)) (to_come self.new (S.left source.new))) }
        ensures stays { IfOk result (λ f. KeepsUnlessLine f
            (to_come self.old (S.left source.old)) (to_come self.new (S.left source.new))) }

        // A line has at most 4096 bytes, and none is found where 4097 bytes without a newline are in hand, and only there.
        ensures short { IfOk result (λ f. FoundShort f (line_given self.new)) }
        ensures long { IfOk result (λ f. FoundFull f (in_hand self.new)) }
        ensures full { IsFull (in_hand self.new) → result ≡ Ok Fetched.Long }

        // The source isn't read where the line can be told without it.
        ensures unread { (NeedsBytes self.old → ⊥) → source.new ≡ source.old }

        ensures one_source { IsTrue (source_ended self.new) → IsAtEnd (S.left source.new) }
        ensures at_end { IfOk result (λ f. IsEnd f → IsAtEnd (S.left source.new)) }
        ensures unended { source_ended self.new ≡ false → source_ended self.old ≡ false }

        // It fails only where the source's count of faults rises, by one. Then no byte is lost, and no newline is in hand.
        ensures kept { OnErr result
            (Keeps (to_come self.old (S.left source.old)) (to_come self.new (S.left source.new))) }
        ensures cut { OnErr result (IsShortLine (in_hand self.new)) }
        ensures more { OnErr result (source_ended self.new ≡ false) }
        ensures cause { HasCause (S.faults source.old) (S.faults source.new) result }
        ensures once { OnErr result (S.faults source.new ≡ one_fault_more (S.faults source.old)) }

        // A fault is told.
        ensures told { OnOk result (S.faults source.new ≡ S.faults source.old) }
        ensures unfailing { S.never_fails source.old → IsOk result }
        ensures never_later { S.never_fails source.old → S.never_fails source.new }

        // It isn't read behind its end: a source whose reads may fail only there doesn't fail here.
        ensures before_end { TillEnd (source_ended self.old) (S.never_fails_before_end source.old) → IsOk result }
        ensures still_before { TillEnd (source_ended self.old) (S.never_fails_before_end source.old)
            → TillEnd (source_ended self.new) (S.never_fails_before_end source.new) }
    {
        let mut searched = 0;
        loop {
            if let Some(at) = self.newline_from(searched) {
                self.give(at, 1);
                return Ok(Fetched::Line);
            }
            searched = self.hand_len();
            if searched > 4096 {
                return Ok(Fetched::Long);
            }
            if self.ended {
                if searched == 0 {
                    return Ok(Fetched::End);
                }
                self.give(searched, 0);
                return Ok(Fetched::Line);
            }
            self.fill(source)?;
        }
    }

    // Whether no byte is left. The source is read only where nothing is in hand.
    pub(crate) fn is_at_end<S: Source>(&mut self, source: &mut S) -> Result<bool, Failed>
        requires one_source { IsTrue (source_ended self.old) → IsAtEnd (S.left source.old) }
        ensures end { IfOk result (λ end. IsTrue end
            → IsAtEnd (to_come self.old (S.left source.old))) }
        ensures left { IfOk result (λ end. IsTrue end → IsAtEnd (S.left source.new)) }
        ensures more { IfOk result (λ end. end ≡ false
            → HasMore (to_come self.old (S.left source.old))) }
        ensures kept { OnErr result
            (Keeps (to_come self.old (S.left source.old)) (to_come self.new (S.left source.new))) }
        ensures cut { OnErr result (IsShortLine (in_hand self.new)) }
        ensures unended { OnErr result (source_ended self.old ≡ false) }

        // The source isn't read where bytes are in hand, nor behind its end.
        ensures unread { (NeedsByte self.old → ⊥) → source.new ≡ source.old }

        ensures cause { HasCause (S.faults source.old) (S.faults source.new) result }
        ensures once { OnErr result (S.faults source.new ≡ one_fault_more (S.faults source.old)) }
        ensures told { OnOk result (S.faults source.new ≡ S.faults source.old) }
        ensures unfailing { S.never_fails source.old → IsOk result }
        ensures before_end { TillEnd (source_ended self.old) (S.never_fails_before_end source.old) → IsOk result }
    {
        if self.hand_len() > 0 {
            return Ok(false);
        }
        if self.ended {
            return Ok(true);
        }
        self.fill(source)?;
        Ok(self.ended)
    }
}
