//! What is counted over a script, and its six lines.
ghost use Rattle.std.specs.Prelude.{◌≡◌, ◌+◌, ◌<◌, ◌≤◌, ◌^◌, ◌++◌, length, decimal};
ghost use Rattle.script_generator.specs.Counting.{AreLow, OfAnswer, counted_with, one_more};
ghost use Rattle.script_generator.specs.Summary.{summary_text};

use board_layout::Text;
use itoa::Buffer;

/// What is counted over the lines of a script and their answers.
#[derive(Clone, Copy, Debug, PartialEq, Eq)]
pub(crate) struct Counts {
    pub(crate) lines: u64,
    pub(crate) refused: u64,
    /// Answers that tell an access.
    pub(crate) steps: u64,
    /// Updates that ended.
    pub(crate) updates: u64,
    /// Gets that ended.
    pub(crate) gets: u64,
}

// One more where it is so.
fn one_more(n: u64, is: bool) -> u64
    requires { n < 2 ^ 63 }
    ensures { result ≡ one_more n is }
{
    if is { n + 1 } else { n }
}

impl Counts {
    /// Counts a line with this answer, where no other calls that read or write run than gets and updates.
    // The answers of boards are told apart by their first bytes, and the last step of a call by its `=`.
    #[inline(always)]
    pub(crate) fn count(&mut self, answer: &[u8])
        requires { AreLow self.old }
        ensures { OfAnswer answer.now (λ a. self.new ≡ counted_with self.old a) }
    {
        self.lines += 1;
        if answer.starts_with(b"rea") {
            self.steps += 1;
            self.gets = one_more(self.gets, answer.contains(&b'='));
            return;
        }
        if answer.starts_with(b"wr") {
            self.steps += 1;
            self.updates = one_more(self.updates, answer.contains(&b'='));
            return;
        }
        if answer.starts_with(b"t") {
            self.steps += 1;
            return;
        }
        if answer.starts_with(b"ref") {
            self.refused += 1;
        }
    }
}

// Adds the number behind its words.
fn push_number(words: &[u8], n: u64, text: &mut Text<256>)
    requires { length text.old + length words.now + 20 ≤ 256 }
    ensures text { text.new ≡ text.old ++ (words.now ++ decimal n) }
    ensures short { length text.new ≤ length text.old + length words.now + 20 }
{
    let mut buffer = Buffer::new();
    text.push(words);
    text.push(buffer.format(n).as_bytes());
}

/// The six lines of a summary.
pub(crate) fn summary_text(counts: &Counts, first: u64, second: u64) -> Text<256>
    ensures { result ≡ summary_text counts.now first second }
{
    let mut text: Text<256> = Text::of(b"");
    push_number(b"lines ", counts.lines, &mut text);
    push_number(b"\nrefused ", counts.refused, &mut text);
    push_number(b"\nsteps ", counts.steps, &mut text);
    push_number(b"\nupdates ", counts.updates, &mut text);
    push_number(b"\ngets ", counts.gets, &mut text);
    push_number(b"\ngenerations ", first, &mut text);
    push_number(b" ", second, &mut text);
    text.push(b"\n");
    text
}
