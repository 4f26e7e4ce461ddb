//! Pairs that are judged one after another.
ghost use Rattle.std.specs.Prelude.{◌≡◌, ◌≤◌, ◌-◌, IfNone, IfOk, IfSome, IsTrue, OnOk, false, length, take, ℕ};
ghost use Rattle.script_model.specs.ScriptGrammar.{IsScriptLine};
ghost use Rattle.script_model.specs.ScriptSession.{Session, start};
ghost use Rattle.script_model.specs.ScriptTurns.{ScriptState};
ghost use Rattle.script_loop.specs.Machines.{StandsFor};
ghost use Rattle.script_loop.specs.Runs.{stream_of};
ghost use Rattle.script_pairs.specs.Checks.{Checks, IsBroken, IsReadToEnd, TellsEach};
ghost use Rattle.script_pairs.specs.Faults.{TellsFaults};

use crate::lines::line_of;
use crate::pair_lines::{Found, PairLines};
use crate::verdict::{CheckError, Verdict};
use script_answers::{broken_rule_of, is_answer, most_bytes};
use script_loop::Source;
use script_model::ScriptLine;
use script_rules::Rule;
use std::alloc::{AllocError, Global};

/// What knows the right answer to each line of a script.
///
/// Contracts see for which numbers of lines and which states it stands: those of the lawful sessions that may have led to it.
pub trait KnowsAnswers {
    ghost stands: { Self → ℕ → ScriptState → Type 0 };

    /// Puts the right answer to the line into `answer`, with its newline, and goes on to what stands behind the line.
    ///
    /// # Errors
    /// `AllocError` where memory is refused.
    fn right_answer(&mut self, line: &ScriptLine, answer: &mut Vec<u8>) -> Result<(), AllocError>
        requires line { IsScriptLine line.now }

        // It stands for a session that is short enough that no number reaches its end.
        requires stands { (session : Session) × StandsFor stands self.old session }

        // For each session that it stands for the answer is right, and it stands for the session with this pair.
        ensures ok { OnOk result (TellsEach stands self.old self.new line.now answer.new.items) };
}

// A line without its newline.
fn without_newline(line: &[u8]) -> &[u8]
    ensures { result.now ≡ take (length line.now - 1) line.now }
{
    match line {
        [] => line,
        [text @ .., _] => text,
    }
}

// Whether a line was found.
fn is_line(found: Found) -> bool
    ensures line { IsTrue result → found ≡ Found.Line }
    ensures other { result ≡ false → found ≡ Found.Line → ⊥ }
{
    match found {
        Found::Line => true,
        Found::Long | Found::End => false,
    }
}

// The first rule that an answer to the n-th line breaks, where the text of the right one is this.
//
// A right answer is an answer, so only another text is read.
fn rule_broken(asked: &ScriptLine, right: &[u8], n: u64, answer: &[u8]) -> Option<Rule>
    requires { n ≤ 4294967296 }
    ensures none { IfNone result (right.now ≡ answer.now) }
    ensures some { IfSome result (IsBroken asked.now right.now n answer.now) }
{
    if right == answer {
        return None;
    }
    if !is_answer(n, answer) {
        return Some(Rule::Answer);
    }
    broken_rule_of(asked, right, answer)
}

/// Judges the lines of the source in turn, a line of a script and then its answer, for at most `limit` pairs.
///
/// Pair n is counted from 1. `TooLong` is looked at when a byte follows the last pair that is allowed.
///
/// # Errors
/// `ReadFault` where the source failed; `TooLong`; `OutOfMemory`.
pub fn check_pairs<T: KnowsAnswers, S: Source>(
    alloc: Global,
    limit: u64,
    tables: &mut T,
    source: &mut S,
) -> Result<Verdict, CheckError>
    requires limit { limit ≤ 4294967295 }
    requires tables { T.stands tables.old 0 start }

    // A verdict is true of the source's lines, and comes where it is true.
    ensures checks { Checks limit (S.left source.old) result }

    // Where it is `Lawful` the source was read to its end.
    ensures end { IfOk result (λ verdict. IsReadToEnd verdict (S.left source.new)) }

    // Faults of the source are told.
    ensures faults { TellsFaults (stream_of S.left S.faults source.old source.new)
        (S.never_fails source.old) (S.never_fails_before_end source.old) result }
{
    let mut reader = PairLines::new(alloc)?;
    let mut line = Vec::new(alloc);
    let mut answer = Vec::new(alloc);
    let mut right = Vec::new(alloc);
    for n in 0..limit {
        let pair = n + 1;
        match reader.next(source, 4096, &mut line)? {
            Found::End => return Ok(Verdict::Lawful { pairs: n }),
            Found::Long => {
                return Ok(Verdict::No {
                    pair,
                    rule: Rule::Line,
                });
            }
            Found::Line => {}
        }
        let Some(asked) = line_of(alloc, &line)? else {
            return Ok(Verdict::No {
                pair,
                rule: Rule::Line,
            });
        };
        let found = reader.next(source, most_bytes(pair) as usize, &mut answer)?;
        if !is_line(found) {
            return Ok(Verdict::No {
                pair,
                rule: Rule::Answer,
            });
        }
        tables.right_answer(&asked, &mut right)?;
        if let Some(rule) = rule_broken(&asked, without_newline(&right), pair, &answer) {
            return Ok(Verdict::No { pair, rule });
        }
    }
    let ended = reader.is_at_end(source)?;
    if ended {
        Ok(Verdict::Lawful { pairs: limit })
    } else {
        Err(CheckError::TooLong)
    }
}
