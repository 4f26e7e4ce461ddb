//! Lines, from their bytes.
ghost use Rattle.std.specs.Prelude.{◌≡◌, IfNone, IfOk, IfSome, IsSome, OnErr};
ghost use Rattle.std.specs.Str.{bytes_eq};
ghost use Rattle.script_exchanges.specs.declared.line.DriveLine.{DriveLine};
ghost use Rattle.script_exchanges.specs.DriveGrammar.{SpellsDrive, SpellsNoDrive, start_word};
ghost use Rattle.script_feed.specs.DriveReading.{IsPlainLine, read_start, read_turn};
ghost use Rattle.script_loop.specs.Machines.{SpellsNone};
ghost use Rattle.script_parse.specs.Kept.{SpellsKept};

use crate::words::Words;
use script_exchanges::{Drive, DriveLine};
use script_parse::parse_line;
use std::alloc::{AllocError, Global};

// A line has no more bytes than these.
const MOST_BYTES: usize = 4096;

fn is_word(text: &[u8], word: &[u8]) -> bool
    ensures { result ≡ bytes_eq text.now word.now }
{
    text == word
}

// Whether the word is the one of the line that starts to drive a party.
fn is_start_word(drive: Drive, word: &[u8]) -> bool
    ensures { result ≡ bytes_eq word.now (start_word drive) }
{
    match drive {
        Drive::Snapshots => is_word(word, b"snap"),
        Drive::Watchers => is_word(word, b"watch"),
    }
}

fn turn_of(words: &mut Words) -> Option<DriveLine>
    ensures { result ≡ read_turn words.old }
{
    let party = words.name()?;
    if !words.is_end() {
        return None;
    }
    Some(DriveLine::Turn { party })
}

// Memory is taken for the names alone.
fn start_of(alloc: Global, drive: Drive, words: &mut Words) -> Result<Option<DriveLine>, AllocError>
    ensures ok { IfOk result (λ o. o ≡ read_start drive words.old) }
    ensures memory { OnErr result (IsSome (read_start drive words.old)) }
{
    let Some(party) = words.name() else {
        return Ok(None);
    };
    if !words.again().are_things(drive) {
        return Ok(None);
    }
    let things = words.names(alloc)?;
    Ok(Some(DriveLine::Start { party, things }))
}

// A line of a plain script.
fn script_line_of(alloc: Global, bytes: &[u8]) -> Result<Option<DriveLine>, AllocError>
    ensures found { IfOk result (λ o. IfSome o (IsPlainLine bytes.now)) }
    ensures only { IfOk result (λ o. IfNone o (SpellsNone bytes.now)) }
    ensures memory { OnErr result (SpellsKept bytes.now) }
{
    match parse_line(alloc, bytes)? {
        Some(line) => Ok(Some(DriveLine::Script(line))),
        None => Ok(None),
    }
}

/// The line that these bytes spell, or `None` where no line of the grammar does.
///
/// # Errors
/// `AllocError` where memory is refused, which is wanted for a line of the grammar alone.
pub fn parse_drive(
    alloc: Global,
    drive: Drive,
    bytes: &[u8],
) -> Result<Option<DriveLine>, AllocError>
    ensures found { IfOk result (λ o. IfSome o (λ l. SpellsDrive drive bytes.now l)) }
    ensures only { IfOk result (λ o. IfNone o (SpellsNoDrive drive bytes.now)) }

    // A line outside the grammar wants no memory.
    ensures memory { OnErr result ((l : DriveLine) × SpellsDrive drive bytes.now l) }
{
    if bytes.len() > MOST_BYTES {
        return Ok(None);
    }
    let mut words = Words::of(bytes);
    let Some(word) = words.next() else {
        return Ok(None);
    };
    if is_word(word, b"turn") {
        return Ok(turn_of(&mut words));
    }
    if is_start_word(drive, word) {
        return start_of(alloc, drive, &mut words);
    }
    script_line_of(alloc, bytes)
}
