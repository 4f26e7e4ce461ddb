//! Lines, from their bytes.
ghost use Rattle.std.specs.Prelude.{◌≡◌, Some, IfErr, IfNone, IfOk, IfSome, OnErr};
ghost use Rattle.board_model.specs.Requests.{and_then};
ghost use Rattle.script_grammar.specs.LineReading.{read_begin, read_line, read_plain_line, read_words};
ghost use Rattle.script_grammar.specs.TokenReading.{split_tokens};
ghost use Rattle.script_grammar.specs.EventReading.{read_script_line};
ghost use Rattle.script_model.specs.declared.line.ScriptLine.{ScriptLine};
ghost use Rattle.script_model.specs.ScriptGrammar.{SpellsLine};
ghost use Rattle.script_parse.specs.Kept.{SpellsKept, SpellsUnkept, unkept_board, unkept_of};

use crate::bytes::is_word;
use crate::calls::{call_of, one_name, two_names};
use crate::events::event_line_of;
use crate::tokens::Tokens;
use crate::unkept::Unkept;
use board_model::Line;
use script_model::ScriptLine;
use std::alloc::{AllocError, Global};

// A line has no more bytes than these.
pub(crate) const MOST_BYTES: usize = 4096;

#[tactic(auto, unfolding(script_grammar::specs::LineReading::read_begin))]
fn begin_of(alloc: Global, tokens: &mut Tokens) -> Result<Option<Line>, Unkept>
    ensures read { IfOk result (λ o. o ≡ read_begin tokens.old) }
    ensures memory { IfErr result (λ line. and_then (read_begin tokens.old) unkept_board ≡ Some line) }
{
    let Some(party) = tokens.name() else {
        return Ok(None);
    };
    match call_of(alloc, tokens) {
        Ok(Some(call)) => Ok(Some(Line::Begin { party, call })),
        Ok(None) => Ok(None),
        Err(made) => Err(Unkept { party, made }),
    }
}

#[tactic(auto, unfolding(script_grammar::specs::LineReading::read_words))]
fn words_of(tokens: &mut Tokens) -> Option<Line>
    ensures { result ≡ read_words tokens.old }
{
    let board = tokens.number()?;
    tokens.end()?;
    Some(Line::Words { board })
}

// The line of a word, but for `begin`.
#[tactic(auto, unfolding(script_grammar::specs::LineReading::read_plain_line))]
fn plain_line_of(word: &[u8], tokens: &mut Tokens) -> Option<Line>
    ensures { result ≡ read_plain_line word.now tokens.old }
{
    if is_word(word, b"step") {
        let party = one_name(tokens)?;
        return Some(Line::Step { party });
    }
    if is_word(word, b"drop") {
        let (party, thing) = two_names(tokens)?;
        return Some(Line::Release { party, thing });
    }
    if is_word(word, b"abandon") {
        let party = one_name(tokens)?;
        return Some(Line::Abandon { party });
    }
    if is_word(word, b"words") {
        return words_of(tokens);
    }
    None
}

// The board line that these tokens make.
#[tactic(auto, unfolding(script_grammar::specs::LineReading::read_line))]
fn line_of(alloc: Global, tokens: &mut Tokens) -> Result<Option<Line>, Unkept>
    ensures read { IfOk result (λ o. o ≡ read_line tokens.old) }
    ensures memory { IfErr result (λ line. and_then (read_line tokens.old) unkept_board ≡ Some line) }
{
    let Some(word) = tokens.next() else {
        return Ok(None);
    };
    if is_word(word, b"begin") {
        return begin_of(alloc, tokens);
    }
    Ok(plain_line_of(word, tokens))
}

// The line of a script that these bytes make, which may be longer than a line.
#[tactic(auto, unfolding(script_grammar::specs::EventReading::read_script_line, script_grammar::specs::EventReading::board_line_first))]
fn script_line_of(alloc: Global, bytes: &[u8]) -> Result<Option<ScriptLine>, Unkept>
    ensures read { IfOk result (λ o. o ≡ read_script_line (split_tokens bytes.now)) }
    ensures memory { IfErr result (λ line. and_then (read_script_line (split_tokens bytes.now)) unkept_of
        ≡ Some line) }
{
    if let Some(line) = line_of(alloc, &mut Tokens::between(bytes, b' '))? {
        return Ok(Some(ScriptLine::Board(line)));
    }
    event_line_of(alloc, &mut Tokens::between(bytes, b' '))
}

/// The line of the script that these bytes spell, or `None` where no line of the grammar does.
/// Memory is taken for the names of boards and events, the entries and attributes of a `create` and the needs of an `open` alone.
///
/// # Errors
/// Where memory is refused, and the bytes spell a line with the name of a board or an event: what is known of that line.
pub fn line_or_unkept(alloc: Global, bytes: &[u8]) -> Result<Option<ScriptLine>, Unkept>
    ensures found { IfOk result (λ o. IfSome o (λ l. SpellsLine bytes.now l)) }
    ensures only { IfOk result (λ o. IfNone o ((l : ScriptLine) → SpellsLine bytes.now l → ⊥)) }
    ensures memory { IfErr result (λ line. SpellsUnkept bytes.now line) }
{
    if bytes.len() > MOST_BYTES {
        return Ok(None);
    }
    script_line_of(alloc, bytes)
}

/// The same, for whoever needs nothing of a line for which memory is refused.
///
/// # Errors
/// `AllocError` where memory is refused, and the bytes spell a line with the name of a board or an event.
pub fn parse_line(alloc: Global, bytes: &[u8]) -> Result<Option<ScriptLine>, AllocError>
    ensures found { IfOk result (λ o. IfSome o (λ l. SpellsLine bytes.now l)) }
    ensures only { IfOk result (λ o. IfNone o ((l : ScriptLine) → SpellsLine bytes.now l → ⊥)) }
    ensures memory { OnErr result (SpellsKept bytes.now) }
{
    Ok(line_or_unkept(alloc, bytes)?)
}
