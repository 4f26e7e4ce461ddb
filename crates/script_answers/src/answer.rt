//! Whether a text is an answer.
ghost use Rattle.std.specs.Prelude.{◌≡◌, ◌≤◌, ◌+◌, ◌*◌, ◌↔◌, IsTrue};
ghost use Rattle.script_grammar.specs.TokenReading.{split_tokens};
ghost use Rattle.script_rules.specs.PrintedAnswers.{SpellsAnswer};
ghost use Rattle.script_answers.specs.AnswerReading.{reads_answer, reads_last};

use crate::bytes::is_word;
use crate::item::Item;
use crate::steps::is_step;
use crate::tokens::Tokens;

// The answers are at most this long, with 17 bytes more for each line up to theirs.
const MOST_BYTES: u64 = 1048576;

// One token and no more.
#[tactic(auto, unfolding(crate::specs::AnswerReading::reads_last))]
fn is_last(item: Item, tokens: &mut Tokens) -> bool
    ensures { result ≡ reads_last item tokens.old }
{
    tokens.take_item(item) && tokens.is_end()
}

// The tokens of an answer.
#[tactic(auto, unfolding(crate::specs::AnswerReading::reads_answer))]
fn are_of_answer(tokens: &mut Tokens) -> bool
    ensures { result ≡ reads_answer tokens.old }
{
    let Some(word) = tokens.next() else {
        return false;
    };
    if is_word(word, b"ok") || is_word(word, b"gone") {
        return tokens.is_end();
    }
    if is_word(word, b"refused") {
        return is_last(Item::Reason, tokens);
    }
    if is_word(word, b"words") {
        return tokens.are_all(Item::Number);
    }
    if is_word(word, b"=") {
        return tokens.take_word(b"none") && tokens.is_end();
    }
    is_step(word, tokens)
}

/// How many bytes the answer to the n-th line may have.
pub fn most_bytes(n: u64) -> u64
    requires { n ≤ 4294967296 }
    ensures { result ≡ 1048576 + 17 * n }
{
    MOST_BYTES + 17 * n
}

/// Whether the text is an answer, and no longer than that to the n-th line may be. No memory is taken.
pub fn is_answer(n: u64, text: &[u8]) -> bool
    requires { n ≤ 4294967296 }
    ensures { IsTrue result ↔ SpellsAnswer n text.now }
{
    if text.len() as u64 > most_bytes(n) {
        return false;
    }
    are_of_answer(&mut Tokens::between(text, b' '))
}
