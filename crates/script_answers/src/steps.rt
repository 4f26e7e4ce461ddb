//! The tokens of steps.
ghost use Rattle.std.specs.Prelude.{◌≡◌};
ghost use Rattle.script_answers.specs.AnswerReading.{reads_event_step, reads_one, reads_step, reads_two};

use crate::bytes::is_word;
use crate::item::Item;
use crate::replies::is_told;
use crate::tokens::Tokens;

// A token, and then what is told.
#[tactic(auto, unfolding(crate::specs::AnswerReading::reads_one))]
fn is_one(item: Item, tokens: &mut Tokens) -> bool
    ensures { result ≡ reads_one item tokens.old }
{
    tokens.take_item(item) && is_told(tokens)
}

// Two tokens, and then what is told.
#[tactic(auto, unfolding(crate::specs::AnswerReading::reads_two))]
fn are_two(first: Item, second: Item, tokens: &mut Tokens) -> bool
    ensures { result ≡ reads_two first second tokens.old }
{
    tokens.take_item(first) && is_one(second, tokens)
}

// A step on an event, by the word of its access.
#[tactic(auto, unfolding(crate::specs::AnswerReading::reads_event_step))]
fn is_event_step(word: &[u8], tokens: &mut Tokens) -> bool
    ensures { result ≡ reads_event_step word.now tokens.old }
{
    if is_word(word, b"listener") || is_word(word, b"signal") {
        return are_two(Item::BitsEvent, Item::YesOrNo, tokens);
    }
    if is_word(word, b"set") || is_word(word, b"clear") {
        return are_two(Item::BitsEvent, Item::Number, tokens);
    }
    if is_word(word, b"scan") || is_word(word, b"swap") {
        return tokens.take_item(Item::BitsEvent) && are_two(Item::Number, Item::Number, tokens);
    }
    if is_word(word, b"post") {
        return is_one(Item::BitsEvent, tokens);
    }
    if is_word(word, b"push") {
        return is_one(Item::QueueEvent, tokens);
    }
    is_word(word, b"pop") && are_two(Item::QueueEvent, Item::NumberOrNone, tokens)
}

// A step, by the word of its access.
#[tactic(auto, unfolding(crate::specs::AnswerReading::reads_step))]
pub(crate) fn is_step(word: &[u8], tokens: &mut Tokens) -> bool
    ensures { result ≡ reads_step word.now tokens.old }
{
    if is_word(word, b"table") {
        return is_told(tokens);
    }
    if is_word(word, b"read") || is_word(word, b"write") {
        return are_two(Item::Place, Item::Number, tokens);
    }
    is_event_step(word, tokens)
}
