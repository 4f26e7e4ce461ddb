//! The tokens of replies.
ghost use Rattle.std.specs.Prelude.{◌≡◌};
ghost use Rattle.script_answers.specs.AnswerReading.{reads_counts, reads_got, reads_info, reads_last_reply, reads_limits, reads_number, reads_reply, reads_reply_of, reads_told};

use crate::bytes::is_word;
use crate::item::{Item, is_item};
use crate::tokens::Tokens;

// One number and no more.
#[tactic(auto, unfolding(crate::specs::AnswerReading::reads_number))]
fn is_one_number(tokens: &mut Tokens) -> bool
    ensures { result ≡ reads_number tokens.old }
{
    tokens.take_number() && tokens.is_end()
}

// What is taken of a board, behind how much it has.
#[tactic(auto, unfolding(crate::specs::AnswerReading::reads_counts))]
fn are_counts(tokens: &mut Tokens) -> bool
    ensures { result ≡ reads_counts tokens.old }
{
    tokens.take_labelled(b"entries")
        && tokens.take_labelled(b"attrs")
        && tokens.take_labelled(b"taken")
        && tokens.take_number()
        && is_one_number(tokens)
}

// The limits of a board, and what follows them.
#[tactic(auto, unfolding(crate::specs::AnswerReading::reads_limits))]
fn are_limits(tokens: &mut Tokens) -> bool
    ensures { result ≡ reads_limits tokens.old }
{
    tokens.take_labelled(b"readers")
        && tokens.take_labelled(b"nodes")
        && tokens.take_labelled(b"writers")
        && are_counts(tokens)
}

#[tactic(auto, unfolding(crate::specs::AnswerReading::reads_info))]
fn is_info(tokens: &mut Tokens) -> bool
    ensures { result ≡ reads_info tokens.old }
{
    tokens.take_item(Item::BoardName) && tokens.take_item(Item::KeyType) && are_limits(tokens)
}

// What follows a value that was read: its generation.
#[tactic(auto, unfolding(crate::specs::AnswerReading::reads_got))]
fn is_generation(tokens: &mut Tokens) -> bool
    ensures { result ≡ reads_got tokens.old }
{
    tokens.take_labelled(b"gen") && tokens.is_end()
}

// A reply of one word which says all, or a value that was read.
#[tactic(auto, unfolding(crate::specs::AnswerReading::reads_last_reply))]
fn is_last_reply(word: &[u8], tokens: &mut Tokens) -> bool
    ensures { result ≡ reads_last_reply word.now tokens.old }
{
    if tokens.is_end() {
        return is_item(Item::WholeReply, word);
    }
    is_item(Item::Value, word) && is_generation(tokens)
}

// A reply, by its first word.
#[tactic(auto, unfolding(crate::specs::AnswerReading::reads_reply_of))]
fn is_reply_of(word: &[u8], tokens: &mut Tokens) -> bool
    ensures { result ≡ reads_reply_of word.now tokens.old }
{
    if is_word(word, b"ok") {
        return tokens.is_end() || is_one_number(tokens);
    }
    if is_word(word, b"keys") {
        return tokens.are_all(Item::Key);
    }
    if is_word(word, b"nodes") {
        return tokens.are_all(Item::Name);
    }
    if is_word(word, b"ids") {
        return tokens.are_all(Item::Number);
    }
    if is_word(word, b"id") || is_word(word, b"gen") {
        return is_one_number(tokens);
    }
    if is_word(word, b"info") {
        return is_info(tokens);
    }
    is_last_reply(word, tokens)
}

#[tactic(auto, unfolding(crate::specs::AnswerReading::reads_reply))]
fn is_reply(tokens: &mut Tokens) -> bool
    ensures { result ≡ reads_reply tokens.old }
{
    match tokens.next() {
        Some(word) => is_reply_of(word, tokens),
        None => false,
    }
}

// Nothing, or a reply behind the token that begins it.
#[tactic(auto, unfolding(crate::specs::AnswerReading::reads_told))]
pub(crate) fn is_told(tokens: &mut Tokens) -> bool
    ensures { result ≡ reads_told tokens.old }
{
    tokens.is_end() || (tokens.take_word(b"=") && is_reply(tokens))
}
