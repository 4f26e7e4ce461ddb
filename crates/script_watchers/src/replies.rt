//! Ids, from the replies of answers.
ghost use Rattle.std.specs.Prelude.{◌≡◌, ◌++◌, ◌∷◌, [], ℕ, List, IfOk};
ghost use Rattle.std.specs.Str.{bytes_eq};
ghost use Rattle.script_grammar.specs.TokenReading.{split_tokens};
ghost use Rattle.script_watchers.specs.ToldIds.{behind_equals, ids_if, ids_in, numbers_in, told_id, told_ids};

use script_feed::{Words, without_last};
use script_parse::number_of;
use std::alloc::AllocError;

fn is_word(text: &[u8], word: &[u8]) -> bool
    ensures { result ≡ bytes_eq text.now word.now }
{
    text == word
}

// The words behind the first one that is an equals sign.
fn behind_equals(text: &[u8]) -> Option<Words>
    ensures { result ≡ behind_equals (split_tokens text.now) }
{
    let mut words = Words::of(text);
    while let Some(word) = words.next() {
        if is_word(word, b"=") {
            return Some(words);
        }
    }
    None
}

// The words of the reply of an answer, which ends with its newline.
fn reply_of(answer: &[u8]) -> Option<Words>
    ensures { (text : List ℕ) → answer.now ≡ text ++ 10 ∷ []
        → result ≡ behind_equals (split_tokens text) }
{
    behind_equals(without_last(answer)?)
}

/// The id that a party is told that asked for one.
pub(crate) fn id_of(answer: &[u8]) -> Option<u64>
    ensures { (text : List ℕ) → answer.now ≡ text ++ 10 ∷ [] → result ≡ told_id text }
{
    let mut words = reply_of(answer)?;
    words.next()?;
    number_of(words.next()?)
}

// The numbers that the words are; whether all are numbers.
fn read_numbers(words: &mut Words, numbers: &mut Vec<u64>) -> Result<bool, AllocError>
    requires { numbers.old.items ≡ [] }
    ensures { IfOk result (λ all. numbers_in words.old ≡ ids_if all numbers.new.items) }
{
    while let Some(word) = words.next() {
        let Some(number) = number_of(word) else {
            return Ok(false);
        };
        numbers.push(number)?;
    }
    Ok(true)
}

// The ids of a reply; whether it is one of a wait for all.
fn read_reply(words: &mut Words, ids: &mut Vec<u64>) -> Result<bool, AllocError>
    requires { ids.old.items ≡ [] }
    ensures { IfOk result (λ told. ids_in words.old ≡ ids_if told ids.new.items) }
{
    let Some(word) = words.next() else {
        return Ok(false);
    };
    if !is_word(word, b"ids") {
        return Ok(true);
    }
    read_numbers(words, ids)
}

/// Reads the ids that the last step of a wait for all was told; false where the wait goes on.
///
/// # Errors
/// `AllocError` where memory is refused.
pub(crate) fn read_ids(answer: &[u8], ids: &mut Vec<u64>) -> Result<bool, AllocError>
    ensures { IfOk result (λ told. (text : List ℕ) → answer.now ≡ text ++ 10 ∷ []
        → told_ids text ≡ ids_if told ids.new.items) }
{
    ids.clear();
    match reply_of(answer) {
        Some(mut words) => read_reply(&mut words, ids),
        None => Ok(false),
    }
}
