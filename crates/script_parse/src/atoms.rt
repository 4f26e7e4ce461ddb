//! Names, numbers, types and keys, each from one token.
ghost use Rattle.std.specs.Prelude.{◌≡◌, ◌≤◌, ◌-◌, ◌∷◌, [], Some, length};
ghost use Rattle.std.specs.Char.{is_ascii_digit};
ghost use Rattle.std.specs.List.{list_all};
ghost use Rattle.board_model.specs.LineGrammar.{is_name, is_name_byte, is_visible, is_visible_byte};
ghost use Rattle.script_grammar.specs.TokenReading.{guard, is_plain_numeral, read_digits, read_key, read_key_type, read_name, read_number, read_value_type};

use crate::bytes::{beside, bytes_behind};
use board_layout::Text;
use board_model::{Key, KeyType, Name, ValueType};

// A number of so many digits has at most 64 bits.
const FEW_DIGITS: usize = 19;

// A number up to this one has at most 64 bits with any digit behind it.
const MOST_BEFORE_DIGIT: u64 = 1844674407370955160;

fn has_name_bytes(text: &[u8]) -> bool
    ensures { result ≡ list_all is_name_byte text.now }
{
    text.iter().all(|b| is_name_byte(*b))
}

fn has_visible_bytes(text: &[u8]) -> bool
    ensures { result ≡ list_all is_visible_byte text.now }
{
    text.iter().all(|b| *b >= b'!' && *b <= b'~')
}

fn is_name(text: &[u8]) -> bool
    ensures { result ≡ is_name text.now }
{
    if text.is_empty() || text.len() > 16 {
        return false;
    }
    has_name_bytes(text)
}

// Whether these are 1 to so many visible bytes.
pub(crate) fn is_visible(text: &[u8], most: usize) -> bool
    ensures { result ≡ is_visible most text.now }
{
    if text.is_empty() || text.len() > most {
        return false;
    }
    has_visible_bytes(text)
}

fn is_name_byte(b: u8) -> bool
    ensures { result ≡ is_name_byte b }
{
    (b >= b'a' && b <= b'z') || (b >= b'0' && b <= b'9')
}

// A name of any length.
#[tactic(auto, unfolding(script_grammar::specs::TokenReading::read_name))]
fn name_by_bytes(text: &[u8]) -> Option<Name>
    ensures { result ≡ read_name text.now }
{
    if !is_name(text) {
        return None;
    }
    Some(Text::of(text))
}

#[inline(always)]
#[tactic(auto, unfolding(script_grammar::specs::TokenReading::read_name))]
fn name_of_one(a: u8) -> Option<Name>
    ensures { result ≡ read_name (a ∷ []) }
{
    if is_name_byte(a) {
        return Some(Text::of_few([a, 0, 0, 0, 0, 0, 0, 0], 1));
    }
    None
}

#[inline(always)]
#[tactic(auto, unfolding(script_grammar::specs::TokenReading::read_name))]
fn name_of_two(a: u8, b: u8) -> Option<Name>
    ensures { result ≡ read_name (a ∷ b ∷ []) }
{
    if is_name_byte(a) && is_name_byte(b) {
        return Some(Text::of_few([a, b, 0, 0, 0, 0, 0, 0], 2));
    }
    None
}

#[inline(always)]
#[tactic(auto, unfolding(script_grammar::specs::TokenReading::read_name))]
fn name_of_three(a: u8, b: u8, c: u8) -> Option<Name>
    ensures { result ≡ read_name (a ∷ b ∷ c ∷ []) }
{
    if is_name_byte(a) && is_name_byte(b) && is_name_byte(c) {
        return Some(Text::of_few([a, b, c, 0, 0, 0, 0, 0], 3));
    }
    None
}

// A name, where it is one. Those of up to three bytes, as most are, are looked at and copied without a loop.
#[inline(always)]
pub(crate) fn name_of(text: &[u8]) -> Option<Name>
    ensures { result ≡ read_name text.now }
{
    match text {
        [a] => name_of_one(*a),
        [a, b] => name_of_two(*a, *b),
        [a, b, c] => name_of_three(*a, *b, *c),
        _ => name_by_bytes(text),
    }
}

// The text, where it is 1 to so many visible bytes.
pub(crate) fn visible_of<const N: usize>(text: &[u8]) -> Option<Text<N>>
    ensures { result ≡ guard (is_visible N text.now) (Some text.now) }
{
    if !is_visible(text, N) {
        return None;
    }
    Some(Text::of(text))
}

// One digit, or no leading zero.
fn is_plain(text: &[u8]) -> bool
    ensures { result ≡ is_plain_numeral text.now }
{
    match text {
        [] => false,
        [_] => true,
        [first, ..] => *first != b'0',
    }
}

// The value of a digit.
#[inline(always)]
fn digit_of(b: u8) -> Option<u64>
    ensures { result ≡ guard (is_ascii_digit b) (Some (b - 48)) }
{
    if b < b'0' || b > b'9' {
        return None;
    }
    Some(u64::from(b - b'0'))
}

// The value of digits that are so few that it has at most 64 bits. They are read by twos.
fn few_digits_value(text: &[u8]) -> Option<u64>
    requires { length text.now ≤ FEW_DIGITS }
    ensures { result ≡ read_digits text.now }
{
    let mut n: u64 = 0;
    let mut left = text;
    while let [a, b, rest @ ..] = left {
        n = 10 * n + digit_of(*a)?;
        n = 10 * n + digit_of(*b)?;
        left = rest;
    }
    match left {
        [last] => Some(10 * n + digit_of(*last)?),
        _ => Some(n),
    }
}

// The value of digits, where it has at most 64 bits.
#[inline(never)]
fn digits_value(text: &[u8]) -> Option<u64>
    ensures { result ≡ read_digits text.now }
{
    let mut n: u64 = 0;
    for b in text {
        if *b < b'0' || *b > b'9' {
            return None;
        }
        let digit = u64::from(*b - b'0');
        if n > MOST_BEFORE_DIGIT && n > (u64::MAX - digit) / 10 {
            return None;
        }
        n = 10 * n + digit;
    }
    Some(n)
}

/// A decimal number of at most 64 bits, without leading zeros.
#[tactic(auto, unfolding(script_grammar::specs::TokenReading::read_number))]
pub fn number_of(text: &[u8]) -> Option<u64>
    ensures { result ≡ read_number text.now }
{
    if !is_plain(text) {
        return None;
    }
    if text.len() <= FEW_DIGITS {
        return few_digits_value(text);
    }
    digits_value(text)
}

#[tactic(auto, unfolding(script_grammar::specs::TokenReading::read_key_type))]
pub(crate) fn key_type_of(text: &[u8]) -> Option<KeyType>
    ensures { result ≡ read_key_type text.now }
{
    beside(text, &[(b"u64", KeyType::U64), (b"f8", KeyType::F8)])
}

#[tactic(auto, unfolding(script_grammar::specs::TokenReading::read_value_type))]
pub(crate) fn value_type_of(text: &[u8]) -> Option<ValueType>
    ensures { result ≡ read_value_type text.now }
{
    beside(
        text,
        &[
            (b"bool", ValueType::Bool),
            (b"u64", ValueType::U64),
            (b"q4", ValueType::Q4),
        ],
    )
}

#[tactic(auto, unfolding(script_grammar::specs::TokenReading::read_key, script_grammar::specs::TokenReading::read_key_behind))]
pub(crate) fn key_of(text: &[u8]) -> Option<Key>
    ensures { result ≡ read_key text.now }
{
    match bytes_behind(text, b"u64:") {
        Some(digits) => Some(Key::U64(number_of(digits)?)),
        None => Some(Key::F8(visible_of(bytes_behind(text, b"f8:")?)?)),
    }
}
