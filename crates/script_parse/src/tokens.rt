//! The parts of a text, taken from the front.
ghost use Rattle.std.specs.Prelude.{◌≡◌, ◌==◌, ◌∷◌, [], MatchOption, drop, if◌then◌else◌};
ghost use Rattle.std.specs.List.{slice_split};
ghost use Rattle.std.specs.Option.{is_some};
ghost use Rattle.script_grammar.specs.LineReading.{begins_with};
ghost use Rattle.script_grammar.specs.TokenReading.{first_by, is_end, read_attribute_key, read_attribute_value, read_board_name, read_key, read_key_type, read_name, read_number, read_value_type};
ghost use Rattle.script_parse.specs.Tokens.{parts_left, with_rest};

use crate::atoms::{key_of, key_type_of, name_of, number_of, value_type_of, visible_of};
use crate::bytes::{is_word, place_of};
use board_layout::Text;
use board_model::{Key, KeyType, Name, ValueType};
use std::marker::Model;

// The parts that are left of a text.
#[derive(Drop)]
pub(crate) struct Tokens<'a> {
    rest: Option<&'a [u8]>,
    separator: u8,
}

impl<'a> Model for Tokens<'a> {
    ghost use Rattle.std.specs.Prelude.{List, ℕ};
    ghost use Rattle.script_parse.specs.Tokens.{parts_left};

    ghost Value = { List (List ℕ) };

    ghost view = { λ t. parts_left t.separator t.rest };
}

/// The text up to the first separator, and the text behind it, if there is one.
pub fn cut<'a>(text: &'a [u8], separator: u8) -> (&'a [u8], Option<&'a [u8]>)
    ensures { slice_split (λ b. b == separator) text.now
        ≡ result.0.now ∷ parts_left separator result.1 }
{
    match place_of(text, separator) {
        None => (text, None),
        Some(at) => (&text[..at], Some(&text[at + 1..])),
    }
}

impl<'a> Tokens<'a> {
    // The parts of the text between its separators.
    pub(crate) fn between(text: &'a [u8], separator: u8) -> Tokens<'a>
        ensures { result ≡ slice_split (λ b. b == separator) text.now }
    {
        Tokens {
            rest: Some(text),
            separator,
        }
    }

    // The same parts, to be taken once more.
    pub(crate) fn again(&self) -> Tokens<'a>
        ensures { result ≡ self.now }
    {
        Tokens {
            rest: self.rest,
            separator: self.separator,
        }
    }

    // Takes the first part.
    pub(crate) fn next(&mut self) -> Option<&'a [u8]>
        ensures { MatchOption result (self.old ≡ []) (λ token. self.old ≡ token.now ∷ self.new) }
    {
        let (token, rest) = cut(self.rest?, self.separator);
        self.rest = rest;
        Some(token)
    }

    // Whether no part is left.
    pub(crate) fn is_end(&self) -> bool
        ensures { result ≡ is_end self.now }
    {
        self.rest.is_none()
    }

    // Goes on where no part is left.
    pub(crate) fn end(&self) -> Option<()>
        ensures { is_some result ≡ is_end self.now }
    {
        if self.is_end() {
            return Some(());
        }
        None
    }

    // Takes the first part where it is the word.
    pub(crate) fn take_word(&mut self, word: &[u8]) -> bool
        ensures begins { result ≡ begins_with word.now self.old }
        ensures rest { self.new ≡ (if result then drop 1 self.old else self.old) }
    {
        let Some(rest) = self.rest else {
            return false;
        };
        let (token, behind) = cut(rest, self.separator);
        if !is_word(token, word) {
            return false;
        }
        self.rest = behind;
        true
    }

    pub(crate) fn number(&mut self) -> Option<u64>
        ensures { with_rest result self.new ≡ first_by read_number self.old }
    {
        number_of(self.next()?)
    }

    pub(crate) fn name(&mut self) -> Option<Name>
        ensures { with_rest result self.new ≡ first_by read_name self.old }
    {
        name_of(self.next()?)
    }

    #[tactic(auto, unfolding(script_grammar::specs::TokenReading::read_board_name))]
    pub(crate) fn board_name(&mut self) -> Option<Text<255>>
        ensures { with_rest result self.new ≡ first_by read_board_name self.old }
    {
        visible_of(self.next()?)
    }

    #[tactic(auto, unfolding(script_grammar::specs::TokenReading::read_attribute_key))]
    pub(crate) fn attribute_key(&mut self) -> Option<Text<64>>
        ensures { with_rest result self.new ≡ first_by read_attribute_key self.old }
    {
        visible_of(self.next()?)
    }

    #[tactic(auto, unfolding(script_grammar::specs::TokenReading::read_attribute_value))]
    pub(crate) fn attribute_value(&mut self) -> Option<Text<256>>
        ensures { with_rest result self.new ≡ first_by read_attribute_value self.old }
    {
        visible_of(self.next()?)
    }

    pub(crate) fn key_type(&mut self) -> Option<KeyType>
        ensures { with_rest result self.new ≡ first_by read_key_type self.old }
    {
        key_type_of(self.next()?)
    }

    pub(crate) fn value_type(&mut self) -> Option<ValueType>
        ensures { with_rest result self.new ≡ first_by read_value_type self.old }
    {
        value_type_of(self.next()?)
    }

    pub(crate) fn key(&mut self) -> Option<Key>
        ensures { with_rest result self.new ≡ first_by read_key self.old }
    {
        key_of(self.next()?)
    }
}
