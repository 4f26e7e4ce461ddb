//! The tokens of a text, taken from the front.
ghost use Rattle.std.specs.Prelude.{◌≡◌, ◌==◌, ◌∷◌, [], IfNone, MatchOption, drop, length, take};
ghost use Rattle.std.specs.Bool.{OnTrue};
ghost use Rattle.std.specs.List.{slice_split};
ghost use Rattle.script_grammar.specs.LineReading.{begins_with};
ghost use Rattle.script_grammar.specs.TokenReading.{is_end};
ghost use Rattle.script_rules.specs.AnswerGroups.{before_reply, same_tokens};
ghost use Rattle.script_answers.specs.AnswerReading.{first_is, is_number, labelled};

use crate::bytes::{is_number, is_word};
use script_parse::cut;
use std::marker::Model;

// The parts that are left of a text, up to so many.
#[derive(Drop)]
pub(crate) struct Tokens<'a> {
    rest: Option<&'a [u8]>,
    separator: u8,
    most: usize,
}

impl<'a> Model for Tokens<'a> {
    ghost use Rattle.std.specs.Prelude.{List, take, ℕ};
    ghost use Rattle.script_parse.specs.Tokens.{parts_left};

    ghost Value = { List (List ℕ) };

    ghost view = { λ t. take t.most (parts_left t.separator t.rest) };
}

impl<'a> Tokens<'a> {
    // The parts of the text between its separators.
    pub(crate) fn between(text: &'a [u8], separator: u8) -> Tokens<'a>
        ensures { result ≡ slice_split (λ b. b == separator) text.now }
    {
        Tokens {
            rest: Some(text),
            separator,
            most: text.len() + 1,
        }
    }

    // No parts.
    pub(crate) fn none() -> Tokens<'a>
        ensures { result ≡ [] }
    {
        Tokens {
            rest: None,
            separator: b' ',
            most: 0,
        }
    }

    // The first parts, so many of them.
    pub(crate) fn first(&self, count: usize) -> Tokens<'a>
        ensures { result ≡ take count self.now }
    {
        Tokens {
            rest: self.rest,
            separator: self.separator,
            most: self.most.min(count),
        }
    }

    // The same parts, to be taken once more.
    pub(crate) fn again(&self) -> Tokens<'a>
        ensures { result ≡ self.now }
    {
        Tokens {
            rest: self.rest,
            separator: self.separator,
            most: self.most,
        }
    }

    // Takes the first part.
    pub(crate) fn next(&mut self) -> Option<&'a [u8]>
        ensures first { MatchOption result (self.old ≡ []) (λ token. self.old ≡ token.now ∷ self.new) }
        ensures end { IfNone result (self.new ≡ []) }
    {
        if self.most == 0 {
            return None;
        }
        let (token, rest) = cut(self.rest?, self.separator);
        self.rest = rest;
        self.most -= 1;
        Some(token)
    }

    // The parts behind the first ones, so many of them.
    pub(crate) fn behind(&self, count: usize) -> Tokens<'a>
        ensures { result ≡ drop count self.now }
    {
        let mut left = self.again();
        let mut more = count;
        while more > 0 && left.next().is_some() {
            more -= 1;
        }
        left
    }

    // Whether no part is left.
    pub(crate) fn is_end(&self) -> bool
        ensures { result ≡ is_end self.now }
    {
        self.most == 0 || self.rest.is_none()
    }

    // Whether the first part is the word.
    pub(crate) fn begins_with(&self, word: &[u8]) -> bool
        ensures { result ≡ begins_with word.now self.now }
    {
        match self.again().next() {
            Some(token) => is_word(token, word),
            None => false,
        }
    }

    // Takes the first part, and tells whether it is the word.
    pub(crate) fn take_word(&mut self, word: &[u8]) -> bool
        ensures begins { result ≡ begins_with word.now self.old }
        ensures rest { self.new ≡ drop 1 self.old }
    {
        match self.next() {
            Some(token) => is_word(token, word),
            None => false,
        }
    }

    // Takes the first part, and tells whether it is a number.
    pub(crate) fn take_number(&mut self) -> bool
        ensures begins { result ≡ first_is is_number self.old }
        ensures rest { self.new ≡ drop 1 self.old }
    {
        match self.next() {
            Some(token) => is_number(token),
            None => false,
        }
    }

    // Whether the next parts are the word and a number, which it takes then.
    #[tactic(auto, unfolding(crate::specs::AnswerReading::labelled))]
    pub(crate) fn take_labelled(&mut self, word: &[u8]) -> bool
        ensures begins { result ≡ labelled word.now self.old }
        ensures rest { OnTrue result (self.new ≡ drop 1 (drop 1 self.old)) }
    {
        self.take_word(word) && self.take_number()
    }

    // How many parts stand before the one that begins a reply.
    pub(crate) fn count_before_reply(&self) -> usize
        ensures { result ≡ length (before_reply self.now) }
    {
        let most = self.most;
        let mut left = self.again();
        for count in 0..most {
            match left.next() {
                Some(token) if !is_word(token, b"=") => {}
                _ => return count,
            }
        }
        most
    }

    // Whether these are the same tokens.
    pub(crate) fn are_same(&self, other: &Tokens) -> bool
        ensures { result ≡ same_tokens self.now other.now }
    {
        let mut left = self.again();
        let mut others = other.again();
        while let Some(token) = left.next() {
            match others.next() {
                Some(one) if is_word(token, one) => {}
                _ => return false,
            }
        }
        others.is_end()
    }
}
