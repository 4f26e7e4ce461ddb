//! The words of a line, taken from the front.
ghost use Rattle.std.specs.Prelude.{◌≡◌, ◌∷◌, [], MatchOption, IfOk, true};
ghost use Rattle.std.specs.List.{list_all};
ghost use Rattle.board_model.specs.LineGrammar.{is_name, is_name_byte};
ghost use Rattle.script_grammar.specs.TokenReading.{first_by, is_end, read_name, split_tokens};
ghost use Rattle.script_feed.specs.DriveReading.{are_things, has_place_for};
ghost use Rattle.script_parse.specs.Tokens.{parts_left, with_rest};

use board_layout::Text;
use board_model::{Name, Names};
use script_exchanges::Drive;
use script_parse::place_of;
use std::alloc::{AllocError, Global};
use std::marker::Model;

/// The words that are left of a line.
#[derive(Drop)]
pub struct Words<'a> {
    rest: Option<&'a [u8]>,
}

impl<'a> Model for Words<'a> {
    ghost use Rattle.std.specs.Prelude.{List, ℕ};
    ghost use Rattle.script_parse.specs.Tokens.{parts_left};

    ghost Value = { List (List ℕ) };

    ghost view = { λ t. parts_left 32 t.rest };
}

// The most things that a line names.
const MOST_THINGS: usize = 17;

// Whether so many things may be named.
fn has_place_for(drive: Drive, things: usize) -> bool
    ensures { result ≡ has_place_for drive things }
{
    match drive {
        Drive::Snapshots => things >= 1 && things <= 16,
        Drive::Watchers => things >= 2 && things <= MOST_THINGS,
    }
}

fn has_name_bytes(text: &[u8]) -> bool
    ensures { result ≡ list_all is_name_byte text.now }
{
    text.iter().all(|b| (*b >= b'a' && *b <= b'z') || (*b >= b'0' && *b <= b'9'))
}

fn is_name(text: &[u8]) -> bool
    ensures { result ≡ is_name text.now }
{
    if text.is_empty() || text.len() > 16 {
        return false;
    }
    has_name_bytes(text)
}

// The name that the text is.
#[tactic(auto, unfolding(script_grammar::specs::TokenReading::read_name))]
fn name_of(text: &[u8]) -> Option<Name>
    ensures { result ≡ read_name text.now }
{
    if !is_name(text) {
        return None;
    }
    Some(Text::of(text))
}

// The text up to the first space, and the text behind it.
fn cut(text: &[u8]) -> (&[u8], Option<&[u8]>)
    ensures { split_tokens text.now ≡ result.0.now ∷ parts_left 32 result.1 }
{
    match place_of(text, b' ') {
        None => (text, None),
        Some(at) => (&text[..at], Some(&text[at + 1..])),
    }
}

impl<'a> Words<'a> {
    /// All words of a line.
    pub fn of(line: &'a [u8]) -> Words<'a>
        ensures { result ≡ split_tokens line.now }
    {
        Words { rest: Some(line) }
    }

    // The same words, to be taken once more.
    pub(crate) fn again(&self) -> Words<'a>
        ensures { result ≡ self.now }
    {
        Words { rest: self.rest }
    }

    /// Takes the first word.
    pub fn next(&mut self) -> Option<&'a [u8]>
        ensures { MatchOption result (self.old ≡ []) (λ word. self.old ≡ word.now ∷ self.new) }
    {
        let (word, rest) = cut(self.rest?);
        self.rest = rest;
        Some(word)
    }

    // Takes the first word, which is to be a name.
    pub(crate) fn name(&mut self) -> Option<Name>
        ensures { with_rest result self.new ≡ first_by read_name self.old }
    {
        name_of(self.next()?)
    }

    // Whether no word is left.
    pub(crate) fn is_end(&self) -> bool
        ensures { result ≡ is_end self.now }
    {
        self.rest.is_none()
    }

    // Whether all words that are left are names, and as many as may be.
    pub(crate) fn are_things(&mut self, drive: Drive) -> bool
        ensures { result ≡ are_things drive 0 self.old }
    {
        let mut count = 0;
        while let Some(word) = self.next() {
            if !is_name(word) {
                return false;
            }
            if count >= MOST_THINGS {
                return false;
            }
            count += 1;
        }
        has_place_for(drive, count)
    }

    // The names that are left.
    #[tactic(auto, unfolding(script_grammar::specs::TokenReading::read_name))]
    pub(crate) fn names(&mut self, alloc: Global) -> Result<Names, AllocError>
        requires { list_all is_name self.old ≡ true }
        ensures { IfOk result (λ names. names ≡ self.old) }
    {
        let mut names = Vec::new(alloc);
        while let Some(word) = self.next() {
            let Some(name) = name_of(word) else {
                unreachable!()
            };
            names.push(name)?;
        }
        Ok(Names::from_vec(names))
    }
}
