//! The optional parts of calls, in their order.
ghost use Rattle.std.specs.Prelude.{◌≡◌, ℕ, IfOk, List, Option};
ghost use Rattle.std.specs.Option.{option_map};
ghost use Rattle.script_grammar.specs.LineReading.{read_board, read_limit, read_limits, read_needs, read_pair, read_parts};
ghost use Rattle.script_grammar.specs.TokenReading.{first_by, read_attribute_key};
ghost use Rattle.script_parse.specs.Tokens.{left_behind, rest_where, with_rest};

use crate::tokens::Tokens;
use board_layout::Text;
use board_model::{Attribute, AttributeKeys, Attributes, KeyType, Limits, Name, Requirements};
use std::alloc::{AllocError, Global};

// A call has no more attributes, needs or needed keys than these.
const MOST_PARTS: usize = 8;

impl<'a> Tokens<'a> {
    // A limit, where its word stands.
    #[tactic(auto, unfolding(script_grammar::specs::LineReading::read_limit))]
    pub(crate) fn limit(&mut self, word: &[u8]) -> Option<Option<u64>>
        ensures { with_rest result self.new ≡ read_limit word.now self.old }
    {
        if !self.take_word(word) {
            return Some(None);
        }
        Some(Some(self.number()?))
    }

    #[tactic(auto, unfolding(script_grammar::specs::LineReading::read_limits))]
    fn limits(&mut self) -> Option<Limits>
        ensures { with_rest result self.new ≡ read_limits self.old }
    {
        let max_readers = self.limit(b"readers")?;
        let max_nodes = self.limit(b"nodes")?;
        Some(Limits {
            max_readers,
            max_nodes,
        })
    }

    // What `create` and `open` begin with: the factory's name, the board's, the type of the keys and the limits.
    #[tactic(auto, unfolding(script_grammar::specs::LineReading::read_board))]
    pub(crate) fn board(&mut self) -> Option<(Name, Text<255>, KeyType, Limits)>
        ensures { with_rest result self.new ≡ read_board self.old }
    {
        let factory = self.name()?;
        let name = self.board_name()?;
        let key_type = self.key_type()?;
        let limits = self.limits()?;
        Some((factory, name, key_type, limits))
    }

    #[tactic(auto, unfolding(script_grammar::specs::LineReading::read_pair))]
    fn pair(&mut self) -> Option<Attribute>
        ensures { with_rest result self.new ≡ read_pair self.old }
    {
        let key = self.attribute_key()?;
        let value = self.attribute_value()?;
        Some(Attribute { key, value })
    }
}

// A part of a call that may come many times, each time behind its word.
pub(crate) trait Part: Copy {
    ghost read: { List (List ℕ) → Option (Self × List (List ℕ)) };

    fn take(tokens: &mut Tokens) -> Option<Self>
        ensures { with_rest result tokens.new ≡ read tokens.old };
}

impl Part for Attribute {
    ghost read = { read_pair };

    fn take(tokens: &mut Tokens) -> Option<Self> {
        tokens.pair()
    }
}

impl Part for Text<64> {
    ghost read = { first_by read_attribute_key };

    fn take(tokens: &mut Tokens) -> Option<Self> {
        tokens.attribute_key()
    }
}

// The parts behind this word. Only their list takes memory.
fn parts_of<P: Part>(
    alloc: Global,
    word: &[u8],
    tokens: &mut Tokens,
) -> Result<Option<Vec<P>>, AllocError>
    ensures { IfOk result (λ o. with_rest (option_map (λ parts. parts.items) o) tokens.new
        ≡ read_parts 8 word.now P.read tokens.old) }
{
    let mut parts = Vec::new(alloc);
    while parts.len() < MOST_PARTS {
        if !tokens.take_word(word) {
            break;
        }
        let Some(part) = P::take(tokens) else {
            return Ok(None);
        };
        parts.push(part)?;
    }
    Ok(Some(parts))
}

// Passes over the parts behind this word, as far as they are parts. Takes no memory.
pub(crate) fn skip_parts<P: Part>(word: &[u8], tokens: &mut Tokens) -> bool
    ensures { rest_where result tokens.new
        ≡ left_behind (read_parts 8 word.now P.read tokens.old) }
{
    for _n in 0..MOST_PARTS {
        if !tokens.take_word(word) {
            return true;
        }
        if P::take(tokens).is_none() {
            return false;
        }
    }
    true
}

// The pairs of attributes, each behind the word.
pub(crate) fn attributes_of(
    alloc: Global,
    word: &[u8],
    tokens: &mut Tokens,
) -> Result<Option<Attributes>, AllocError>
    ensures { IfOk result (λ o. with_rest o tokens.new
        ≡ read_parts 8 word.now read_pair tokens.old) }
{
    let Some(pairs) = parts_of::<Attribute>(alloc, word, tokens)? else {
        return Ok(None);
    };
    Ok(Some(Attributes::from_vec(pairs)))
}

#[tactic(auto, unfolding(script_grammar::specs::LineReading::read_needs))]
pub(crate) fn needs_of(
    alloc: Global,
    tokens: &mut Tokens,
) -> Result<Option<Requirements>, AllocError>
    ensures { IfOk result (λ o. with_rest o tokens.new ≡ read_needs tokens.old) }
{
    let Some(pairs) = attributes_of(alloc, b"need", tokens)? else {
        return Ok(None);
    };
    let Some(keys) = parts_of::<Text<64>>(alloc, b"needkey", tokens)? else {
        return Ok(None);
    };
    let keys = AttributeKeys::from_vec(keys);
    Ok(Some(Requirements { pairs, keys }))
}
