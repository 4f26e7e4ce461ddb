//! Whether the attributes of a board are those that an opener needs.
ghost use Rattle.std.specs.Prelude.{◌≡◌};
ghost use Rattle.std.specs.List.{list_all};
ghost use Rattle.board_model.specs.Tables as tables;

use board_layout::Text;
use board_model::{Attribute, Requirements};

// Whether one of the attributes is this pair.
fn has_pair(attributes: &[Attribute], pair: &Attribute) -> bool
    ensures { result ≡ tables.has_pair attributes.now pair.now }
{
    attributes
        .iter()
        .any(|other| other.key == pair.key && other.value == pair.value)
}

// Whether one of the attributes has this key.
fn has_key(attributes: &[Attribute], key: &Text<64>) -> bool
    ensures { result ≡ tables.has_attribute attributes.now key.now }
{
    attributes.iter().any(|other| other.key == *key)
}

fn has_pairs(attributes: &[Attribute], pairs: &[Attribute]) -> bool
    ensures { result ≡ list_all (tables.has_pair attributes.now) pairs.now }
{
    pairs.iter().all(|pair| has_pair(attributes, pair))
}

fn has_keys(attributes: &[Attribute], keys: &[Text<64>]) -> bool
    ensures { result ≡ list_all (tables.has_attribute attributes.now) keys.now }
{
    keys.iter().all(|key| has_key(attributes, key))
}

/// Whether the attributes have each pair and each key that is needed.
pub fn meets(needs: &Requirements, attributes: &[Attribute]) -> bool
    ensures { result ≡ tables.meets needs.now attributes.now }
{
    has_pairs(attributes, needs.pairs.as_slice()) && has_keys(attributes, needs.keys.as_slice())
}
