//! Lists that contracts see as lists.
ghost use Rattle.std.specs.Prelude.{◌≡◌, IfOk};

use crate::attributes::Attribute;
use crate::tables::Entry;
use crate::value::{AddedEntry, Key};
use board_layout::Text;
use std::alloc::{AllocError, Global};
use std::marker::Model;

/// A name of at most 255 bytes, seen as its bytes. It lies in memory of its own, so that lines and answers stay short.
#[derive(Drop, Debug)]
pub struct LongName {
    text: Box<Text<255>>,
}

impl Model for LongName {
    ghost use Rattle.std.specs.Prelude.{List, ℕ};
    ghost use Rattle.std.specs.Box.{box_value};

    ghost Value = { List ℕ };

    ghost view = { λ t. box_value t.text };
}

impl LongName {
    /// A name of this text.
    ///
    /// # Errors
    /// `AllocError` where memory is refused.
    pub fn new(alloc: Global, text: Text<255>) -> Result<LongName, AllocError>
        ensures { IfOk result (λ name. name ≡ text) }
    {
        Ok(LongName {
            text: Box::new(alloc, text)?,
        })
    }

    /// The name as a text.
    pub fn as_text(&self) -> &Text<255>
        ensures { result.now ≡ self.now }
    {
        &*self.text
    }
}

/// A list, seen as the list of its items.
#[derive(Drop, Debug)]
pub struct Items<T> {
    items: Vec<T>,
}

impl<T> Model for Items<T> {
    ghost use Rattle.std.specs.Prelude.{List};
    ghost use Rattle.std.specs.Coded.{coded_list};

    ghost Value = { List T };

    ghost coded = { coded_list T.code };

    ghost view = { λ t. t.items.items };
}

impl<T> Items<T> {
    /// The list of these items.
    pub fn from_vec(items: Vec<T>) -> Items<T>
        ensures { result ≡ items.items }
    {
        Items { items }
    }

    /// The items, in order.
    pub fn as_slice(&self) -> &[T]
        ensures { result.now ≡ self.now }
    {
        self.items.as_slice()
    }

    /// The items, in order.
    pub fn into_vec(self) -> Vec<T>
        ensures { result.items ≡ self }
    {
        let Items { items } = self;
        items
    }
}

/// Words of 64 bits.
pub type Words = Items<u64>;

/// The entries that a new board is to have, in the order of adding.
pub type AddedEntries = Items<AddedEntry>;

/// The entries of a board, in the order of adding.
pub type Entries = Items<Entry>;

/// Keys.
pub type Keys = Items<Key>;

/// Names of parties.
pub type Names = Items<Text<16>>;

/// The attributes of a board.
pub type Attributes = Items<Attribute>;

/// Keys of attributes.
pub type AttributeKeys = Items<Text<64>>;
