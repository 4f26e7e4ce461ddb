//! The lines of a script.
use crate::attributes::Requirements;
use crate::lists::{AddedEntries, Attributes, LongName};
use crate::tables::{Limits, NewLimits};
use crate::value::{Key, KeyType, Value, ValueType};
use board_layout::Text;

/// The name of a party or a thing, 1 to 16 bytes.
pub type Name = Text<16>;

/// The name of a board, 1 to 255 bytes.
pub type BoardName = LongName;

/// What a party asks for.
#[derive(Drop, Debug)]
pub enum Call {
    /// Makes a board.
    Create {
        /// The name of the factory.
        factory: Name,
        /// The board's name.
        name: BoardName,
        /// The type of its keys.
        key_type: KeyType,
        /// What it is to allow.
        limits: NewLimits,
        /// Its attributes.
        attributes: Attributes,
        /// Its entries, in this order.
        entries: AddedEntries,
    },
    /// Opens one.
    Open {
        /// The name of the factory.
        factory: Name,
        /// The board's name.
        name: BoardName,
        /// The type of its keys.
        key_type: KeyType,
        /// What it is to allow at least.
        limits: Limits,
        /// What is needed of its attributes.
        needs: Requirements,
    },
    /// Makes a reader of a board.
    Reader {
        /// The name of the reader.
        reader: Name,
        /// The name of the factory.
        factory: Name,
    },
    /// Makes a writer of a board.
    Writer {
        /// The name of the writer.
        writer: Name,
        /// The name of the factory.
        factory: Name,
    },
    /// Makes a read handle of an entry.
    Entry {
        /// The name of the handle.
        handle: Name,
        /// The name of the reader.
        reader: Name,
        /// The entry's key.
        key: Key,
        /// The type of its values.
        value_type: ValueType,
    },
    /// Makes the write handle of an entry.
    EntryMut {
        /// The name of the handle.
        handle: Name,
        /// The name of the writer.
        writer: Name,
        /// The entry's key.
        key: Key,
        /// The type of its values.
        value_type: ValueType,
    },
    /// Reads a value.
    Get {
        /// The name of the handle.
        handle: Name,
        /// The name under which the value is kept, if it is.
        value: Option<Name>,
    },
    /// Asks whether a value that was kept is still the last.
    Fresh {
        /// The name of the handle.
        handle: Name,
        /// The name of the value that was kept.
        value: Name,
    },
    /// Publishes a value.
    Update {
        /// The name of the handle.
        handle: Name,
        /// The value.
        value: Value,
    },
    /// Turns a write handle into a loan.
    Loan {
        /// The name of the loan.
        loan: Name,
        /// The name of the handle.
        handle: Name,
    },
    /// Turns a loan back, and publishes nothing.
    Discard {
        /// The name of the loan.
        loan: Name,
        /// The name of the handle.
        handle: Name,
    },
    /// Puts a word of a loan.
    Put {
        /// The name of the loan.
        loan: Name,
        /// Which word of the value.
        index: u64,
        /// What it is to be.
        word: u64,
    },
    /// Publishes what was put in a loan, and turns it back.
    Publish {
        /// The name of the loan.
        loan: Name,
        /// The name of the handle.
        handle: Name,
    },
    /// Publishes a value by a loan, and turns it back.
    Fill {
        /// The name of the loan.
        loan: Name,
        /// The name of the handle.
        handle: Name,
        /// The value.
        value: Value,
    },
    /// Lists the keys of a board.
    Keys {
        /// The name of the factory.
        factory: Name,
    },
    /// Lists the parties with a thing of a board.
    Nodes {
        /// The name of the factory.
        factory: Name,
    },
    /// Asks what a board is and how much of it is taken.
    Info {
        /// The name of the factory.
        factory: Name,
    },
    /// Asks for the id of a handle's entry.
    Id {
        /// The name of the thing.
        thing: Name,
    },
    /// Asks for the generation of the entry of a write handle.
    Gen {
        /// The name of the handle.
        handle: Name,
    },
}

/// A line of a script.
#[derive(Drop, Debug)]
pub enum Line {
    /// The party begins a call.
    Begin { party: Name, call: Call },
    /// The party's call makes its next access.
    Step { party: Name },
    /// The party gives up a thing.
    Release { party: Name, thing: Name },
    /// The party is abandoned, wherever it stands.
    Abandon { party: Name },
    /// The words of a board are listed.
    Words { board: u64 },
}
