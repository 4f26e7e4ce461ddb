//! What is listed of a board.
ghost use Rattle.std.specs.Prelude.{◌≡◌, IfOk, Some, map};
ghost use Rattle.board_model.specs.Replies as replies;
ghost use Rattle.board_model.specs.TypeTable.{key_shown};

use crate::named::NamedThings;
use board_model::{Board, Entry, Info, KeyType, Keys, LongName, key_of, key_type_of};
use std::alloc::{AllocError, Global};

/// The keys of entries, in the order of adding.
pub fn keys_of(alloc: Global, key_type: KeyType, entries: &[Entry]) -> Result<Keys, AllocError>
    ensures { IfOk result (λ keys. keys ≡ map (key_shown key_type) entries.now) }
{
    let mut keys = Vec::with_capacity(alloc, entries.len())?;
    for entry in entries {
        keys.push(key_of(key_type, &entry.key))?;
    }
    Ok(Keys::from_vec(keys))
}

/// The limits of a board, how many entries and attributes it has, and what is taken of it.
pub fn info_of(alloc: Global, board: &Board, things: &NamedThings) -> Result<Info, AllocError>
    ensures { IfOk result (λ info. info ≡ replies.info_of things.now (Some board.now)) }
{
    let name = LongName::new(alloc, board.name)?;
    Ok(Info {
        name,
        key_type: key_type_of(&board.key),
        max_readers: board.max_readers,
        max_nodes: board.max_nodes,
        max_writers: board.max_writers,
        entries: board.entries.as_slice().len() as u64,
        attributes: board.attributes.as_slice().len() as u64,
        readers: things.reader_slots(board.number),
        writers: things.writer_slots(board.number),
        nodes: things.nodes_taken(board.number),
    })
}
