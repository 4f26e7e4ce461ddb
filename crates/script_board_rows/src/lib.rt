//! What a checker of sessions keeps of a board and of the calls on it, tied to the definitions.
//!
//! `specs/CellCalls` says how far a get and a publication are, `specs/NewBoards` what a new board begins with, and
//! `specs/Found` which entry a key finds. Nothing of a domain and no call core is used. `script_board_tables` holds these
//! by the number of a board.
#![tactic(auto)]

mod attributes;
mod cell_calls;
mod keys;
mod new_board;

pub use attributes::meets;
pub use cell_calls::{Reading, Written, current_at, heard, spare_at, word_to_read, word_to_write};
pub use keys::{find, has_equal_keys};
pub use new_board::{Opening, open};
