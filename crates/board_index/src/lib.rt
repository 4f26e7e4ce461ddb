//! The boards of a domain by their numbers and names, each with its cells.
//!
//! `Boards<C>` keep the boards and their cells under the boards' numbers, and the numbers under the boards' names, so
//! that nothing goes over the boards: to look one up, to add one and to take one out cost the same however many stand.
//! Contracts see the boards as a list in the order of making, and their cells as a list beside it; `specs/Boards` says how
//! the maps give them. The maps hash by std's default hasher, whose seed is fixed: whoever chooses the names of boards can
//! choose many that are hashed alike, and then a name is looked up as slowly as in a list of those, and found all the same.
//! A board's row lies on the heap, and its name is a key by as many bytes as it has, since a map has more places than rows.
//! In the row, too, a board's name and those of its types have as many bytes as they need.
//!
//! A board of many entries has an index of its keys besides, by their bytes (`key_places`, `specs/KeyPlaces`), for callers
//! whose type says that keys which are equal have the same bytes. It is made with the board, where there is memory for it,
//! and hashes as the other maps do: whoever chooses the keys of a board can choose many that fall together, and these are
//! found as slowly as in a list.
#![tactic(auto)]

mod board_row;
mod boards;
mod entry_row;
mod kept_type;
mod key_places;
mod new_board;

pub use board_row::{BoardParts, BoardRow};
pub use boards::Boards;
pub use entry_row::EntryRow;
pub use kept_type::KeptType;
pub use new_board::NewBoard;
