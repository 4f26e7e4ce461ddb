//! A domain under its lock, the ports of its boards, and the handles of entries that they make.
//!
//! `DomainState` is what stands behind the lock: the tables with the cells of each board, and the number of the last
//! node. `Domain` is a shared owner of it, and each typed value has one. A typed call takes the lock and calls its lent
//! form, whose name ends in `_in` and whose contract says the answers: those of the tables' calls one after another,
//! with what becomes of the cells' ends (`specs/LentForms`).
//!
//! What stands behind the lock is known by its type alone. So a call on a thing first asks whether that thing is held,
//! and answers `ThingUnknown` where it isn't. Where the typed calls alone are used, it never isn't: a builder of ports
//! borrows the factory that it makes them of (`typed_calls_alone`, of the lent forms).
//!
//! A handle has an end of its entry's cell. Its calls take no lock, no memory and wait for nobody (`specs/Handles`), but
//! `get`, which may wait for a writer, `release`, which locks, and `sent_receipt`, which takes one more owner of the cell.
#![tactic(auto)]

mod blackboard_value;
mod board_ends;
mod domain;
mod loan;
mod port_ids;
mod read_handle;
mod reader;
mod release;
mod state;
mod width;
mod write_handle;
mod writer;
mod writing;

pub use blackboard_value::BlackboardValue;
pub use board_cells::{BoardCells, ReadEnd, SentReceipt, WriteEnd};
pub use domain::Domain;
pub use loan::EntryValueUninit;
pub use port_ids::{UniqueReaderId, UniqueWriterId};
pub use read_handle::EntryHandle;
pub use reader::{PortFactoryReader, Reader};
pub use release::give_up;
pub use state::DomainState;
pub use write_handle::EntryHandleMut;
pub use writer::{PortFactoryWriter, Writer};
