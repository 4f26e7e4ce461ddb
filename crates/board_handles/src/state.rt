//! What a domain keeps behind its lock.
ghost use Rattle.std.specs.Prelude.{◌≡◌, ◌≤◌};
ghost use Rattle.board_service.specs.Domain.{empty};

use board_cells::BoardCells;
use board_service::DomainCore;
use std::alloc::Global;

/// What a domain keeps behind its lock.
#[derive(Drop)]
pub struct DomainState {
    /// The tables with the cells of each board.
    pub tables: DomainCore<BoardCells>,
    /// The number of the last node, at most 2^64 - 2.
    pub nodes: u64,
    /// So one more node has a number.
    pub ghost few: { nodes ≤ 18446744073709551614 },
}

impl DomainState {
    /// No nodes and no boards.
    pub fn new(alloc: Global) -> DomainState
        ensures tables { result.tables ≡ empty }
        ensures nodes { result.nodes ≡ 0 }
    {
        DomainState {
            tables: DomainCore::new(alloc),
            nodes: 0,
        }
    }
}
