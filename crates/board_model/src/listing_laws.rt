//! Laws of what is told of a board. Each function's contract is a theorem over the definitions alone.
ghost use Rattle.board_model.specs.LawsOfListings.{KeysAreToldInOrder, NodesAreCountedOnce, NodesAscend, PortsAreCountedOnce};

/// The nodes that are told ascend in the order of their bytes, so they differ; they are the parties with a thing of the board,
/// and as many as are counted.
pub fn nodes_ascend()
    ensures { NodesAscend }
{}

/// The nodes that are counted are the different holders of things of the board, in scripts and in domains.
pub fn nodes_are_counted_once()
    ensures { NodesAreCountedOnce }
{}

/// The writer slots that are taken are the different ports of the board's writers and of the handles made from them, in scripts
/// and in domains.
pub fn ports_are_counted_once()
    ensures { PortsAreCountedOnce }
{}

/// A board tells its keys as they were added, in that order.
pub fn keys_are_told_in_order()
    ensures { KeysAreToldInOrder }
{}
