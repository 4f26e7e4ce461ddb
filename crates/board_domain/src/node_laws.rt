//! Laws of the nodes that are told of a board. The function's contract is a theorem over the definitions alone.
ghost use Rattle.board_domain.specs.LawsOfNodes.{NodesAreTold};

/// The nodes that are told of a board ascend, so they differ; they are those with a thing of it, and as many as its limit of nodes counts.
pub fn nodes_are_told()
    ensures { NodesAreTold }
{}
