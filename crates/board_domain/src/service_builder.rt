//! What makes or opens a board.
ghost use Rattle.std.specs.Prelude.{◌≡◌};
ghost use Rattle.board_domain.specs.Services.{new_creator};
ghost use Rattle.board_model.specs.TableCalls.{no_limits};

use crate::creator::Creator;
use crate::opener::Opener;
use board_concepts::Policy;
use board_handles::Domain;
use board_layout::BoardKey;
use board_names::ServiceName;
use board_service::NodeId;
use std::alloc::Global;
use std::marker::Model;

/// What makes or opens the board with a name, for a node. Clauses see both.
#[derive(Drop)]
pub struct ServiceBuilder {
    node: NodeId,
    name: ServiceName,
    domain: Domain,
}

impl Model for ServiceBuilder {
    ghost use Rattle.board_domain.specs.Services.{BuilderSeen};

    ghost Value = { BuilderSeen };

    ghost view = { λ s. record { node = s.node; name = s.name } };
}

impl ServiceBuilder {
    pub(crate) fn new(node: NodeId, name: ServiceName, domain: Domain) -> ServiceBuilder
        ensures { result ≡ record { node = node; name = name } }
    {
        ServiceBuilder { node, name, domain }
    }

    /// What makes the board, with keys of type `K`. Its ports are shared by the policy `P`, which stands in their types alone. Takes no memory.
    pub fn blackboard_creator<K: BoardKey, P: Policy>(self, alloc: Global) -> Creator<K, P>
        ensures { result ≡ new_creator self.node self.name }
    {
        Creator::new(alloc, self.node, self.name, self.domain)
    }

    /// What opens the board, whose keys are to be of type `K`. Its ports are shared by the policy `P`, which stands in their types alone. Takes no memory.
    pub fn blackboard_opener<K: BoardKey, P: Policy>(self, alloc: Global) -> Opener<K, P>
        ensures { result ≡ record { node = self.node; name = self.name; limits = no_limits } }
    {
        Opener::new(alloc, self.node, self.name, self.domain)
    }
}
