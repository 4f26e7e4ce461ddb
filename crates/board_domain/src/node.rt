//! Nodes of a domain.
ghost use Rattle.std.specs.Prelude.{◌≡◌, ◌+◌, IfOk, IsOkUnless, OnOk, OnErr};
ghost use Rattle.board_layout.specs.Answer.{Answers, Refuses, with_value};
ghost use Rattle.board_names.specs.declared.errors.service.DomainError.TheVariants.{OutOfMemory};
ghost use Rattle.board_domain.specs.Services.{node_answer, node_number, DrawsSomewhere};

use crate::service_builder::ServiceBuilder;
use board_handles::{Domain, DomainState};
use board_names::{DomainError, NodeName, ServiceName};
use board_service::NodeId;
use std::marker::Model;
use std::sync::Wait;

// As many nodes as a domain can have.
const LAST: u64 = 18446744073709551614;

/// A node of a domain. Clauses see its number and its name.
#[derive(Drop)]
pub struct Node {
    id: NodeId,
    name: NodeName,
    domain: Domain,
}

impl Model for Node {
    ghost use Rattle.board_domain.specs.Services.{NodeSeen};

    ghost Value = { NodeSeen };

    ghost view = { λ s. record { id = s.id; name = s.name } };
}

impl Node {
    /// `new` over the domain's state itself.
    ///
    /// # Errors
    /// `NumbersSpent` where 2^64 - 2 nodes were made; `OutOfMemory` where one more owner of the domain is refused. All stays as it was.
    pub fn new_in(
        state: &mut DomainState,
        domain: &Domain,
        name: NodeName,
    ) -> Result<Node, DomainError>
        ensures answer { let answer = node_answer state.old.nodes in
            Answers (with_value node_number result) DomainError.OutOfMemory answer }
        ensures refused { Refuses (with_value node_number result) (node_answer state.old.nodes) }
        ensures named { IfOk result (λ node. node.name ≡ name) }
        ensures tables { state.new.tables ≡ state.old.tables }
        ensures ok { OnOk result (state.new.nodes ≡ state.old.nodes + 1) }
        ensures err { OnErr result (state.new.nodes ≡ state.old.nodes) }
    {
        if state.nodes >= LAST {
            return Err(DomainError::NumbersSpent);
        }
        let Ok(domain) = domain.share() else {
            return Err(DomainError::OutOfMemory);
        };
        state.nodes += 1;
        Ok(Node {
            id: NodeId(state.nodes),
            name,
            domain,
        })
    }

    /// A node of the domain, with the next number.
    ///
    /// # Errors
    /// As for `new_in`.
    pub fn new<R: Wait>(rt: &R, domain: &Domain, name: NodeName) -> Result<Node, DomainError>
        ensures answer { DrawsSomewhere (with_value node_number result) }
        ensures named { IfOk result (λ node. node.name ≡ name) }
    {
        let mut state = domain.lock(rt);
        Node::new_in(&mut state, domain, name)
    }

    /// Its number.
    pub fn id(&self) -> NodeId
        ensures { result ≡ self.now.id }
    {
        self.id
    }

    /// Its name.
    pub fn name(&self) -> &NodeName
        ensures { result.now ≡ self.now.name }
    {
        &self.name
    }

    /// What makes or opens the board with this name.
    ///
    /// # Errors
    /// `OutOfMemory` where one more owner of the domain is refused.
    pub fn service_builder(&self, name: &ServiceName) -> Result<ServiceBuilder, DomainError>
        ensures ok { IfOk result (λ b. b ≡ record { node = self.now.id; name = name.now }) }
        ensures memory { IsOkUnless result OutOfMemory }
    {
        let Ok(domain) = self.domain.share() else {
            return Err(DomainError::OutOfMemory);
        };
        Ok(ServiceBuilder::new(self.id, *name, domain))
    }
}
