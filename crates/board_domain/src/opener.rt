//! What opens a board.
ghost use Rattle.std.specs.Prelude.{◌≡◌, [], Some, IfOk, OnOk, OnErr};
ghost use Rattle.board_layout.specs.Answer.{Answers, Refuses, with_value};
ghost use Rattle.board_layout.specs.Bytes.{details};
ghost use Rattle.board_model.specs.TableCalls.{no_limits};
ghost use Rattle.board_service.specs.Domain as calls;
ghost use Rattle.board_service.specs.Facts.{IsHeldAs};
ghost use Rattle.board_domain.specs.Asked.{IsAsAsked};
ghost use Rattle.board_domain.specs.LentForms as lent;
ghost use Rattle.board_domain.specs.Services.{with_readers, with_nodes, factory_made, no_requirements};
ghost use Rattle.board_domain.specs.Factories.{KeepsBoard};

use crate::kept::open_board;
use crate::port_factory::PortFactory;
use board_concepts::AttributeVerifier;
use board_handles::{Domain, DomainState};
use board_layout::BoardKey;
use board_model::Limits;
use board_names::{BlackboardOpenError, ServiceName};
use board_service::{NodeId, ThingKind};
use std::alloc::Global;
use std::marker::{Model, PhantomData};
use std::sync::Wait;

/// What opens a board whose keys are `K`s. A limit that isn't told, or of 0, asks nothing.
///
/// Clauses see the node that asks, the name, and the limits that the board is to have at least.
#[derive(Drop)]
pub struct Opener<K: BoardKey, P> {
    node: NodeId,
    name: ServiceName,
    limits: Limits,
    alloc: Global,
    domain: Domain,
    marker: PhantomData<(K, P)>,
}

impl<K: BoardKey, P> Model for Opener<K, P> {
    ghost use Rattle.board_domain.specs.Services.{OpenerSeen};

    ghost Value = { OpenerSeen };

    ghost view = { λ s. record { node = s.node; name = s.name; limits = s.limits } };
}

impl<K: BoardKey, P> Opener<K, P> {
    pub(crate) fn new(
        alloc: Global,
        node: NodeId,
        name: ServiceName,
        domain: Domain,
    ) -> Opener<K, P>
        ensures { result ≡ record { node = node; name = name; limits = no_limits } }
    {
        Opener {
            node,
            name,
            limits: Limits {
                max_readers: None,
                max_nodes: None,
            },
            alloc,
            domain,
            marker: PhantomData,
        }
    }

    /// For how many readers at once the board is to have room at least.
    pub fn max_readers(mut self, value: u64) -> Self
        ensures { result ≡ record self { limits = with_readers self.limits value } }
    {
        self.limits.max_readers = Some(value);
        self
    }

    /// For how many nodes at once the board is to have room at least.
    pub fn max_nodes(mut self, value: u64) -> Self
        ensures { result ≡ record self { limits = with_nodes self.limits value } }
    {
        self.limits.max_nodes = Some(value);
        self
    }

    /// `open_with_attributes` over the domain's state itself.
    ///
    /// # Errors
    /// The first that holds: `DoesNotExist`, no such board; `IncompatibleKeys`, its keys are of another type than `K`; `IncompatibleAttributes`, a requirement isn't met; `DoesNotSupportRequestedAmountOfReaders`, `DoesNotSupportRequestedAmountOfNodes`, the board's limit is below the asked one; `ExceedsMaxNumberOfNodes`, the node has no thing of the board and as many nodes as its limit have one; `NumbersSpent`; `OutOfMemory`. All stays as it was.
    pub fn open_with_attributes_in(
        self,
        state: &mut DomainState,
        verifier: &AttributeVerifier,
    ) -> Result<PortFactory<K, P>, BlackboardOpenError>
        ensures answer { let keys = details K.type_bytes K.SIZE K.ALIGNMENT in
            let answer = lent.open_answer state.old.tables keys self verifier.now in
            Answers (with_value factory_made result) BlackboardOpenError.OutOfMemory answer }
        ensures refused { let keys = details K.type_bytes K.SIZE K.ALIGNMENT in
            let answer = lent.open_answer state.old.tables keys self verifier.now in
            Refuses (with_value factory_made result) answer }
        ensures ok { let after = calls.after_open state.old.tables self.node self.name in
            OnOk result (state.new.tables ≡ after) }
        ensures held { let keys = details K.type_bytes K.SIZE K.ALIGNMENT in
            IfOk result (λ f. IsHeldAs state.new.tables keys f.made.thing ThingKind.Factory) }
        ensures err { OnErr result (state.new.tables ≡ state.old.tables) }
        ensures kept { IfOk result (λ f. KeepsBoard state.new.tables f) }
        ensures named { IfOk result (λ f. f.name ≡ self.name) }
        ensures asked { let keys = details K.type_bytes K.SIZE K.ALIGNMENT in
            let needs = verifier.now in
            IfOk result (λ f. IsAsAsked keys self.limits needs f.config f.attributes) }
        ensures nodes { state.new.nodes ≡ state.old.nodes }
    {
        let kept = open_board::<K>(state, self.node, &self.name, self.limits, verifier)?;
        Ok(PortFactory::new(self.alloc, kept, self.name, self.domain))
    }

    /// `open` over the domain's state itself.
    ///
    /// # Errors
    /// As for `open_with_attributes_in`.
    pub fn open_in(self, state: &mut DomainState) -> Result<PortFactory<K, P>, BlackboardOpenError>
        ensures answer { let keys = details K.type_bytes K.SIZE K.ALIGNMENT in
            let answer = lent.open_answer state.old.tables keys self no_requirements in
            Answers (with_value factory_made result) BlackboardOpenError.OutOfMemory answer }
        ensures refused { let keys = details K.type_bytes K.SIZE K.ALIGNMENT in
            let answer = lent.open_answer state.old.tables keys self no_requirements in
            Refuses (with_value factory_made result) answer }
        ensures ok { let after = calls.after_open state.old.tables self.node self.name in
            OnOk result (state.new.tables ≡ after) }
        ensures held { let keys = details K.type_bytes K.SIZE K.ALIGNMENT in
            IfOk result (λ f. IsHeldAs state.new.tables keys f.made.thing ThingKind.Factory) }
        ensures err { OnErr result (state.new.tables ≡ state.old.tables) }
        ensures kept { IfOk result (λ f. KeepsBoard state.new.tables f) }
        ensures named { IfOk result (λ f. f.name ≡ self.name) }
        ensures asked { let keys = details K.type_bytes K.SIZE K.ALIGNMENT in
            let needs = no_requirements in
            IfOk result (λ f. IsAsAsked keys self.limits needs f.config f.attributes) }
        ensures nodes { state.new.nodes ≡ state.old.nodes }
    {
        let none = AttributeVerifier::new(self.alloc);
        self.open_with_attributes_in(state, &none)
    }

    /// Opens the board where its attributes meet the requirements, and gives a factory of it for the node.
    ///
    /// # Errors
    /// As for `open_with_attributes_in`.
    pub fn open_with_attributes<R: Wait>(
        self,
        rt: &R,
        verifier: &AttributeVerifier,
    ) -> Result<PortFactory<K, P>, BlackboardOpenError>
        ensures answer { let keys = details K.type_bytes K.SIZE K.ALIGNMENT in
            lent.OpensSomewhere result self keys verifier.now }
        ensures named { IfOk result (λ f. f.name ≡ self.name) }
        ensures asked { let keys = details K.type_bytes K.SIZE K.ALIGNMENT in
            let needs = verifier.now in
            IfOk result (λ f. IsAsAsked keys self.limits needs f.config f.attributes) }
    {
        let opened = {
            let mut state = self.domain.lock(rt);
            open_board::<K>(&mut state, self.node, &self.name, self.limits, verifier)
        };
        Ok(PortFactory::new(self.alloc, opened?, self.name, self.domain))
    }

    /// Opens the board, and gives a factory of it for the node.
    ///
    /// # Errors
    /// As for `open_with_attributes_in`.
    pub fn open<R: Wait>(self, rt: &R) -> Result<PortFactory<K, P>, BlackboardOpenError>
        ensures answer { let keys = details K.type_bytes K.SIZE K.ALIGNMENT in
            lent.OpensSomewhere result self keys no_requirements }
        ensures named { IfOk result (λ f. f.name ≡ self.name) }
        ensures asked { let keys = details K.type_bytes K.SIZE K.ALIGNMENT in
            let needs = no_requirements in
            IfOk result (λ f. IsAsAsked keys self.limits needs f.config f.attributes) }
    {
        let none = AttributeVerifier::new(self.alloc);
        self.open_with_attributes(rt, &none)
    }
}
