//! Factories of a board.
ghost use Rattle.std.specs.Prelude.{◌≡◌, ℕ, IfOk, IsOkUnless};
ghost use Rattle.std.specs.Fn.{CalledAt};
ghost use Rattle.board_layout.specs.Bytes.{details};
ghost use Rattle.board_names.specs.declared.errors.service.DomainError.TheVariants.{OutOfMemory};
ghost use Rattle.board_service.specs.Facts.{IsDomain};
ghost use Rattle.board_handles.specs.BoardEnds.{Core};
ghost use Rattle.board_handles.specs.LentForms as handles;
ghost use Rattle.board_domain.specs.LentForms as lent;
ghost use Rattle.board_domain.specs.Factories.{factory_of};
ghost use Rattle.board_domain.specs.ServiceHash.{service_hash};
ghost use Rattle.board_domain.specs.Walks.{Walks, WalksTo, key_seen};
ghost use Rattle.board_domain.specs.declared.callback_progression.CallbackProgression.{CallbackProgression};

use crate::callback_progression::CallbackProgression;
use crate::kept::Kept;
use crate::service_hash::hash_of;
use crate::walks::{visit_keys, visit_nodes};
use board_concepts::AttributeSet;
use board_concepts::hash::HashValue;
use board_handles::{Domain, DomainState, PortFactoryReader, PortFactoryWriter, give_up};
use board_layout::BoardKey;
use board_names::{DomainError, ServiceName};
use board_service::{DynamicConfig, Made, NodeId, StaticConfig, ThingKind};
use std::alloc::Global;
use std::marker::{Model, PhantomData};
use std::sync::Wait;

/// A factory of the ports of a board whose keys are `K`s. It keeps what is fixed of its board.
///
/// Clauses see its thing and its board's number, the board's name, and what is fixed of the board.
#[derive(Drop)]
pub struct PortFactory<K, P> {
    made: Made,
    name: ServiceName,
    hash: HashValue,
    config: StaticConfig,
    attributes: AttributeSet,
    alloc: Global,
    domain: Domain,
    marker: PhantomData<(K, P)>,
}

impl<K, P> Model for PortFactory<K, P> {
    ghost use Rattle.std.specs.Prelude.{◌≡◌};
    ghost use Rattle.board_domain.specs.Services.{FactorySeen};
    ghost use Rattle.board_domain.specs.ServiceHash.{service_hash};

    ghost Value = { FactorySeen };

    ghost view = { λ s. record {
      made = s.made;
      name = s.name;
      config = s.config;
      attributes = s.attributes;
    } };

    ghost invariant = { λ s. s.hash ≡ service_hash s.name };
}

// Of a board whose factory isn't held.
const NOTHING_TAKEN: DynamicConfig = DynamicConfig {
    readers: 0,
    writers: 0,
    nodes: 0,
};

impl<K: BoardKey, P> PortFactory<K, P> {
    pub(crate) fn new(
        alloc: Global,
        kept: Kept,
        name: ServiceName,
        domain: Domain,
    ) -> PortFactory<K, P>
        ensures { result ≡ factory_of kept name }
    {
        let Kept {
            made,
            config,
            attributes,
        } = kept;
        let hash = hash_of(&name);
        PortFactory {
            made,
            name,
            hash,
            config,
            attributes,
            alloc,
            domain,
            marker: PhantomData,
        }
    }

    /// The board's name.
    pub fn name(&self) -> &ServiceName
        ensures { result.now ≡ self.now.name }
    {
        &self.name
    }

    /// The board's number, from 1 over all boards of a domain.
    pub fn unique_service_id(&self) -> u64
        ensures { result ≡ self.now.made.number }
    {
        self.made.number
    }

    /// The SHA-1 of `Blackboard/` and the board's name. It decides nothing.
    pub fn service_hash(&self) -> &HashValue
        ensures { result.now ≡ service_hash self.now.name }
    {
        &self.hash
    }

    /// The board's attributes.
    pub fn attributes(&self) -> &AttributeSet
        ensures { result.now ≡ self.now.attributes }
    {
        &self.attributes
    }

    /// The board's type of keys, its limits, and how many entries it has.
    pub fn static_config(&self) -> &StaticConfig
        ensures { result.now ≡ self.now.config }
    {
        &self.config
    }

    /// `dynamic_config` over the domain's state itself.
    pub fn dynamic_config_in(&self, state: &DomainState) -> DynamicConfig
        ensures { let keys = details K.type_bytes K.SIZE K.ALIGNMENT in
            result ≡ lent.taken_of state.now.tables keys self.now.made.thing }
    {
        let factory = self.made.thing;
        if !state.tables.is_held::<K>(factory, ThingKind::Factory) {
            return NOTHING_TAKEN;
        }
        match state.tables.use_of(state.tables.board_of(factory)) {
            Some(taken) => taken,
            None => NOTHING_TAKEN,
        }
    }

    /// How many readers, writer slots and nodes of the board are taken now. Zeros where this factory isn't held.
    pub fn dynamic_config<R: Wait>(&self, rt: &R) -> DynamicConfig
        ensures { let keys = details K.type_bytes K.SIZE K.ALIGNMENT in
            (d : Core) × IsDomain d × (result ≡ lent.taken_of d keys self.now.made.thing) }
    {
        let state = self.domain.lock(rt);
        self.dynamic_config_in(&state)
    }

    /// `visit_nodes` over the domain's state itself.
    pub fn visit_nodes_in<F: FnMut(NodeId) -> CallbackProgression>(
        &self,
        state: &DomainState,
        callback: &mut F,
    )
        requires { F.IsAlwaysCallable callback.old }
        ensures { let keys = details K.type_bytes K.SIZE K.ALIGNMENT in
            let nodes = lent.nodes_of state.now.tables keys self.now.made.thing in
            WalksTo (λ f x r g. F.step f x r g) callback.old nodes callback.new }
    {
        let factory = self.made.thing;
        if !state.tables.is_held::<K>(factory, ThingKind::Factory) {
            return;
        }
        let board = state.tables.board_of(factory);
        if let Some(taken) = state.tables.use_of(board) {
            visit_nodes(&state.tables, board, taken.nodes, callback);
        }
    }

    /// `nodes` over the domain's state itself.
    pub fn nodes_in<F: FnMut(NodeId) -> CallbackProgression>(
        &self,
        state: &DomainState,
        callback: F,
    )
        requires { F.IsAlwaysCallable callback }
        ensures { let keys = details K.type_bytes K.SIZE K.ALIGNMENT in
            let nodes = lent.nodes_of state.now.tables keys self.now.made.thing in
            Walks (λ f x r g. F.step f x r g) callback nodes }
    {
        let mut callback = callback;
        self.visit_nodes_in(state, &mut callback);
    }

    /// `nodes` with a callback that is lent. It is left as a walk over the nodes of some domain leaves it, which may lack this factory: then it stays as it was. What it gathered of a state that is lent `visit_nodes_in` tells.
    pub fn visit_nodes<R: Wait, F: FnMut(NodeId) -> CallbackProgression>(
        &self,
        rt: &R,
        callback: &mut F,
    )
        requires { F.IsAlwaysCallable callback.old }
        ensures { let keys = details K.type_bytes K.SIZE K.ALIGNMENT in
            let called : F → ℕ → CallbackProgression → F → Type 0 = λ f x r g. F.step f x r g in
            (d : Core) × IsDomain d
            × WalksTo called callback.old (lent.nodes_of d keys self.now.made.thing) callback.new }
    {
        let state = self.domain.lock(rt);
        self.visit_nodes_in(&state, callback);
    }

    /// Calls the callback with each node that has a thing of the board, ascending, until it says to stop. Calls it with none where this factory isn't held. The domain's lock is held meanwhile, so a callback that takes it waits forever.
    pub fn nodes<R: Wait, F: FnMut(NodeId) -> CallbackProgression>(&self, rt: &R, callback: F)
        requires { F.IsAlwaysCallable callback }
        ensures { let keys = details K.type_bytes K.SIZE K.ALIGNMENT in
            let called : F → ℕ → CallbackProgression → F → Type 0 = λ f x r g. F.step f x r g in
            (d : Core) × IsDomain d
            × Walks called callback (lent.nodes_of d keys self.now.made.thing) }
    {
        let state = self.domain.lock(rt);
        self.nodes_in(&state, callback)
    }

    /// `visit_keys` over the domain's state itself.
    pub fn visit_keys_in<F: FnMut(&K) -> CallbackProgression>(
        &self,
        state: &DomainState,
        callback: &mut F,
    )
        requires { F.IsAlwaysCallable callback.old }
        ensures { let types = details K.type_bytes K.SIZE K.ALIGNMENT in
            let of = key_seen K.value_of K.SIZE K.WORDS in
            let keys = lent.keys_of of state.now.tables types self.now.made.thing in
            WalksTo (CalledAt F.FnMut) callback.old keys callback.new }
    {
        let factory = self.made.thing;
        if !state.tables.is_held::<K>(factory, ThingKind::Factory) {
            return;
        }
        // The keys of a board take no more than 64 bytes.
        state.tables.facts();
        let board = state.tables.board_of(factory);
        if let Some(entries) = state.tables.entries_of(board) {
            visit_keys::<K, F>(entries, callback);
        }
    }

    /// `list_keys` over the domain's state itself.
    pub fn list_keys_in<F: FnMut(&K) -> CallbackProgression>(
        &self,
        state: &DomainState,
        callback: F,
    )
        requires { F.IsAlwaysCallable callback }
        ensures { let types = details K.type_bytes K.SIZE K.ALIGNMENT in
            let of = key_seen K.value_of K.SIZE K.WORDS in
            let keys = lent.keys_of of state.now.tables types self.now.made.thing in
            Walks (CalledAt F.FnMut) callback keys }
    {
        let mut callback = callback;
        self.visit_keys_in(state, &mut callback);
    }

    /// `list_keys` with a callback that is lent. It is left as a walk over the keys of some domain leaves it, which may lack this factory: then it stays as it was. What it gathered of a state that is lent `visit_keys_in` tells.
    pub fn visit_keys<R: Wait, F: FnMut(&K) -> CallbackProgression>(&self, rt: &R, callback: &mut F)
        requires { F.IsAlwaysCallable callback.old }
        ensures { let types = details K.type_bytes K.SIZE K.ALIGNMENT in
            let of = key_seen K.value_of K.SIZE K.WORDS in
            let thing = self.now.made.thing in
            (d : Core) × IsDomain d
            × WalksTo (CalledAt F.FnMut) callback.old (lent.keys_of of d types thing) callback.new }
    {
        let state = self.domain.lock(rt);
        self.visit_keys_in(&state, callback);
    }

    /// Calls the callback with each key of the board, in the order of adding, until it says to stop. Calls it with none where this factory isn't held. The domain's lock is held meanwhile, so a callback that takes it waits forever.
    pub fn list_keys<R: Wait, F: FnMut(&K) -> CallbackProgression>(&self, rt: &R, callback: F)
        requires { F.IsAlwaysCallable callback }
        ensures { let types = details K.type_bytes K.SIZE K.ALIGNMENT in
            let of = key_seen K.value_of K.SIZE K.WORDS in
            (d : Core) × IsDomain d
            × Walks (CalledAt F.FnMut) callback (lent.keys_of of d types self.now.made.thing) }
    {
        let state = self.domain.lock(rt);
        self.list_keys_in(&state, callback)
    }

    /// What makes a reader of the board. This factory isn't given up before.
    ///
    /// # Errors
    /// `OutOfMemory` where one more owner of the domain is refused.
    pub fn reader_builder(&self) -> Result<PortFactoryReader<'_, K, P>, DomainError>
        ensures ok { IfOk result (λ r. r ≡ self.now.made.thing) }
        ensures memory { IsOkUnless result OutOfMemory }
    {
        let Ok(domain) = self.domain.share() else {
            return Err(DomainError::OutOfMemory);
        };
        Ok(PortFactoryReader::new(self.alloc, self.made.thing, domain))
    }

    /// What makes a writer of the board. This factory isn't given up before.
    ///
    /// # Errors
    /// `OutOfMemory` where one more owner of the domain is refused.
    pub fn writer_builder(&self) -> Result<PortFactoryWriter<'_, K, P>, DomainError>
        ensures ok { IfOk result (λ w. w ≡ self.now.made.thing) }
        ensures memory { IsOkUnless result OutOfMemory }
    {
        let Ok(domain) = self.domain.share() else {
            return Err(DomainError::OutOfMemory);
        };
        Ok(PortFactoryWriter::new(self.alloc, self.made.thing, domain))
    }

    /// `release` over the domain's state itself, which is that of the factory's own domain, also where other calls on the factory were
    /// typed ones. A state where no such factory is held by its number is left as it is.
    pub fn release_in(self, state: &mut DomainState)
        ensures tables { let keys = details K.type_bytes K.SIZE K.ALIGNMENT in
            let thing = self.made.thing in
            state.new.tables ≡ handles.given_up state.old.tables keys thing ThingKind.Factory }
        ensures nodes { state.new.nodes ≡ state.old.nodes }
    {
        give_up::<K>(&mut state.tables, self.made.thing, ThingKind::Factory);
    }

    /// Gives the factory up, in the domain that it came from. Ports that it made go on, and the board stands while one of them
    /// or of their handles does. A factory that a lent form made over another state is given up by `release_in` over that
    /// state.
    pub fn release<R: Wait>(self, rt: &R) {
        let mut state = self.domain.lock(rt);
        give_up::<K>(&mut state.tables, self.made.thing, ThingKind::Factory);
    }
}
