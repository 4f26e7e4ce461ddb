//! What makes a board.
ghost use Rattle.std.specs.Prelude.{◌≡◌, ◌≤◌, ◌<◌, ◌↔◌, [], Some, length, IfOk, IsErrOf, OnOk, OnErr};
ghost use Rattle.std.specs.List.{AllByRecursion};
ghost use Rattle.board_layout.specs.Answer.{Answers, Refuses, with_value};
ghost use Rattle.board_layout.specs.Bytes.{details};
ghost use Rattle.board_layout.specs.Keys.{same_keys};
ghost use Rattle.board_service.specs.Domain as calls;
ghost use Rattle.board_domain.specs.Asked.{config_asked};
ghost use Rattle.board_domain.specs.LentForms as lent;
ghost use Rattle.board_service.specs.Entries.{IsEntryOf, TakesItsWords};
ghost use Rattle.board_service.specs.Facts.{IsHeldAs};
ghost use Rattle.board_domain.specs.Services.{AddsEntry, new_creator, allowing_readers, allowing_nodes, allowing_writers, factory_made};
ghost use Rattle.board_domain.specs.Factories.{KeepsBoard};

use crate::kept::{Asked, new_board};
use crate::port_factory::PortFactory;
use board_concepts::AttributeSpecifier;
use board_handles::{Domain, DomainState};
use board_layout::{BoardKey, KeyMemoryError, ZeroCopySend};
use board_model::{Limits, NewLimits};
use board_names::{BlackboardCreateError, ServiceName};
use board_service::{AddError, NewEntry, NodeId, ThingKind};
use std::alloc::Global;
use std::marker::{Model, PhantomData};
use std::sync::Wait;

/// What makes a board whose keys are `K`s, once its limits and entries are told. A limit that isn't told is 8 readers, 20 nodes or 1 writer.
///
/// Clauses see the node that asks, the name, the limits, and the entries so far.
#[derive(Drop)]
pub struct Creator<K: BoardKey, P> {
    asked: Asked,
    alloc: Global,
    domain: Domain,
    marker: PhantomData<(K, P)>,
}

impl<K: BoardKey, P> Model for Creator<K, P> {
    ghost use Rattle.std.specs.Prelude.{◌≤◌, ◌<◌, length, All};
    ghost use Rattle.std.specs.List.{AllByRecursion};
    ghost use Rattle.board_layout.specs.Layout.{IsShape};
    ghost use Rattle.board_model.specs.Tables.{shapes_of};
    ghost use Rattle.board_service.specs.Entries.{TakesItsWords};
    ghost use Rattle.board_domain.specs.Kept.{seen_of};
    ghost use Rattle.board_domain.specs.Services.{CreatorSeen};

    ghost Value = { CreatorSeen };

    ghost view = { λ s. seen_of s.asked };

    ghost invariant = { λ s. All IsShape (shapes_of (seen_of s.asked).entries)
        × (0 < length (seen_of s.asked).entries → K.SIZE ≤ 64)
        × AllByRecursion TakesItsWords (seen_of s.asked).entries };
}

impl<K: BoardKey, P> Creator<K, P> {
    pub(crate) fn new(
        alloc: Global,
        node: NodeId,
        name: ServiceName,
        domain: Domain,
    ) -> Creator<K, P>
        ensures { result ≡ new_creator node name }
    {
        let limits = NewLimits {
            shared: Limits {
                max_readers: None,
                max_nodes: None,
            },
            max_writers: None,
        };
        Creator {
            asked: Asked {
                node,
                name,
                limits,
                entries: Vec::new(alloc),
            },
            alloc,
            domain,
            marker: PhantomData,
        }
    }

    /// How many readers the board may have at once. 0 is raised to 1.
    pub fn max_readers(mut self, value: u64) -> Self
        ensures { result ≡ record self { limits = allowing_readers self.limits value } }
    {
        self.asked.limits.shared.max_readers = Some(value);
        self
    }

    /// How many nodes the board may have at once. 0 is raised to 1.
    pub fn max_nodes(mut self, value: u64) -> Self
        ensures { result ≡ record self { limits = allowing_nodes self.limits value } }
    {
        self.asked.limits.shared.max_nodes = Some(value);
        self
    }

    /// How many writers the board may have at once. 0 is raised to 1.
    pub fn max_writers(mut self, value: u64) -> Self
        ensures { result ≡ record self { limits = allowing_writers self.limits value } }
    {
        self.asked.limits.max_writers = Some(value);
        self
    }

    /// One more entry, with its first value. A refusal gives the creator up.
    ///
    /// # Errors
    /// `Key(ValueTooLarge)` where the key has more than 64 bytes; else `Key(ValueAlignmentTooLarge)` where its alignment is above 8; `OutOfMemory`.
    pub fn add<V: ZeroCopySend>(self, key: K, value: V) -> Result<Self, AddError>
        ensures large { IsErrOf result (AddError.Key KeyMemoryError.ValueTooLarge)
            ↔ (64 < K.SIZE) }
        ensures aligned { let why = AddError.Key KeyMemoryError.ValueAlignmentTooLarge in
            IsErrOf result why ↔ ((K.SIZE ≤ 64) × (8 < K.ALIGNMENT)) }
        ensures ok { let values = details V.type_bytes V.SIZE V.ALIGNMENT in
            let is_it = IsEntryOf K.value_of K.SIZE K.WORDS key (K.words_of key) values in
            IfOk result (λ more. AddsEntry self more (is_it (V.words_of value))) }
        ensures width { IfOk result (λ more. AllByRecursion TakesItsWords more.entries) }
    {
        let added = match NewEntry::of(self.alloc, &key, &value) {
            Ok(added) => added,
            Err(why) => return Err(why),
        };
        let mut more = self;
        match more.asked.entries.push(added) {
            Ok(()) => Ok(more),
            Err(_) => Err(AddError::OutOfMemory),
        }
    }

    /// One more entry, whose first value is the default of its type. A refusal gives the creator up.
    ///
    /// # Errors
    /// As for `add`.
    pub fn add_with_default<V: ZeroCopySend + Default>(self, key: K) -> Result<Self, AddError>
        ensures large { IsErrOf result (AddError.Key KeyMemoryError.ValueTooLarge)
            ↔ (64 < K.SIZE) }
        ensures aligned { let why = AddError.Key KeyMemoryError.ValueAlignmentTooLarge in
            IsErrOf result why ↔ ((K.SIZE ≤ 64) × (8 < K.ALIGNMENT)) }
        ensures ok { let values = details V.type_bytes V.SIZE V.ALIGNMENT in
            let is_it = IsEntryOf K.value_of K.SIZE K.WORDS key (K.words_of key) values in
            let words = V.words_of in
            IfOk result (λ more. (v : V) × V.is_default v × AddsEntry self more (is_it (words v))) }
        ensures width { IfOk result (λ more. AllByRecursion TakesItsWords more.entries) }
    {
        self.add(key, V::default())
    }

    /// `create_with_attributes` over the domain's state itself.
    ///
    /// # Errors
    /// The first that holds: `AlreadyExists`, a board of this name stands; `NoEntriesProvided`; `ServiceInCorruptedState`, two keys are equal, or the cells ask for more than 4294967295 bytes; `NumbersSpent`; `OutOfMemory`. All stays as it was.
    pub fn create_with_attributes_in(
        self,
        state: &mut DomainState,
        attributes: AttributeSpecifier,
    ) -> Result<PortFactory<K, P>, BlackboardCreateError>
        ensures answer { let same_key = same_keys K.eq K.value_of K.SIZE K.WORDS in
            let answer = calls.create_answer state.old.tables same_key self.name self.entries in
            Answers (with_value factory_made result) BlackboardCreateError.OutOfMemory answer }
        ensures refused { let same_key = same_keys K.eq K.value_of K.SIZE K.WORDS in
            let answer = calls.create_answer state.old.tables same_key self.name self.entries in
            Refuses (with_value factory_made result) answer }
        ensures ok { let keys = details K.type_bytes K.SIZE K.ALIGNMENT in
            let asked = lent.asked_board self keys attributes in
            OnOk result (lent.IsMade asked state.old.tables state.new.tables) }
        ensures held { let keys = details K.type_bytes K.SIZE K.ALIGNMENT in
            IfOk result (λ f. IsHeldAs state.new.tables keys f.made.thing ThingKind.Factory) }
        ensures err { OnErr result (state.new.tables ≡ state.old.tables) }
        ensures kept { IfOk result (λ f. KeepsBoard state.new.tables f) }
        ensures named { IfOk result (λ f. f.name ≡ self.name) }
        ensures config { let keys = details K.type_bytes K.SIZE K.ALIGNMENT in
            let config = config_asked keys self.limits (length self.entries) in
            IfOk result (λ f. f.config ≡ config) }
        ensures attributes { IfOk result (λ f. f.attributes ≡ attributes) }
        ensures width { AllByRecursion TakesItsWords self.entries }
        ensures nodes { state.new.nodes ≡ state.old.nodes }
    {
        let asked = self.asked;
        let name = asked.name;
        let kept = new_board::<K>(state, asked, attributes.into_set())?;
        Ok(PortFactory::new(self.alloc, kept, name, self.domain))
    }

    /// `create` over the domain's state itself.
    ///
    /// # Errors
    /// As for `create_with_attributes_in`.
    pub fn create_in(
        self,
        state: &mut DomainState,
    ) -> Result<PortFactory<K, P>, BlackboardCreateError>
        ensures answer { let same_key = same_keys K.eq K.value_of K.SIZE K.WORDS in
            let answer = calls.create_answer state.old.tables same_key self.name self.entries in
            Answers (with_value factory_made result) BlackboardCreateError.OutOfMemory answer }
        ensures refused { let same_key = same_keys K.eq K.value_of K.SIZE K.WORDS in
            let answer = calls.create_answer state.old.tables same_key self.name self.entries in
            Refuses (with_value factory_made result) answer }
        ensures ok { let keys = details K.type_bytes K.SIZE K.ALIGNMENT in
            let asked = lent.asked_board self keys [] in
            OnOk result (lent.IsMade asked state.old.tables state.new.tables) }
        ensures held { let keys = details K.type_bytes K.SIZE K.ALIGNMENT in
            IfOk result (λ f. IsHeldAs state.new.tables keys f.made.thing ThingKind.Factory) }
        ensures err { OnErr result (state.new.tables ≡ state.old.tables) }
        ensures kept { IfOk result (λ f. KeepsBoard state.new.tables f) }
        ensures named { IfOk result (λ f. f.name ≡ self.name) }
        ensures config { let keys = details K.type_bytes K.SIZE K.ALIGNMENT in
            let config = config_asked keys self.limits (length self.entries) in
            IfOk result (λ f. f.config ≡ config) }
        ensures attributes { IfOk result (λ f. f.attributes ≡ []) }
        ensures width { AllByRecursion TakesItsWords self.entries }
        ensures nodes { state.new.nodes ≡ state.old.nodes }
    {
        let none = AttributeSpecifier::new(self.alloc);
        self.create_with_attributes_in(state, none)
    }

    /// Makes the board with these attributes, and a factory of it for the node.
    ///
    /// # Errors
    /// As for `create_with_attributes_in`.
    pub fn create_with_attributes<R: Wait>(
        self,
        rt: &R,
        attributes: AttributeSpecifier,
    ) -> Result<PortFactory<K, P>, BlackboardCreateError>
        ensures answer { let keys = details K.type_bytes K.SIZE K.ALIGNMENT in
            let same_key = same_keys K.eq K.value_of K.SIZE K.WORDS in
            lent.CreatesSomewhere result same_key (lent.asked_board self keys attributes) }
        ensures named { IfOk result (λ f. f.name ≡ self.name) }
        ensures config { let keys = details K.type_bytes K.SIZE K.ALIGNMENT in
            let config = config_asked keys self.limits (length self.entries) in
            IfOk result (λ f. f.config ≡ config) }
        ensures attributes { IfOk result (λ f. f.attributes ≡ attributes) }
        ensures width { AllByRecursion TakesItsWords self.entries }
    {
        let asked = self.asked;
        let name = asked.name;
        let made = {
            let mut state = self.domain.lock(rt);
            new_board::<K>(&mut state, asked, attributes.into_set())
        };
        Ok(PortFactory::new(self.alloc, made?, name, self.domain))
    }

    /// Makes the board, and a factory of it for the node.
    ///
    /// # Errors
    /// As for `create_with_attributes_in`.
    pub fn create<R: Wait>(self, rt: &R) -> Result<PortFactory<K, P>, BlackboardCreateError>
        ensures answer { let keys = details K.type_bytes K.SIZE K.ALIGNMENT in
            let same_key = same_keys K.eq K.value_of K.SIZE K.WORDS in
            lent.CreatesSomewhere result same_key (lent.asked_board self keys []) }
        ensures named { IfOk result (λ f. f.name ≡ self.name) }
        ensures config { let keys = details K.type_bytes K.SIZE K.ALIGNMENT in
            let config = config_asked keys self.limits (length self.entries) in
            IfOk result (λ f. f.config ≡ config) }
        ensures attributes { IfOk result (λ f. f.attributes ≡ []) }
        ensures width { AllByRecursion TakesItsWords self.entries }
    {
        let none = AttributeSpecifier::new(self.alloc);
        self.create_with_attributes(rt, none)
    }
}
