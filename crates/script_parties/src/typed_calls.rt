//! The calls of a domain's core whose keys are of one of the key types of a script.
ghost use Rattle.std.specs.Prelude.{◌≡◌, All, OnOk, OnErr, map};
ghost use Rattle.std.specs.List.{AllByRecursion};
ghost use Rattle.board_layout.specs.Answer.{Answers};
ghost use Rattle.board_layout.specs.Layout.{IsShape};
ghost use Rattle.board_model.specs.TableCalls.{first_of};
ghost use Rattle.board_model.specs.Tables.{shapes_of};
ghost use Rattle.board_model.specs.TypeTable as types;
ghost use Rattle.script_parties.specs.Keyed.{IsOfKeyType, entry_sought};
ghost use Rattle.script_parties.specs.Named.{HasShortKey, HasShortKeys};
ghost use Rattle.board_service.specs.Domain as domain;
ghost use Rattle.board_service.specs.Entries.{as_added};

use crate::adding::f8_of;
use board_concepts::{AttributeSet, AttributeVerifier};
use board_layout::{F8, TypeDetail};
use board_model::{Key, KeyType, Limits, NewLimits, ThingKind};
use board_names::{
    BlackboardCreateError, BlackboardOpenError, EntryHandleError, EntryHandleMutError, ServiceName,
};
use board_service::{Cells, DomainCore, Found, Made, NewEntry, NodeId, ThingId};

/// A new board whose keys are of this type.
pub(crate) fn create_in<C: Cells>(
    core: &mut DomainCore<C>,
    key_type: KeyType,
    node: NodeId,
    name: &ServiceName,
    limits: NewLimits,
    attributes: AttributeSet,
    entries: Vec<NewEntry>,
) -> Result<Made, BlackboardCreateError>
    requires shapes { All IsShape (shapes_of (map as_added entries.items)) }
    requires keys { AllByRecursion HasShortKey (map as_added entries.items) }
    ensures answer { Answers result BlackboardCreateError.OutOfMemory
        (domain.create_answer core.old (types.same_key key_type) name.now
        (map as_added entries.items)) }
    ensures ok { OnOk result (domain.IsCreated C.opened C.words core.old core.new node name.now
        (types.key_detail key_type) limits attributes (map as_added entries.items)) }
    ensures err { OnErr result (core.new ≡ core.old) }
{
    match key_type {
        KeyType::U64 => core.create::<u64>(
            node,
            name,
            limits.shared,
            limits.max_writers,
            attributes,
            entries,
        ),
        KeyType::F8 => core.create::<F8>(
            node,
            name,
            limits.shared,
            limits.max_writers,
            attributes,
            entries,
        ),
    }
}

/// Why a further factory of a board whose keys are to be of this type would be refused.
pub(crate) fn open_refusal_in<C: Cells>(
    core: &DomainCore<C>,
    key_type: KeyType,
    node: NodeId,
    name: &ServiceName,
    limits: Limits,
    needs: &AttributeVerifier,
) -> Option<BlackboardOpenError>
    ensures { result ≡ first_of (domain.open_list core.now node name.now
        (types.key_detail key_type) limits needs.now) }
{
    match key_type {
        KeyType::U64 => core.open_refusal::<u64>(node, name, limits, needs),
        KeyType::F8 => core.open_refusal::<F8>(node, name, limits, needs),
    }
}

/// A read handle of the entry with this key, at a reader of a board whose keys are of its type.
pub(crate) fn entry_in<C: Cells>(
    core: &mut DomainCore<C>,
    reader: ThingId,
    key: &Key,
    value: &TypeDetail,
) -> Result<Found, EntryHandleError>
    requires held { IsOfKeyType core.old key.now reader ThingKind.Reader }
    requires keys { AllByRecursion HasShortKeys core.old.tables.boards }
    ensures answer { Answers result EntryHandleError.OutOfMemory (domain.entry_answer core.old
        (entry_sought core.old reader key.now value.now)) }
    ensures ok { OnOk result (core.new ≡ domain.after_entry core.old (domain.held core.old reader)
        (entry_sought core.old reader key.now value.now)) }
    ensures err { OnErr result (core.new ≡ core.old) }
{
    match *key {
        Key::U64(n) => core.entry::<u64>(reader, &n, value),
        Key::F8(text) => core.entry::<F8>(reader, &f8_of(&text), value),
    }
}

/// Why such a read handle would be refused.
pub(crate) fn entry_refusal_in<C: Cells>(
    core: &DomainCore<C>,
    reader: ThingId,
    key: &Key,
    value: &TypeDetail,
) -> Option<EntryHandleError>
    requires held { IsOfKeyType core.now key.now reader ThingKind.Reader }
    requires keys { AllByRecursion HasShortKeys core.now.tables.boards }
    ensures { result ≡ first_of (domain.entry_list core.now
        (entry_sought core.now reader key.now value.now)) }
{
    match *key {
        Key::U64(n) => core.entry_refusal::<u64>(reader, &n, value),
        Key::F8(text) => core.entry_refusal::<F8>(reader, &f8_of(&text), value),
    }
}

/// A write handle of the entry with this key, at a writer of a board whose keys are of its type.
pub(crate) fn entry_mut_in<C: Cells>(
    core: &mut DomainCore<C>,
    writer: ThingId,
    key: &Key,
    value: &TypeDetail,
) -> Result<Found, EntryHandleMutError>
    requires held { IsOfKeyType core.old key.now writer ThingKind.Writer }
    requires keys { AllByRecursion HasShortKeys core.old.tables.boards }
    ensures answer { Answers result EntryHandleMutError.OutOfMemory
        (domain.entry_mut_answer core.old (domain.held core.old writer)
        (entry_sought core.old writer key.now value.now)) }
    ensures ok { OnOk result (core.new ≡ domain.after_entry_mut core.old
        (domain.held core.old writer)
        (entry_sought core.old writer key.now value.now)) }
    ensures err { OnErr result (core.new ≡ core.old) }
{
    match *key {
        Key::U64(n) => core.entry_mut::<u64>(writer, &n, value),
        Key::F8(text) => core.entry_mut::<F8>(writer, &f8_of(&text), value),
    }
}

/// Why such a write handle would be refused.
pub(crate) fn entry_mut_refusal_in<C: Cells>(
    core: &DomainCore<C>,
    writer: ThingId,
    key: &Key,
    value: &TypeDetail,
) -> Option<EntryHandleMutError>
    requires held { IsOfKeyType core.now key.now writer ThingKind.Writer }
    requires keys { AllByRecursion HasShortKeys core.now.tables.boards }
    ensures { result ≡ first_of (domain.entry_mut_list core.now (domain.held core.now writer)
        (entry_sought core.now writer key.now value.now)) }
{
    match *key {
        Key::U64(n) => core.entry_mut_refusal::<u64>(writer, &n, value),
        Key::F8(text) => core.entry_mut_refusal::<F8>(writer, &f8_of(&text), value),
    }
}
