//! Why the calls are refused, want of memory aside. Nothing here needs memory.
ghost use Rattle.std.specs.Prelude.{◌≡◌, true};
ghost use Rattle.board_model.specs.LineGrammar.{is_board_name};
ghost use Rattle.board_model.specs.Tables as tables;
ghost use Rattle.script_parties.specs.Parties.{IsFew, IsStandingThing};
ghost use Rattle.script_parties.specs.Shown.{HasKeyType};
ghost use Rattle.script_parties.specs.Refusals.{create_refusal, entry_mut_refusal, entry_refusal, open_refusal, reader_refusal, writer_refusal};

use super::PartyDomain;
use crate::entry_tests::{has_equal_keys, is_too_large};
use crate::lookups::{Held, node_for};
use crate::named::number_of;
use crate::typed_calls::{entry_mut_refusal_in, entry_refusal_in, open_refusal_in};
use board_concepts::AttributeVerifier;
use board_layout::Text;
use board_model::{AddedEntry, Key, KeyType, Limits, Name, ThingKind, ValueType, value_detail};
use board_names::{
    BlackboardCreateError, BlackboardOpenError, EntryHandleError, EntryHandleMutError,
    ReaderCreateError, ServiceName, WriterCreateError,
};
use board_service::{BoardWords, NodeId};

impl<C: BoardWords + Drop> PartyDomain<C> {
    /// Why `create` is refused.
    pub(super) fn create_refusal(
        &self,
        name: &Text<255>,
        key_type: KeyType,
        entries: &[AddedEntry],
    ) -> Option<BlackboardCreateError>
        requires { is_board_name name.now ≡ true }
        ensures { result ≡ create_refusal self.now name.now key_type entries.now }
    {
        if self.core.has_board(&ServiceName::from_text(*name)) {
            return Some(BlackboardCreateError::AlreadyExists);
        }
        if entries.is_empty() {
            return Some(BlackboardCreateError::NoEntriesProvided);
        }
        if has_equal_keys(self.alloc, key_type, entries) || is_too_large(entries) {
            return Some(BlackboardCreateError::ServiceInCorruptedState);
        }
        None
    }

    /// Why `open` is refused.
    pub(super) fn open_refusal(
        &self,
        party: &Name,
        name: &Text<255>,
        key_type: KeyType,
        limits: Limits,
        needs: &AttributeVerifier,
    ) -> Option<BlackboardOpenError>
        requires few { IsFew self.now }
        requires name { is_board_name name.now ≡ true }
        ensures { result ≡ open_refusal self.now party.now name.now key_type limits needs.now }
    {
        let node = NodeId(node_for(party, &self.nodes));
        let name = ServiceName::from_text(*name);
        open_refusal_in(&self.core, key_type, node, &name, limits, needs)
    }

    /// Why `reader` is refused.
    pub(super) fn reader_refusal(&self, factory: &Held) -> Option<ReaderCreateError>
        requires few { IsFew self.now }
        requires stands { IsStandingThing self.now factory.now }
        ensures { result ≡ reader_refusal self.now factory.now }
    {
        let number = number_of(factory, &self.names);
        self.core.reader_refusal(number)
    }

    /// Why `writer` is refused.
    pub(super) fn writer_refusal(&self, factory: &Held) -> Option<WriterCreateError>
        requires few { IsFew self.now }
        requires stands { IsStandingThing self.now factory.now }
        ensures { result ≡ writer_refusal self.now factory.now }
    {
        let number = number_of(factory, &self.names);
        self.core.writer_refusal(number)
    }

    /// Why `entry` is refused.
    pub(super) fn entry_refusal(
        &self,
        reader: &Held,
        key: &Key,
        value_type: ValueType,
    ) -> Option<EntryHandleError>
        requires few { IsFew self.now }
        requires stands { IsStandingThing self.now reader.now }
        requires kind { tables.kind_of reader.now.kind ≡ ThingKind.Reader }
        requires key { HasKeyType self.now reader.now key.now }
        ensures { result ≡ entry_refusal self.now reader.now key.now value_type }
    {
        let number = number_of(reader, &self.names);
        entry_refusal_in(&self.core, number, key, &value_detail(value_type))
    }

    /// Why `entry_mut` is refused.
    pub(super) fn entry_mut_refusal(
        &self,
        writer: &Held,
        key: &Key,
        value_type: ValueType,
    ) -> Option<EntryHandleMutError>
        requires few { IsFew self.now }
        requires stands { IsStandingThing self.now writer.now }
        requires kind { tables.kind_of writer.now.kind ≡ ThingKind.Writer }
        requires key { HasKeyType self.now writer.now key.now }
        ensures { result ≡ entry_mut_refusal self.now writer.now key.now value_type }
    {
        let number = number_of(writer, &self.names);
        entry_mut_refusal_in(&self.core, number, key, &value_detail(value_type))
    }
}
