//! Why a call would be refused, and what it would make, for callers that take memory of their own first. None of these needs memory: equal keys of many entries are looked for with a set of hashes, and one after another where it gets none.
ghost use Rattle.std.specs.Prelude.{◌≡◌, ◌≤◌, ◌<◌, ◌-◌, ◌^◌, true, length, nat_eq, IfNone, OnOk};
ghost use Rattle.std.specs.List.{list_any};
ghost use Rattle.board_layout.specs.Keys.{is_key, same_keys};
ghost use Rattle.board_layout.specs.Bytes.{details};
ghost use Rattle.board_model.specs.TableCalls.{first_of};
ghost use Rattle.board_model.specs.Tables as tables;
ghost use Rattle.board_model.specs.TypeTable.{same_type};
ghost use Rattle.board_service.specs.Domain as domain;
ghost use Rattle.board_service.specs.Entries.{HaveShapes, added};

use super::DomainCore;
use crate::cells::Cells;
use crate::held::thing_of;
use crate::ids::{NodeId, ThingId};
use crate::lookups::{find_entry, has_all_readers, has_all_writers};
use crate::made::{Found, Made};
use crate::new_entry::NewEntry;
use crate::refusals::{LAST, create_refusal, number_of_named, open_refusal};
use board_concepts::AttributeVerifier;
use board_layout::{BoardKey, TypeDetail, TypeVariant};
use board_model::{Limits, ThingKind};
use board_names::{
    BlackboardCreateError, BlackboardOpenError, EntryHandleError, EntryHandleMutError,
    ReaderCreateError, ServiceName, WriterCreateError,
};

impl<C: Cells> DomainCore<C> {
    /// Whether a board of this name stands.
    pub fn has_board(&self, name: &ServiceName) -> bool
        ensures { result ≡ list_any (tables.has_name name.now) self.now.tables.boards }
    {
        self.boards.has_name(name)
    }

    /// Why `create` would be refused, want of memory aside.
    pub fn create_refusal<K: BoardKey>(
        &self,
        name: &ServiceName,
        entries: &[NewEntry],
    ) -> Option<BlackboardCreateError>
        requires size { 0 < length entries.now → K.SIZE ≤ 64 }
        requires shapes { HaveShapes entries.now }
        ensures { result ≡ first_of (domain.create_list self.now
            (same_keys K.eq K.value_of K.SIZE K.WORDS) name.now (added entries.now)) }
    {
        create_refusal::<K, C>(self.alloc, name, entries, &self.boards, self.things.last())
    }

    /// Why `open` would be refused, want of memory aside.
    pub fn open_refusal<K: BoardKey>(
        &self,
        node: NodeId,
        name: &ServiceName,
        limits: Limits,
        verifier: &AttributeVerifier,
    ) -> Option<BlackboardOpenError>
        ensures first { result ≡ first_of (domain.open_list self.now node name.now
            (details K.type_bytes K.SIZE K.ALIGNMENT) limits verifier.now) }

        // Where nothing refuses it, `open_unrefused` may be called.
        ensures joins { IfNone result (domain.CanJoin nat_eq self.now.tables node name.now) }
        ensures below { IfNone result (self.now.last_thing < 2 ^ 64 - 2) }

        // And the board's keys are of the type asked for.
        ensures alike { IfNone result (tables.holds_at (tables.board_named self.now.tables name.now)
            (λ b. same_type b.key (details K.type_bytes K.SIZE K.ALIGNMENT)) ≡ true) }
    {
        let key = TypeDetail::new::<K>(TypeVariant::FixedSize);
        open_refusal(
            node,
            name,
            &key,
            &limits,
            verifier,
            &self.boards,
            &self.things,
            self.things.last(),
        )
    }

    /// What `open` would answer, want of memory aside: the factory that it would make.
    pub fn open_answer<K: BoardKey>(
        &self,
        node: NodeId,
        name: &ServiceName,
        limits: Limits,
        verifier: &AttributeVerifier,
    ) -> Result<Made, BlackboardOpenError>
        ensures answer { result ≡ domain.open_answer self.now node name.now
            (details K.type_bytes K.SIZE K.ALIGNMENT) limits verifier.now }

        // Where it would make one, `open_unrefused` may be called.
        ensures joins { OnOk result (domain.CanJoin nat_eq self.now.tables node name.now) }
        ensures below { OnOk result (self.now.last_thing < 2 ^ 64 - 2) }

        // And the board's keys are of the type asked for.
        ensures alike { OnOk result (tables.holds_at (tables.board_named self.now.tables name.now)
            (λ b. same_type b.key (details K.type_bytes K.SIZE K.ALIGNMENT)) ≡ true) }
    {
        if let Some(why) = self.open_refusal::<K>(node, name, limits, verifier) {
            return Err(why);
        }
        Ok(Made {
            thing: ThingId(self.things.last() + 1),
            number: number_of_named(name, &self.boards),
        })
    }

    /// Why `reader` would be refused, want of memory aside.
    pub fn reader_refusal(&self, factory: ThingId) -> Option<ReaderCreateError>
        requires { domain.Stands self.now factory }
        ensures { result ≡ first_of (domain.reader_list self.now (domain.held self.now factory)) }
    {
        let of = thing_of(factory, &self.things);
        if has_all_readers(of.board, &self.boards, &self.things) {
            return Some(ReaderCreateError::ExceedsMaxSupportedReaders);
        }
        if self.last_port >= LAST || self.things.last() >= LAST {
            return Some(ReaderCreateError::NumbersSpent);
        }
        None
    }

    /// Why `writer` would be refused, want of memory aside.
    pub fn writer_refusal(&self, factory: ThingId) -> Option<WriterCreateError>
        requires { domain.Stands self.now factory }
        ensures { result ≡ first_of (domain.writer_list self.now (domain.held self.now factory)) }
    {
        let of = thing_of(factory, &self.things);
        if has_all_writers(of.board, &self.boards, &self.things) {
            return Some(WriterCreateError::ExceedsMaxSupportedWriters);
        }
        if self.last_port >= LAST || self.things.last() >= LAST {
            return Some(WriterCreateError::NumbersSpent);
        }
        None
    }

    /// What `entry` would answer, want of memory aside: the handle that it would make.
    pub fn entry_answer<K: BoardKey>(
        &self,
        reader: ThingId,
        key: &K,
        value: &TypeDetail,
    ) -> Result<Found, EntryHandleError>
        requires { domain.stands_as self.now (details K.type_bytes K.SIZE K.ALIGNMENT) reader
            ThingKind.Reader ≡ true }
        ensures { result ≡ domain.entry_answer self.now (domain.entry_of_thing self.now
            reader (is_key K.eq K.value_of K.SIZE K.WORDS key.now) value.now) }
    {
        let of = thing_of(reader, &self.things);
        let Some((entry, found)) = find_entry::<K, C>(of.board, key, value, &self.boards) else {
            return Err(EntryHandleError::EntryDoesNotExist);
        };
        if self.things.last() >= LAST {
            return Err(EntryHandleError::NumbersSpent);
        }
        let next = ThingId(self.things.last() + 1);
        Ok(Found::at(next, entry, &found.cell))
    }

    /// What `entry_mut` would answer, want of memory aside: the handle that it would make.
    pub fn entry_mut_answer<K: BoardKey>(
        &self,
        writer: ThingId,
        key: &K,
        value: &TypeDetail,
    ) -> Result<Found, EntryHandleMutError>
        requires { domain.stands_as self.now (details K.type_bytes K.SIZE K.ALIGNMENT) writer
            ThingKind.Writer ≡ true }
        ensures { result ≡ domain.entry_mut_answer self.now (domain.held self.now writer)
            (domain.entry_of_thing self.now writer
            (is_key K.eq K.value_of K.SIZE K.WORDS key.now) value.now) }
    {
        let of = thing_of(writer, &self.things);
        let Some((entry, found)) = find_entry::<K, C>(of.board, key, value, &self.boards) else {
            return Err(EntryHandleMutError::EntryDoesNotExist);
        };
        if self.things.has_write_handle(of.board, entry) {
            return Err(EntryHandleMutError::HandleAlreadyExists);
        }
        if self.things.last() >= LAST {
            return Err(EntryHandleMutError::NumbersSpent);
        }
        let next = ThingId(self.things.last() + 1);
        Ok(Found::at(next, entry, &found.cell))
    }

    /// Why `entry` would be refused, want of memory aside.
    pub fn entry_refusal<K: BoardKey>(
        &self,
        reader: ThingId,
        key: &K,
        value: &TypeDetail,
    ) -> Option<EntryHandleError>
        requires { domain.stands_as self.now (details K.type_bytes K.SIZE K.ALIGNMENT) reader
            ThingKind.Reader ≡ true }
        ensures { result ≡ first_of (domain.entry_list self.now (domain.entry_of_thing self.now
            reader (is_key K.eq K.value_of K.SIZE K.WORDS key.now) value.now)) }
    {
        let of = thing_of(reader, &self.things);
        let Some((_entry, _found)) = find_entry::<K, C>(of.board, key, value, &self.boards) else {
            return Some(EntryHandleError::EntryDoesNotExist);
        };
        if self.things.last() >= LAST {
            return Some(EntryHandleError::NumbersSpent);
        }
        None
    }

    /// Why `entry_mut` would be refused, want of memory aside.
    pub fn entry_mut_refusal<K: BoardKey>(
        &self,
        writer: ThingId,
        key: &K,
        value: &TypeDetail,
    ) -> Option<EntryHandleMutError>
        requires { domain.stands_as self.now (details K.type_bytes K.SIZE K.ALIGNMENT) writer
            ThingKind.Writer ≡ true }
        ensures { result ≡ first_of (domain.entry_mut_list self.now (domain.held self.now writer)
            (domain.entry_of_thing self.now writer
            (is_key K.eq K.value_of K.SIZE K.WORDS key.now) value.now)) }
    {
        let of = thing_of(writer, &self.things);
        let Some((entry, _found)) = find_entry::<K, C>(of.board, key, value, &self.boards) else {
            return Some(EntryHandleMutError::EntryDoesNotExist);
        };
        if self.things.has_write_handle(of.board, entry) {
            return Some(EntryHandleMutError::HandleAlreadyExists);
        }
        if self.things.last() >= LAST {
            return Some(EntryHandleMutError::NumbersSpent);
        }
        None
    }
}
