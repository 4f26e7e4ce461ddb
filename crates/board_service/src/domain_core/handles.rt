//! Handles of entries.
ghost use Rattle.std.specs.Prelude.{true, ◌≡◌, IfOk, OnOk, OnErr};
ghost use Rattle.board_layout.specs.Answer.{Answers, Refuses};
ghost use Rattle.board_layout.specs.Keys.{is_key};
ghost use Rattle.board_layout.specs.Bytes.{details};
ghost use Rattle.board_service.specs.Domain as domain;
ghost use Rattle.board_service.specs.Facts.{IsHeldBeside, KeepsHeld};

use super::DomainCore;
use crate::cells::Cells;
use crate::held::thing_of;
use crate::ids::{NodeId, ThingId};
use crate::lookups::find_entry;
use crate::made::Found;
use crate::refusals::LAST;
use board_layout::{BoardKey, TypeDetail};
use board_model::{Kind, ThingKind};
use board_names::{EntryHandleError, EntryHandleMutError};

impl<C: Cells> DomainCore<C> {
    /// Makes a read handle of the entry with this key and these details of its values, from a reader of a board whose keys are `K`'s.
    ///
    /// # Errors
    /// `EntryDoesNotExist` where no entry has an equal key, or its values are of another type; `NumbersSpent`; `OutOfMemory`. All stays as it was.
    pub fn entry<K: BoardKey>(
        &mut self,
        reader: ThingId,
        key: &K,
        value: &TypeDetail,
    ) -> Result<Found, EntryHandleError>
        requires { domain.stands_as self.old (details K.type_bytes K.SIZE K.ALIGNMENT)
            reader ThingKind.Reader ≡ true }
        ensures answer { Answers result EntryHandleError.OutOfMemory
            (domain.entry_answer self.old (domain.entry_of_thing self.old reader
            (is_key K.eq K.value_of K.SIZE K.WORDS key.now) value.now)) }
        ensures refused { Refuses result
            (domain.entry_answer self.old (domain.entry_of_thing self.old reader
            (is_key K.eq K.value_of K.SIZE K.WORDS key.now) value.now)) }
        ensures ok { OnOk result
            (self.new ≡ domain.after_entry self.old (domain.held self.old reader)
            (domain.entry_of_thing self.old reader
            (is_key K.eq K.value_of K.SIZE K.WORDS key.now) value.now)) }
        ensures err { OnErr result (self.new ≡ self.old) }

        // What was held is held still, and so is what was made: nobody has to ask again.
        ensures held { IfOk result
            (λ f. IsHeldBeside self.old self.new reader f.thing ThingKind.ReadHandle) }
        ensures kept { KeepsHeld self.old self.new }
    {
        let of = thing_of(reader, &self.things);
        let Some((entry, found)) = find_entry::<K, C>(of.board, key, value, &self.boards) else {
            return Err(EntryHandleError::EntryDoesNotExist);
        };
        let cell = found.cell;
        if self.things.last() >= LAST {
            return Err(EntryHandleError::NumbersSpent);
        }
        let kind = Kind::ReadHandle { entry };
        match self.add_thing(NodeId(of.holder), of.board, kind) {
            Ok(thing) => Ok(Found::at(thing, entry, &cell)),
            Err(_) => Err(EntryHandleError::OutOfMemory),
        }
    }

    /// Makes a write handle of the entry with this key and these details of its values, from a writer of a board whose keys are `K`'s.
    ///
    /// # Errors
    /// `EntryDoesNotExist` as for `entry`; `HandleAlreadyExists` where a write handle of the entry stands; `NumbersSpent`; `OutOfMemory`. All stays as it was.
    pub fn entry_mut<K: BoardKey>(
        &mut self,
        writer: ThingId,
        key: &K,
        value: &TypeDetail,
    ) -> Result<Found, EntryHandleMutError>
        requires { domain.stands_as self.old (details K.type_bytes K.SIZE K.ALIGNMENT)
            writer ThingKind.Writer ≡ true }
        ensures answer { Answers result EntryHandleMutError.OutOfMemory
            (domain.entry_mut_answer self.old (domain.held self.old writer)
            (domain.entry_of_thing self.old writer
            (is_key K.eq K.value_of K.SIZE K.WORDS key.now) value.now)) }
        ensures refused { Refuses result
            (domain.entry_mut_answer self.old (domain.held self.old writer)
            (domain.entry_of_thing self.old writer
            (is_key K.eq K.value_of K.SIZE K.WORDS key.now) value.now)) }
        ensures ok { OnOk result
            (self.new ≡ domain.after_entry_mut self.old (domain.held self.old writer)
            (domain.entry_of_thing self.old writer
            (is_key K.eq K.value_of K.SIZE K.WORDS key.now) value.now)) }
        ensures err { OnErr result (self.new ≡ self.old) }

        // What was held is held still, and so is what was made: nobody has to ask again.
        ensures held { IfOk result
            (λ f. IsHeldBeside self.old self.new writer f.thing ThingKind.WriteHandle) }
        ensures kept { KeepsHeld self.old self.new }
    {
        let of = thing_of(writer, &self.things);
        let Some((entry, found)) = find_entry::<K, C>(of.board, key, value, &self.boards) else {
            return Err(EntryHandleMutError::EntryDoesNotExist);
        };
        let cell = found.cell;
        if self.things.has_write_handle(of.board, entry) {
            return Err(EntryHandleMutError::HandleAlreadyExists);
        }
        if self.things.last() >= LAST {
            return Err(EntryHandleMutError::NumbersSpent);
        }
        let kind = Kind::WriteHandle {
            entry,
            port: of.kind.port(),
        };
        match self.add_thing(NodeId(of.holder), of.board, kind) {
            Ok(thing) => Ok(Found::at(thing, entry, &cell)),
            Err(_) => Err(EntryHandleMutError::OutOfMemory),
        }
    }
}
