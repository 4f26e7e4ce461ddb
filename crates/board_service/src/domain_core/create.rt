//! New boards.
ghost use Rattle.std.specs.Prelude.{◌≡◌, true, ◌≤◌, ◌<◌, ◌^◌, None, length, IfOk, IfSome, OnOk, OnErr};
ghost use Rattle.board_layout.specs.Answer.{Answers, Refuses};
ghost use Rattle.board_layout.specs.Keys.{same_keys};
ghost use Rattle.board_layout.specs.Bytes.{details};
ghost use Rattle.board_service.specs.Domain.{new_limits};
ghost use Rattle.board_service.specs.Domain as domain;
ghost use Rattle.board_service.specs.Facts.{IsHeldAs, KeepsHeld};
ghost use Rattle.board_service.specs.Entries.{HaveShapes, added, cells_for, first_words_at, payload_of};
ghost use Rattle.board_names.specs.Table.{at, putting};
ghost use Rattle.board_store.specs.declared.statics.Stored.TheVariants.{Final};

use super::DomainCore;
use crate::cells::Cells;
use crate::descriptions::{keep, path_of, spell};
use crate::held::push;
use crate::ids::NodeId;
use crate::made::Made;
use crate::new_entry::NewEntry;
use crate::planned::{entries_for, plan_for};
use crate::refusals::{create_refusal, limit_of};
use board_cell::CellError;
use board_concepts::{AttributeSet, Description};
use board_index::{BoardParts, NewBoard};
use board_layout::{BoardKey, Plan, TypeDetail, TypeVariant};
use board_model::{Kind, Limits, ThingKind};
use board_names::{BlackboardCreateError, FilePath, NameTable, ServiceName};
use board_store::Statics;
use std::alloc::{AllocError, Global};

// Makes the cells of a board, and keeps the bytes of its description under a name that is free. Where memory fails the name is free again.
fn make_described<C: Cells>(
    alloc: Global,
    plan: &Plan,
    entries: &Vec<NewEntry>,
    descriptions: &mut Statics,
    path: &FilePath,
    bytes: &[u8],
) -> Result<C, AllocError>
    requires plan { plan.now.cells.items ≡ cells_for entries.now.items }
    requires small { payload_of entries.now.items < 2 ^ 32 }
    requires free { at descriptions.old path.now ≡ None }
    ensures opened { IfOk result (C.opened plan.now.cells.items (added entries.now.items)) }
    ensures words { IfOk result (λ c. IfSome (C.words c)
        (λ ws. ws ≡ first_words_at plan.now.cells.items entries.now.items)) }
    ensures ok { OnOk result
        (descriptions.new ≡ putting descriptions.old path.now (Final bytes.now)) }
    ensures err { OnErr result (descriptions.new ≡ descriptions.old) }
{
    let Ok(()) = keep(descriptions, path, bytes) else {
        return Err(AllocError);
    };
    match C::make(alloc, plan, entries) {
        Ok(cells) => Ok(cells),
        Err(CellError::OutOfMemory) => {
            let _ = descriptions.remove(path);
            Err(AllocError)
        }
    }
}

impl<C: Cells> DomainCore<C> {
    /// Makes a board, and a factory of it for a node. `number` is the board's. Where the words of cells are known, they are those that open with the entries' values. A limit of `None` is 8 readers, 20 nodes or 1 writer; one of 0 is raised to 1.
    ///
    /// # Errors
    /// The first that holds: `AlreadyExists`, a board of this name stands; `NoEntriesProvided`; `ServiceInCorruptedState`, two keys are equal by `K`, or the cells ask for more than 4294967295 bytes; `NumbersSpent`; `OutOfMemory`. All stays as it was.
    pub fn create<K: BoardKey>(
        &mut self,
        node: NodeId,
        name: &ServiceName,
        limits: Limits,
        writers: Option<u64>,
        attributes: AttributeSet,
        entries: Vec<NewEntry>,
    ) -> Result<Made, BlackboardCreateError>
        requires size { 0 < length entries.items → K.SIZE ≤ 64 }
        requires shapes { HaveShapes entries.items }
        ensures answer { Answers result BlackboardCreateError.OutOfMemory
            (domain.create_answer self.old (same_keys K.eq K.value_of K.SIZE K.WORDS)
            name.now (added entries.items)) }
        ensures refused { Refuses result
            (domain.create_answer self.old (same_keys K.eq K.value_of K.SIZE K.WORDS)
            name.now (added entries.items)) }
        ensures ok { OnOk result
            (domain.IsCreated C.opened C.words self.old self.new node name.now
            (details K.type_bytes K.SIZE K.ALIGNMENT) (new_limits limits writers) attributes
            (added entries.items)) }
        ensures err { OnErr result (self.new ≡ self.old) }

        // What was held is held still, and so is the factory: nobody has to ask.
        ensures held { let keys = details K.type_bytes K.SIZE K.ALIGNMENT in
            IfOk result (λ m. IsHeldAs self.new keys m.thing ThingKind.Factory) }
        ensures kept { KeepsHeld self.old self.new }
    {
        let wanted = entries.as_slice();
        let last_thing = self.things.last();
        let refusal = create_refusal::<K, C>(self.alloc, name, wanted, &self.boards, last_thing);
        if let Some(why) = refusal {
            return Err(why);
        }
        let Ok(plan) = plan_for(self.alloc, wanted) else {
            return Err(BlackboardCreateError::OutOfMemory);
        };
        let Ok(kept) = entries_for(self.alloc, &plan.cells, wanted) else {
            return Err(BlackboardCreateError::OutOfMemory);
        };
        if self.boards.reserve().is_err() || self.things.reserve().is_err() {
            return Err(BlackboardCreateError::OutOfMemory);
        }
        let description = Description {
            version: 2,
            name: *name,
            key: TypeDetail::new::<K>(TypeVariant::FixedSize),
            max_readers: limit_of(8, limits.max_readers),
            max_nodes: limit_of(20, limits.max_nodes),
            max_writers: limit_of(1, writers),
            attributes,
        };
        let Ok(bytes) = spell(self.alloc, &description) else {
            return Err(BlackboardCreateError::OutOfMemory);
        };
        let number = self.boards.last() + 1;
        let parts = BoardParts {
            number,
            name: description.name,
            key: description.key,
            equal_by_bytes: K::is_equal_by_bytes(),
            max_readers: description.max_readers,
            max_nodes: description.max_nodes,
            max_writers: description.max_writers,
            attributes: description.attributes,
            entries: kept,
        };
        let Ok(board) = NewBoard::new(self.alloc, parts) else {
            return Err(BlackboardCreateError::OutOfMemory);
        };
        let path = path_of(number);
        let made = make_described(
            self.alloc,
            &plan,
            &entries,
            &mut self.descriptions,
            &path,
            &bytes,
        );
        let Ok(cells) = made else {
            return Err(BlackboardCreateError::OutOfMemory);
        };
        self.boards.push_reserved(board, cells);
        let thing = push(node, number, Kind::Factory, &mut self.things);
        Ok(Made { thing, number })
    }
}
