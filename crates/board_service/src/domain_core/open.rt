//! Further factories of a board.
ghost use Rattle.std.specs.Prelude.{◌≡◌, ◌<◌, ◌-◌, ◌^◌, true, nat_eq, IfOk, OnOk, OnErr};
ghost use Rattle.board_layout.specs.Answer.{Answers, Refuses};
ghost use Rattle.board_layout.specs.Bytes.{details};
ghost use Rattle.board_layout.specs.declared.type_detail.TypeDetail.{TypeDetail};
ghost use Rattle.board_model.specs.TableCalls.{number_of};
ghost use Rattle.board_model.specs.Tables.{board_named, holds_at};
ghost use Rattle.board_model.specs.TypeTable.{same_type};
ghost use Rattle.board_service.specs.Domain as domain;
ghost use Rattle.board_service.specs.Facts.{IsHeldAs, KeepsHeld};

use super::DomainCore;
use crate::cells::Cells;
use crate::ids::NodeId;
use crate::made::Made;
use crate::refusals::number_of_named;
use board_concepts::AttributeVerifier;
use board_layout::BoardKey;
use board_model::{Kind, Limits, ThingKind};
use board_names::{BlackboardOpenError, ServiceName};
use std::alloc::AllocError;

impl<C: Cells> DomainCore<C> {
    /// Makes a factory of the board with this name, for a node. `number` is the board's. A limit of `None` or 0 asks nothing.
    ///
    /// # Errors
    /// The first that holds: `DoesNotExist`, no such board; `IncompatibleKeys`, its keys are of another type than `K`; `IncompatibleAttributes`, a requirement isn't met; `DoesNotSupportRequestedAmountOfReaders`, `DoesNotSupportRequestedAmountOfNodes`, the board's limit is below the asked one; `ExceedsMaxNumberOfNodes`, the node has no thing of the board and as many nodes as its limit have one; `NumbersSpent`; `OutOfMemory`. All stays as it was.
    pub fn open<K: BoardKey>(
        &mut self,
        node: NodeId,
        name: &ServiceName,
        limits: Limits,
        verifier: &AttributeVerifier,
    ) -> Result<Made, BlackboardOpenError>
        ensures answer { Answers result BlackboardOpenError.OutOfMemory
            (domain.open_answer self.old node name.now
            (details K.type_bytes K.SIZE K.ALIGNMENT) limits verifier.now) }
        ensures refused { Refuses result
            (domain.open_answer self.old node name.now
            (details K.type_bytes K.SIZE K.ALIGNMENT) limits verifier.now) }
        ensures ok { OnOk result (self.new ≡ domain.after_open self.old node name.now) }
        ensures err { OnErr result (self.new ≡ self.old) }

        // What was held is held still, and so is the factory: nobody has to ask again.
        ensures held { let keys = details K.type_bytes K.SIZE K.ALIGNMENT in
            IfOk result (λ m. IsHeldAs self.new keys m.thing ThingKind.Factory) }
        ensures kept { KeepsHeld self.old self.new }
    {
        if let Some(why) = self.open_refusal::<K>(node, name, limits, verifier) {
            return Err(why);
        }
        match self.open_unrefused(node, name) {
            Ok(made) => Ok(made),
            Err(_) => Err(BlackboardOpenError::OutOfMemory),
        }
    }

    /// Makes a factory of the board with this name, for a node, after `open_refusal` told that nothing refuses it: nothing is looked at again. `number` is the board's.
    ///
    /// # Errors
    /// `AllocError` where memory is refused. All stays as it was.
    pub fn open_unrefused(&mut self, node: NodeId, name: &ServiceName) -> Result<Made, AllocError>
        requires joins { domain.CanJoin nat_eq self.old.tables node name.now }
        requires below { self.old.last_thing < 2 ^ 64 - 2 }
        ensures made { IfOk result
            (λ m. m ≡ domain.made self.old (number_of (board_named self.old.tables name.now))) }
        ensures ok { OnOk result (self.new ≡ domain.after_open self.old node name.now) }
        ensures err { OnErr result (self.new ≡ self.old) }

        // With keys of the board's own type, the factory is held as one of a board with such keys.
        ensures held { (key : TypeDetail)
            → holds_at (board_named self.old.tables name.now) (λ b. same_type b.key key) ≡ true
            → IfOk result (λ m. IsHeldAs self.new key m.thing ThingKind.Factory) }
        ensures kept { KeepsHeld self.old self.new }
    {
        let number = number_of_named(name, &self.boards);
        let thing = self.add_thing(node, number, Kind::Factory)?;
        Ok(Made { thing, number })
    }
}
