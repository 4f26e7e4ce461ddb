//! Readers and writers.
ghost use Rattle.std.specs.Prelude.{◌≡◌, IfOk, OnOk, OnErr};
ghost use Rattle.board_layout.specs.Answer.{Answers, Refuses};
ghost use Rattle.board_service.specs.Domain as domain;
ghost use Rattle.board_service.specs.Facts.{IsHeldBeside, KeepsHeld};

use super::DomainCore;
use crate::cells::Cells;
use crate::held::thing_of;
use crate::ids::{NodeId, ThingId};
use crate::lookups::{has_all_readers, has_all_writers};
use crate::made::Made;
use crate::refusals::LAST;
use board_model::{Kind, ThingKind};
use board_names::{ReaderCreateError, WriterCreateError};

impl<C: Cells> DomainCore<C> {
    /// Makes a reader of a factory's board. `number` is its port's.
    ///
    /// # Errors
    /// `ExceedsMaxSupportedReaders` where the board has as many readers as it may; `NumbersSpent`; `OutOfMemory`. All stays as it was.
    pub fn reader(&mut self, factory: ThingId) -> Result<Made, ReaderCreateError>
        requires { domain.Stands self.old factory }
        ensures answer { Answers result ReaderCreateError.OutOfMemory
            (domain.reader_answer self.old (domain.held self.old factory)) }
        ensures refused { Refuses result
            (domain.reader_answer self.old (domain.held self.old factory)) }
        ensures ok { OnOk result
            (self.new ≡ domain.after_reader self.old (domain.held self.old factory)) }
        ensures err { OnErr result (self.new ≡ self.old) }

        // What was held is held still, and so is what was made: nobody has to ask again.
        ensures held { IfOk result
            (λ m. IsHeldBeside self.old self.new factory m.thing ThingKind.Reader) }
        ensures kept { KeepsHeld self.old self.new }
    {
        let of = thing_of(factory, &self.things);
        if has_all_readers(of.board, &self.boards, &self.things) {
            return Err(ReaderCreateError::ExceedsMaxSupportedReaders);
        }
        if self.last_port >= LAST || self.things.last() >= LAST {
            return Err(ReaderCreateError::NumbersSpent);
        }
        let port = self.last_port + 1;
        match self.add_port(NodeId(of.holder), of.board, Kind::Reader { port }) {
            Ok(made) => Ok(made),
            Err(_) => Err(ReaderCreateError::OutOfMemory),
        }
    }

    /// Makes a writer of a factory's board. `number` is its port's.
    ///
    /// # Errors
    /// `ExceedsMaxSupportedWriters` where as many writer slots of the board are taken as its limit says, one by each port number of a writer or of a write handle made from one; `NumbersSpent`; `OutOfMemory`. All stays as it was.
    pub fn writer(&mut self, factory: ThingId) -> Result<Made, WriterCreateError>
        requires { domain.Stands self.old factory }
        ensures answer { Answers result WriterCreateError.OutOfMemory
            (domain.writer_answer self.old (domain.held self.old factory)) }
        ensures refused { Refuses result
            (domain.writer_answer self.old (domain.held self.old factory)) }
        ensures ok { OnOk result
            (self.new ≡ domain.after_writer self.old (domain.held self.old factory)) }
        ensures err { OnErr result (self.new ≡ self.old) }

        // What was held is held still, and so is what was made: nobody has to ask again.
        ensures held { IfOk result
            (λ m. IsHeldBeside self.old self.new factory m.thing ThingKind.Writer) }
        ensures kept { KeepsHeld self.old self.new }
    {
        let of = thing_of(factory, &self.things);
        if has_all_writers(of.board, &self.boards, &self.things) {
            return Err(WriterCreateError::ExceedsMaxSupportedWriters);
        }
        if self.last_port >= LAST || self.things.last() >= LAST {
            return Err(WriterCreateError::NumbersSpent);
        }
        let port = self.last_port + 1;
        match self.add_port(NodeId(of.holder), of.board, Kind::Writer { port }) {
            Ok(made) => Ok(made),
            Err(_) => Err(WriterCreateError::OutOfMemory),
        }
    }
}
