//! A new machine, and the words of a board.
ghost use Rattle.std.specs.Prelude.{◌≡◌, IfNone, IfOk, IfSome, OnErr};
ghost use Rattle.board_model.specs.declared.line.Line.TheVariants as line;
ghost use Rattle.board_model.specs.LawfulSession.{start};
ghost use Rattle.script_boards.specs.Listings.{AreWordsOf, HasBoard, HasNoBoard};
ghost use Rattle.script_boards.specs.Machine.{Represents, drawn_by};
ghost use Rattle.script_boards.specs.Wants.{MayWant};

use crate::machine::BoardMachine;
use crate::tasks::PartyTasks;
use board_service::BoardWords;
use script_parties::PartyDomain;
use std::alloc::{AllocError, Global};
use std::collections::HashMap;

impl<C: BoardWords + Drop> BoardMachine<C> {
    /// A machine that stands for the state before the first line. It takes no memory.
    pub fn new(alloc: Global) -> BoardMachine<C>
        ensures state { Represents result start }
        ensures drawn { drawn_by result ≡ 0 }
    {
        BoardMachine {
            alloc,
            domain: PartyDomain::new(alloc),
            parties: PartyTasks::new(alloc),
            values: HashMap::new(alloc),
            loans: HashMap::new(alloc),
        }
    }

    /// The words of a board, where it stands.
    ///
    /// # Errors
    /// `AllocError` where memory is refused, and the board stands.
    pub fn words_of(&mut self, number: u64) -> Result<Option<Vec<u64>>, AllocError>
        ensures same { self.new ≡ self.old }
        ensures none { IfOk result (λ found. IfNone found (HasNoBoard self.old number)) }
        ensures stands { IfOk result (λ found. IfSome found (λ words. HasBoard self.old number)) }
        ensures words { IfOk result (λ found. IfSome found
            (λ words. AreWordsOf self.old number words.items)) }
        ensures memory { OnErr result (MayWant self.old (line.Words number)) }
    {
        self.domain.copy_words(number)
    }
}
