//! The end of things, and of boards with their last one.
ghost use Rattle.std.specs.Prelude.{◌≡◌, false, is_some, IfSome};
ghost use Rattle.std.specs.List.{list_any};
ghost use Rattle.board_model.specs.Tables.{board_at, has_name};
ghost use Rattle.board_service.specs.Domain as domain;

use super::DomainCore;
use crate::cells::Cells;
use crate::descriptions::let_go;
use crate::held::take_thing;
use crate::ids::ThingId;

impl<C: Cells> DomainCore<C> {
    /// Ends a thing. Where it was its board's last, and there alone, the board goes, its cells are handed back, and its name is free. Takes no memory.
    pub fn release(&mut self, thing: ThingId) -> Option<C>
        requires { domain.Stands self.old thing }
        ensures last { is_some result ≡ domain.is_last_of_board self.old thing }
        ensures back { result
            ≡ domain.handed_back self.old thing (domain.board_of self.old thing) }
        ensures after { self.new
            ≡ domain.after_release self.old thing (domain.board_of self.old thing) }
        ensures free { IfSome result
            (λ cells. IfSome (board_at self.old.tables (domain.board_of self.old thing))
            (λ b. list_any (has_name b.name) self.new.tables.boards ≡ false)) }
    {
        let gone = take_thing(thing, &mut self.things);
        if self.things.has_thing_of(gone.board) {
            return None;
        }
        let cells = self.boards.take(gone.board);
        let_go(&mut self.descriptions, gone.board);
        Some(cells)
    }
}
