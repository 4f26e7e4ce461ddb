//! Letting a thing or a value go.
ghost use Rattle.board_model.specs.Replies.{dropped, released_thing};
ghost use Rattle.board_model.specs.Things.{thing_of};
ghost use Rattle.script_board_tables.specs.Tables.{Has, memory_of, published_of, standing_of, tables_of};

use crate::tables::BoardTables;
use board_model::Name;

impl BoardTables {
    /// What the party held under the name goes, and a board with its last thing.
    pub fn release(&mut self, party: &Name, name: &Name)
        ensures { Has self.new (dropped (standing_of self.old) party.now name.now)
            (memory_of self.old) (published_of self.old) }
    {
        self.forget_words(party, name);
        self.forget_value(party, name);
        self.let_go(party, name);
    }

    // The thing goes, and a board with its last one.
    fn let_go(&mut self, party: &Name, name: &Name)
        ensures { Has self.new (record (standing_of self.old) {
          tables = released_thing (tables_of self.old) party.now name.now
              (thing_of self.old.things party.now name.now);
        })
            (memory_of self.old) (published_of self.old) }
    {
        let Some(gone) = self.things.take(party, name) else {
            return;
        };
        if self.things.has_thing(gone.board) {
            return;
        }
        self.boards.take(gone.board);
    }
}
