//! The writer meets readers, and what they did makes one history.
ghost use Rattle.std.specs.Prelude.{◌≡◌, ◌≤◌, length};
ghost use Rattle.std.specs.List.{All};
ghost use Rattle.board_cell.specs.Passes.{AreOf, NotesRise, Stands};
ghost use Rattle.board_cell.specs.History.{IsLegal, TellsReadsOf, history_of, publishes_in};

use crate::threaded::cell::ThreadedCell;
use crate::threaded::reader::ReaderPass;
use crate::threaded::rule::{Look, Parts};
use crate::threaded::writer::WriterPass;

/// The last generation, once the writer has met all readers.
#[derive(Drop, Clone, Copy, Debug, PartialEq, Eq)]
pub struct Gathered {
    /// That of the last publication.
    pub generation: u64,
}

impl ThreadedCell {
    /// The writer meets a reader: each value that the reader noted is the one that was published at its generation. Both passes are of this cell.
    pub fn meet(&self, writer: &mut WriterPass, reader: &mut ReaderPass)
        requires cell { (writer.old.cell ≡ self.now.cell) × (reader.old.cell ≡ self.now.cell) }
        ensures kept { (writer.new ≡ writer.old) × (reader.new ≡ reader.old) }
        ensures notes { All (Stands writer.old.published) reader.old.notes }
        ensures rises { NotesRise reader.old.notes }
        ensures reached { reader.old.reached ≤ length writer.old.published }
    {
        let table = &self.table;
        let shown = table.shared.split_seat::<Parts>(&mut reader.seat);
        table.shared.join_seat::<Parts>(&mut writer.seat, shown);
        table.shared.load::<Look>(&mut writer.seat, 0);
    }

    /// The writer meets each reader: the publications and the readers' notes make one legal history. All passes are of this cell.
    pub fn gather(&self, writer: &mut WriterPass, readers: &mut Vec<ReaderPass>) -> Gathered
        requires cell { (writer.old.cell ≡ self.now.cell) × AreOf self.now.cell readers.old.items }
        ensures kept { (writer.new ≡ writer.old) × (readers.new.items ≡ readers.old.items) }
        ensures generation { result.generation ≡ length writer.old.published }
        ensures legal { IsLegal (history_of writer.old readers.old.items) }
        ensures publishes { let history = history_of writer.old readers.old.items in
            publishes_in history ≡ writer.old.published }
        ensures reads { TellsReadsOf readers.old.items (history_of writer.old readers.old.items) }
    {
        for i in 0..readers.len() {
            self.meet(writer, &mut readers[i]);
        }
        Gathered {
            generation: writer.generation(),
        }
    }
}
