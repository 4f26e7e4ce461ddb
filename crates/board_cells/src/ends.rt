//! The two ends of a cell, and receipts with their cell.
ghost use Rattle.std.specs.Prelude.{◌≡◌, IfOk};
ghost use Rattle.std.specs.Arc.{arc_value};
ghost use Rattle.board_cell.specs.Passes.{new_reader, receipt_of};

use board_cell::{CellError, ReaderPass, Receipt, ThreadedCell, WriterPass};
use std::sync::Arc;

/// A cell, and a reader's pass of it.
#[derive(Drop)]
pub struct ReadEnd {
    /// The cell, which the other ends share.
    pub cell: Arc<ThreadedCell>,
    /// A reader's pass of this cell.
    pub pass: ReaderPass,
    /// The pass is of this cell.
    pub ghost own: { pass.cell ≡ (arc_value cell).cell },
}

/// A cell, and its writer's pass.
#[derive(Drop)]
pub struct WriteEnd {
    /// The cell, which the other ends share.
    pub cell: Arc<ThreadedCell>,
    /// The pass of its writer.
    pub pass: WriterPass,
    /// The pass is of this cell.
    pub ghost own: { pass.cell ≡ (arc_value cell).cell },
}

impl ReadEnd {
    /// One more read end of the cell. Its reader knows to be reached what this one knows.
    ///
    /// # Errors
    /// `OutOfMemory` where one more owner of the cell is refused.
    pub fn share(&mut self) -> Result<ReadEnd, CellError>
        ensures cell { arc_value self.new.cell ≡ arc_value self.old.cell }
        ensures pass { self.new.pass ≡ self.old.pass }
        ensures shared { IfOk result (λ end. arc_value end.cell ≡ arc_value self.old.cell) }
        ensures fresh { let pass = self.old.pass in
            IfOk result (λ end. end.pass ≡ new_reader pass.cell pass.reached) }
    {
        let cell = Arc::try_clone(&self.cell)?;
        let pass = cell.split(&mut self.pass);
        Ok(ReadEnd { cell, pass })
    }
}

/// A receipt, and the cell that it is of. It can be sent through a lock or a channel, and whoever gets it knows as much as who sent it.
#[derive(Drop)]
pub struct SentReceipt {
    /// The cell, which the other ends share.
    pub cell: Arc<ThreadedCell>,
    /// A receipt of this cell.
    pub receipt: Receipt,
    /// The receipt is of this cell.
    pub ghost own: { receipt.cell ≡ (arc_value cell).cell },
}

impl SentReceipt {
    /// The receipt of the last publication in a cell, by the pass of its writer.
    ///
    /// # Errors
    /// `OutOfMemory` where one more owner of the cell is refused.
    pub fn new(cell: &Arc<ThreadedCell>, pass: &mut WriterPass) -> Result<SentReceipt, CellError>
        requires own { pass.old.cell ≡ (arc_value cell.now).cell }
        ensures pass { pass.new ≡ pass.old }
        ensures of_cell { IfOk result (λ sent. arc_value sent.cell ≡ arc_value cell.now) }
        ensures given { IfOk result (λ sent. sent.receipt ≡ receipt_of pass.old) }
    {
        let shared = Arc::try_clone(cell)?;
        let receipt = shared.receipt(pass);
        Ok(SentReceipt {
            cell: shared,
            receipt,
        })
    }

    /// The generation of the publication.
    pub fn generation(&self) -> u64
        ensures { result ≡ self.now.receipt.generation }
    {
        self.receipt.generation()
    }

    /// Becomes a read end of the cell, whose reader knows of the publication: its gets give that value or a later one.
    pub fn into_read_end(self) -> ReadEnd
        ensures cell { arc_value result.cell ≡ arc_value self.cell }
        ensures told { result.pass ≡ new_reader self.receipt.cell self.receipt.generation }
    {
        let SentReceipt { cell, receipt } = self;
        ReadEnd {
            cell,
            pass: receipt.into_pass(),
        }
    }
}

impl WriteEnd {
    /// The receipt of the last publication, with its cell, for a reader in another thread.
    ///
    /// # Errors
    /// `OutOfMemory` where one more owner of the cell is refused.
    pub fn receipt(&mut self) -> Result<SentReceipt, CellError>
        ensures cell { arc_value self.new.cell ≡ arc_value self.old.cell }
        ensures pass { self.new.pass ≡ self.old.pass }
        ensures of_cell { IfOk result (λ sent. arc_value sent.cell ≡ arc_value self.old.cell) }
        ensures given { IfOk result (λ sent. sent.receipt ≡ receipt_of self.old.pass) }
    {
        SentReceipt::new(&self.cell, &mut self.pass)
    }
}
