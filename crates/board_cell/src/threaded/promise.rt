//! What a thread promises of what it gives back.
ghost use Rattle.std.specs.Prelude.{◌≡◌, All};

use crate::threaded::cell::ThreadedCell;
use crate::threaded::reader::ReaderPass;
use crate::threaded::receipt::Receipt;
use crate::threaded::writer::WriterPass;
use std::snapshot::Snapshot;
use std::thread::Promise;

/// The promise of a thread, for `spawn_with`, that the pass or the receipt that it gives back is of a cell, whatever a
/// reader gives back beside its pass. So whoever joins the thread can use it with that cell.
#[derive(Drop)]
pub struct OfCell {
    cell: Snapshot<ThreadedCell>,
}

impl OfCell {
    /// That what is given back is of this cell.
    pub fn new(cell: &ThreadedCell) -> OfCell
        ensures { result.cell.value ≡ cell.now }
    {
        OfCell {
            cell: Snapshot::of(cell),
        }
    }
}

impl Promise<WriterPass> for OfCell {
    ghost kept_by = { λ p pass. pass.cell ≡ p.cell.value.cell };
}

impl Promise<ReaderPass> for OfCell {
    ghost kept_by = { λ p pass. pass.cell ≡ p.cell.value.cell };
}

impl<T> Promise<(ReaderPass, T)> for OfCell {
    ghost kept_by = { λ p both. both.0.cell ≡ p.cell.value.cell };
}

impl Promise<Receipt> for OfCell {
    ghost kept_by = { λ p receipt. receipt.cell ≡ p.cell.value.cell };
}

impl Promise<(WriterPass, Receipt)> for OfCell {
    ghost kept_by = { λ p both. (both.0.cell ≡ p.cell.value.cell) × (both.1.cell ≡ p.cell.value.cell) };
}
