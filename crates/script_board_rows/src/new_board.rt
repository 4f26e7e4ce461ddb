//! A new board: its entries, its words, and what is published of it at first.
ghost use Rattle.std.specs.Prelude.{◌≡◌, ◌∷◌, [], All, IfOk, length, map};
ghost use Rattle.board_layout.specs.Layout.{opening_words};
ghost use Rattle.board_model.specs.Replies.{added_of};
ghost use Rattle.board_model.specs.Tables as tables;
ghost use Rattle.board_model.specs.TypeTable as types;
ghost use Rattle.script_board_rows.specs.NewBoards.{AreFirstLists, IsOpened, IsOpenedAt, IsSmallPlace, first_values};

use board_layout::{CellPlace, Plan, PlanError, Shape, plan, push_cell, push_zeros};
use board_model::{AddedEntry, Entry, Value, Words, key_bytes, type_of, value_detail, value_words};
use std::alloc::{AllocError, Global};

/// The entries of a new board, its words, and of each entry all values that were published.
#[derive(Drop, Debug)]
pub struct Opening {
    /// The entries.
    pub entries: Vec<Entry>,
    /// The words.
    pub words: Vec<u64>,
    /// Of each entry all values that were published, each as its words.
    pub published: Vec<Vec<Words>>,
}

// The room that each of the added entries needs.
fn shapes_of(alloc: Global, added: &[AddedEntry]) -> Result<Vec<Shape>, AllocError>
    ensures { IfOk result (λ v. v.items ≡ tables.shapes_of (map added_of added.now)) }
{
    let mut shapes = Vec::new(alloc);
    for entry in added {
        let words = value_words(alloc, entry.value)?;
        let detail = value_detail(type_of(entry.value));
        shapes.push(Shape {
            words: words.len() as u64,
            alignment: detail.alignment as u64,
        })?;
    }
    Ok(shapes)
}

// The words of the cells, which open with the values.
fn words_of(
    alloc: Global,
    cells: &[CellPlace],
    added: &[AddedEntry],
) -> Result<Vec<u64>, AllocError>
    requires each { length cells.now ≡ length added.now }
    requires small { All IsSmallPlace cells.now }
    ensures { IfOk result (λ v. v.items ≡ opening_words 0 cells.now (first_values added.now)) }
{
    let mut words = Vec::new(alloc);
    let mut at: u64 = 0;
    for (i, cell) in cells.iter().enumerate() {
        push_zeros(&mut words, cell.first.saturating_sub(at))?;
        let value = value_words(alloc, added[i].value)?;
        push_cell(&mut words, cell, &value)?;
        at = cell.first + cell.head + 2 * cell.words;
    }
    Ok(words)
}

// The entries, each at its cell.
fn entries_of(
    alloc: Global,
    cells: &[CellPlace],
    added: &[AddedEntry],
) -> Result<Vec<Entry>, AllocError>
    requires { length cells.now ≡ length added.now }
    ensures { IfOk result (λ v. v.items
        ≡ tables.entries_of cells.now (map added_of added.now)) }
{
    let mut entries = Vec::new(alloc);
    for (i, cell) in cells.iter().enumerate() {
        let entry = &added[i];
        entries.push(Entry {
            key: key_bytes(&entry.key),
            value: value_detail(type_of(entry.value)),
            cell: *cell,
        })?;
    }
    Ok(entries)
}

// The one value that is published of an entry at first.
fn first_list(alloc: Global, value: Value) -> Result<Vec<Words>, AllocError>
    ensures { IfOk result (λ v. v.items ≡ types.value_words value ∷ []) }
{
    let words = Words::from_vec(value_words(alloc, value)?);
    let mut list = Vec::new(alloc);
    list.push(words)?;
    Ok(list)
}

// What is published of each entry at first.
fn published_of(alloc: Global, added: &[AddedEntry]) -> Result<Vec<Vec<Words>>, AllocError>
    ensures { IfOk result (λ v. AreFirstLists v.items added.now) }
{
    let mut published = Vec::new(alloc);
    for entry in added {
        published.push(first_list(alloc, entry.value)?)?;
    }
    Ok(published)
}

// The same, at planned cells.
fn open_at(alloc: Global, planned: &Plan, added: &[AddedEntry]) -> Result<Opening, AllocError>
    requires each { length planned.now.cells.items ≡ length added.now }
    requires small { All IsSmallPlace planned.now.cells.items }
    ensures { IfOk result (IsOpenedAt planned.now.cells.items added.now) }
{
    Ok(Opening {
        entries: entries_of(alloc, &planned.cells, added)?,
        words: words_of(alloc, &planned.cells, added)?,
        published: published_of(alloc, added)?,
    })
}

/// Lays out the cells of a new board and fills them, or gives nothing where they ask for more than 4294967295 bytes.
///
/// # Errors
/// `AllocError` where memory is refused.
pub fn open(alloc: Global, added: &[AddedEntry]) -> Result<Option<Opening>, AllocError>
    ensures { IfOk result (IsOpened added.now) }
{
    let shapes = shapes_of(alloc, added)?;
    match plan(alloc, &shapes) {
        Ok(planned) => Ok(Some(open_at(alloc, &planned, added)?)),
        Err(PlanError::TooLarge) => Ok(None),
        Err(PlanError::OutOfMemory) => Err(AllocError),
    }
}
