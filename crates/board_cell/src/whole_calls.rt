//! Whole calls on a cell, for a thread that has the words alone: nobody writes between two of its accesses, so a get needs one try.
ghost use Rattle.std.specs.Prelude.{◌≡◌, ◌+◌, ◌^◌, ◌<◌, ◌==◌, length};
ghost use Rattle.board_cell.specs.WholeCalls.{LiesAmong, HasValue, PublishesIn, generation_in};

use crate::copies::{current_copy, spare_word};
use crate::words::Words;
use board_layout::CellShape;

/// Reads the value of the cell of this shape among these words. Gives its generation, and its words in `out`.
pub fn get_on<W: Words>(words: &mut W, shape: CellShape, out: &mut Vec<u64>) -> u64
    requires cell { LiesAmong shape (W.list words.old) }
    requires width { length out.old.items ≡ shape.words }
    ensures same { W.list words.new ≡ W.list words.old }
    ensures generation { result ≡ generation_in shape (W.list words.old) }
    ensures value { HasValue shape (W.list words.old) out.new.items }
{
    let _count = words.len();
    let generation = words.load(shape.first);
    let copy = current_copy(shape, generation);
    for i in 0..shape.words {
        out[i as usize] = words.load(copy + i);
    }
    generation
}

/// Whether the cell of this shape among these words is at this generation.
pub fn fresh_on<W: Words>(words: &mut W, shape: CellShape, generation: u64) -> bool
    requires { LiesAmong shape (W.list words.old) }
    ensures same { W.list words.new ≡ W.list words.old }
    ensures answer { result ≡ (generation_in shape (W.list words.old) == generation) }
{
    words.load(shape.first) == generation
}

/// Publishes a value in the cell of this shape among these words: its words go into the spare copy, and then the counter is raised. Gives the new generation.
pub fn update_on<W: Words>(words: &mut W, shape: CellShape, value: &Vec<u64>) -> u64
    requires cell { LiesAmong shape (W.list words.old) }
    requires width { length value.now.items ≡ shape.words }
    requires room { generation_in shape (W.list words.old) + 1 < 2 ^ 64 }
    ensures published { PublishesIn shape value.now.items (W.list words.old) (W.list words.new) }
    ensures generation { result ≡ generation_in shape (W.list words.new) }
{
    let _count = words.len();
    let generation = words.load(shape.first);
    for i in 0..shape.words {
        words.store(spare_word(shape, generation, i), value[i as usize]);
    }
    words.store(shape.first, generation + 1);
    generation + 1
}
