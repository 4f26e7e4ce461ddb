//! Calls on a cell: which word a get reads next, and which one a publication writes.
ghost use Rattle.std.specs.Prelude.{◌≡◌, ◌-◌, ◌<◌, ◌≤◌, ◌^◌, IfSome, length};
ghost use Rattle.board_cell_model.specs.OwedAccesses as model;
ghost use Rattle.script_board_rows.specs.CellCalls.{Hears, IsSmall, IsWithin, OwesRead, OwesWrite};

use board_layout::CellShape;

/// How far a get is that hasn't finished.
#[derive(Clone, Copy, Debug, PartialEq, Eq)]
pub enum Reading {
    /// Nothing was read.
    Opening,
    /// A try that began with this counter has read so many words.
    Trying { counter: u64, read: u64 },
}

/// A word that is written, and its value.
#[derive(Clone, Copy, Debug, PartialEq, Eq)]
pub struct Written {
    /// The place of the word.
    pub word: u64,
    /// What it becomes.
    pub value: u64,
}

/// The first word of the copy that is spare at this counter.
pub fn spare_at(cell: &CellShape, counter: u64) -> u64
    requires { IsSmall cell.now }
    ensures { result ≡ model.spare_at cell.now counter }
{
    cell.first + cell.head + counter % 2 * cell.words
}

/// The first word of the copy that is current at this counter.
pub fn current_at(cell: &CellShape, counter: u64) -> u64
    requires { IsSmall cell.now }
    ensures { result ≡ model.current_at cell.now counter }
{
    cell.first + cell.head + (1 - counter % 2) * cell.words
}

/// The word that a get reads next.
pub fn word_to_read(cell: &CellShape, reading: Reading) -> u64
    requires small { IsSmall cell.now }
    requires within { IsWithin cell.now reading }
    ensures { OwesRead cell.now reading result }
{
    match reading {
        Reading::Opening => cell.first,
        Reading::Trying { counter, read } => {
            if read == cell.words {
                return cell.first;
            }
            current_at(cell, counter) + read
        }
    }
}

/// How far a get is after one more word, or nothing where it has finished.
pub fn heard(cell: &CellShape, reading: Reading, word: u64) -> Option<Reading>
    requires small { IsSmall cell.now }
    requires within { IsWithin cell.now reading }
    ensures hears { Hears cell.now reading word result }
    ensures within { IfSome result (IsWithin cell.now) }
{
    match reading {
        Reading::Opening => Some(Reading::Trying {
            counter: word,
            read: 0,
        }),
        Reading::Trying { counter, read } => {
            if read != cell.words {
                return Some(Reading::Trying {
                    counter,
                    read: read + 1,
                });
            }
            if word == counter {
                return None;
            }
            Some(Reading::Trying {
                counter: word,
                read: 0,
            })
        }
    }
}

/// What a publication at a generation writes next, of whose words so many were written: the words into the spare copy in
/// order, and then the counter.
pub fn word_to_write(cell: &CellShape, generation: u64, words: &[u64], written: usize) -> Written
    requires small { IsSmall cell.now }
    requires room { generation < 2 ^ 64 - 1 }
    requires within { written ≤ length words.now }
    requires words { length words.now ≤ cell.now.words }
    ensures { OwesWrite cell.now generation words.now written result.word result.value }
{
    if written == words.len() {
        return Written {
            word: cell.first,
            value: generation + 1,
        };
    }
    Written {
        word: spare_at(cell, generation) + written as u64,
        value: words[written],
    }
}
