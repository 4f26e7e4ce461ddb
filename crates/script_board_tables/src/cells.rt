//! Words, published lists, loans and kept values.
ghost use Rattle.std.specs.Prelude.{◌≡◌, ◌<◌, ◌&&◌, ◌==◌, ◌++◌, ◌∷◌, [], OnOk, Some, None, if◌then◌else◌, ℕ, List, length, nat_eq, option_map, slice_get, slice_set};
ghost use Rattle.std.specs.HashMap.{get};
ghost use Rattle.board_model.specs.Memory.{store};
ghost use Rattle.board_model.specs.Replies.{published_at};
ghost use Rattle.board_model.specs.Things.{with_at, with_name};
ghost use Rattle.script_board_tables.specs.Tables.{Has, kept_at, kept_in, lists_in, loan_at, memory_of, published_of, standing_of, tables_of, words_in};

use crate::tables::{BoardRow, BoardTables, KeptValue, LoanWords};
use board_model::{Name, Words};
use script_seats::{Seat, forget, put};
use std::alloc::AllocError;
use std::collections::HashMap;

// Sets a word of a row.
fn set_word(rows: &mut HashMap<u64, BoardRow>, board: u64, word: u64, value: u64)
    requires { word < length (words_in (get nat_eq rows.old board)) }
    ensures words { (n : ℕ) → words_in (get nat_eq rows.new n)
        ≡ (if nat_eq board n then slice_set (words_in (get nat_eq rows.old n)) word value
        else words_in (get nat_eq rows.old n)) }
    ensures lists { (n i : ℕ) → lists_in (get nat_eq rows.new n) i
        ≡ lists_in (get nat_eq rows.old n) i }
{
    let Some(row) = rows.get_mut(&board) else {
        // The board has words.
        unreachable!()
    };
    row.words[word as usize] = value;
}

// One more value of an entry of a row.
fn add_value(
    rows: &mut HashMap<u64, BoardRow>,
    board: u64,
    entry: u64,
    words: Words,
) -> Result<(), AllocError>
    requires { 0 < length (lists_in (get nat_eq rows.old board) entry) }
    ensures words { OnOk result ((n : ℕ) → words_in (get nat_eq rows.new n)
        ≡ words_in (get nat_eq rows.old n)) }
    ensures lists { OnOk result ((n i : ℕ) → lists_in (get nat_eq rows.new n) i
        ≡ (if nat_eq board n && nat_eq entry i
        then lists_in (get nat_eq rows.old n) i ++ words ∷ []
        else lists_in (get nat_eq rows.old n) i)) }
{
    let Some(row) = rows.get_mut(&board) else {
        // The board has entries.
        unreachable!()
    };
    let list = &mut row.published[entry as usize];
    list.push(words)?;
    Ok(())
}

impl BoardTables {
    // The word of a board.
    pub(crate) fn read(&self, board: u64, word: u64) -> u64
        requires { word < length (memory_of self.now board) }
        ensures { slice_get (memory_of self.now board) word ≡ Some result }
    {
        match self.rows.get(&board) {
            Some(row) => row.words[word as usize],
            // The board has words.
            None => unreachable!(),
        }
    }

    // Sets a word of a board.
    pub(crate) fn write(&mut self, board: u64, word: u64, value: u64)
        requires { word < length (memory_of self.old board) }
        ensures { Has self.new (standing_of self.old) (store (memory_of self.old) board word value)
            (published_of self.old) }
    {
        set_word(&mut self.rows, board, word, value);
    }

    // One more value of an entry was published.
    pub(crate) fn publish(&mut self, board: u64, entry: u64, words: Words) -> Result<(), AllocError>
        requires { 0 < length (published_of self.old board entry) }
        ensures { OnOk result (Has self.new (standing_of self.old) (memory_of self.old)
            (published_at (published_of self.old) board entry words)) }
    {
        add_value(&mut self.rows, board, entry, words)?;
        Ok(())
    }

    // The party keeps the value under the name.
    pub(crate) fn keep(
        &mut self,
        party: &Name,
        name: Name,
        value: KeptValue,
    ) -> Result<(), AllocError>
        ensures { OnOk result (Has self.new (record (standing_of self.old) {
          values = with_at (kept_at self.old) party.now name (Some (kept_in value));
        })
            (memory_of self.old) (published_of self.old)) }
    {
        let seat = Seat {
            party: *party,
            name,
        };
        put(seat, value, &mut self.values)?;
        Ok(())
    }

    // The write handle becomes a loan with these words.
    pub(crate) fn lend(
        &mut self,
        party: &Name,
        handle: &Name,
        loan: &Name,
        words: LoanWords,
    ) -> Result<(), AllocError>
        ensures { OnOk result (Has self.new (record (standing_of self.old) {
          tables = with_name (tables_of self.old) party.now handle.now loan.now;
          loans = with_at (loan_at self.old) party.now loan.now (Some words);
        })
            (memory_of self.old) (published_of self.old)) }
    {
        self.set_words(party, loan, words)?;
        self.things.rename(party, handle, loan)?;
        Ok(())
    }

    // The loan has these words.
    pub(crate) fn set_words(
        &mut self,
        party: &Name,
        loan: &Name,
        words: LoanWords,
    ) -> Result<(), AllocError>
        ensures { OnOk result (Has self.new (record (standing_of self.old) {
          loans = with_at (loan_at self.old) party.now loan.now (Some words);
        })
            (memory_of self.old) (published_of self.old)) }
    {
        let seat = Seat {
            party: *party,
            name: *loan,
        };
        put(seat, words, &mut self.loans)?;
        Ok(())
    }

    // The loan's words are forgotten.
    pub(crate) fn forget_words(&mut self, party: &Name, loan: &Name)
        ensures { Has self.new (record (standing_of self.old) {
          loans = with_at (loan_at self.old) party.now loan.now None;
        })
            (memory_of self.old) (published_of self.old) }
    {
        let seat = Seat {
            party: *party,
            name: *loan,
        };
        forget(&seat, &mut self.loans);
    }

    // The value is forgotten.
    pub(crate) fn forget_value(&mut self, party: &Name, name: &Name)
        ensures { Has self.new (record (standing_of self.old) {
          values = with_at (kept_at self.old) party.now name.now None;
        })
            (memory_of self.old) (published_of self.old) }
    {
        let seat = Seat {
            party: *party,
            name: *name,
        };
        forget(&seat, &mut self.values);
    }

    // The loan becomes a write handle, and its words are forgotten.
    pub(crate) fn give_back(
        &mut self,
        party: &Name,
        loan: &Name,
        handle: &Name,
    ) -> Result<(), AllocError>
        ensures { OnOk result (Has self.new (record (standing_of self.old) {
          tables = with_name (tables_of self.old) party.now loan.now handle.now;
          loans = with_at (loan_at self.old) party.now loan.now None;
        })
            (memory_of self.old) (published_of self.old)) }
    {
        self.forget_words(party, loan);
        self.things.rename(party, loan, handle)?;
        Ok(())
    }
}
