//! Gets whose first try needs no call core, and so no buffer of its own.
ghost use Rattle.std.specs.Prelude.{◌≡◌, ◌≢◌, ◌+◌, ◌<◌, ◌≤◌, max, length, take, IfOk, IfErr};
ghost use Rattle.board_cell_model.specs.OwedAccesses.{current_at};
ghost use Rattle.board_cell.specs.Passes.{threaded_shape, NotesRise, Gets, GetsWithin, GivesUp};
ghost use Rattle.board_cell.specs.Views.{reader_of, with_open, with_found, with_words, with_close, with_note, AfterTriesWithin, AfterFailures, HasMoreWords, HasOpened};
ghost use Rattle.board_cell.specs.declared.threaded.view.View.TheVariants.{Reader};

use crate::copies::current_copy;
use crate::threaded::cell::ThreadedCell;
use crate::threaded::reader::{GetAgain, ReaderPass};
use crate::threaded::rule::{Close, Open, Read};
use crate::threaded::view::View;
use atomic_table::Seat;
use board_layout::CellShape;
use std::sync::Wait;

// The same words, one by one: so the compiler may keep in registers what they are copied to.
#[inline(always)]
fn copy_words(to: &mut [u64], from: &[u64])
    requires { length to.old ≡ length from.now }
    ensures { to.new ≡ from.now }
{
    for i in 0..to.len() {
        to[i] = from[i];
    }
}

impl ThreadedCell {
    // It loads the counter and opens a try.
    #[inline(always)]
    fn load_opening(&self, seat: &mut Seat<(), View>) -> u64
        requires cell { seat.old.table_id ≡ self.now.cell }
        requires seat { seat.old.me.0 ≡ Reader (reader_of seat.old.me.0) }
        ensures cell { seat.new.table_id ≡ seat.old.table_id }
        ensures seat { seat.new.me ≡ (Reader (with_open (reader_of seat.old.me.0) result), seat.old.me.1) }
        ensures reached { (reader_of seat.old.me.0).reached ≤ result }
    {
        let table = &self.table;
        table.shared.load::<Open>(seat, 0)
    }

    // It loads the open try's next word, which stands here.
    #[inline(always)]
    fn load_next(&self, seat: &mut Seat<(), View>, word: u64) -> u64
        requires cell { seat.old.table_id ≡ self.now.cell }
        requires seat { seat.old.me.0 ≡ Reader (reader_of seat.old.me.0) }
        requires next { let x = reader_of seat.old.me.0 in
            word ≡ current_at (threaded_shape self.now.width) x.opened + length x.found }
        requires more { length (reader_of seat.old.me.0).found < self.now.width }
        ensures cell { seat.new.table_id ≡ seat.old.table_id }
        ensures seat { seat.new.me ≡ (Reader (with_found (reader_of seat.old.me.0) result), seat.old.me.1) }
    {
        let table = &self.table;
        table.shared.load::<Read>(seat, word as usize)
    }

    // It loads the counter and closes the try.
    #[inline(always)]
    fn load_closing(&self, seat: &mut Seat<(), View>) -> u64
        requires cell { seat.old.table_id ≡ self.now.cell }
        requires seat { seat.old.me.0 ≡ Reader (reader_of seat.old.me.0) }
        requires last { length (reader_of seat.old.me.0).found ≡ self.now.width }
        ensures cell { seat.new.table_id ≡ seat.old.table_id }
        ensures seat { seat.new.me ≡ (Reader (with_close (reader_of seat.old.me.0) result), seat.old.me.1) }
        ensures reached { ((reader_of seat.old.me.0).reached ≤ result) × ((reader_of seat.old.me.0).opened ≤ result) }
        ensures rises { NotesRise (reader_of seat.new.me.0).notes }
    {
        let table = &self.table;
        table.shared.load::<Close>(seat, 0)
    }

    // The open try's word with this index, into its place.
    #[inline(always)]
    fn load_word(&self, seat: &mut Seat<(), View>, copy: u64, words: &mut [u64], at: usize)
        requires cell { seat.old.table_id ≡ self.now.cell }
        requires more { HasMoreWords self.now.width seat.old.me.0 copy words.old at 1 }
        ensures cell { seat.new.table_id ≡ seat.old.table_id }
        ensures seat { seat.new.me ≡ (Reader (with_words (reader_of seat.old.me.0) (take (at + 1) words.new)), seat.old.me.1) }
        ensures width { length words.new ≡ self.now.width }
    {
        words[at] = self.load_next(seat, copy + at as u64);
    }

    // Four words of the open try, from this index on.
    #[inline(always)]
    fn load_four(&self, seat: &mut Seat<(), View>, copy: u64, words: &mut [u64], at: usize)
        requires cell { seat.old.table_id ≡ self.now.cell }
        requires more { HasMoreWords self.now.width seat.old.me.0 copy words.old at 4 }
        ensures cell { seat.new.table_id ≡ seat.old.table_id }
        ensures seat { seat.new.me ≡ (Reader (with_words (reader_of seat.old.me.0) (take (at + 4) words.new)), seat.old.me.1) }
        ensures width { length words.new ≡ self.now.width }
    {
        self.load_word(seat, copy, words, at);
        self.load_word(seat, copy, words, at + 1);
        self.load_word(seat, copy, words, at + 2);
        self.load_word(seat, copy, words, at + 3);
    }

    // Sixteen words of the open try, from this index on.
    #[inline(always)]
    fn load_sixteen(&self, seat: &mut Seat<(), View>, copy: u64, words: &mut [u64], at: usize)
        requires cell { seat.old.table_id ≡ self.now.cell }
        requires more { HasMoreWords self.now.width seat.old.me.0 copy words.old at 16 }
        ensures cell { seat.new.table_id ≡ seat.old.table_id }
        ensures seat { seat.new.me ≡ (Reader (with_words (reader_of seat.old.me.0) (take (at + 16) words.new)), seat.old.me.1) }
        ensures width { length words.new ≡ self.now.width }
    {
        self.load_four(seat, copy, words, at);
        self.load_four(seat, copy, words, at + 4);
        self.load_four(seat, copy, words, at + 8);
        self.load_four(seat, copy, words, at + 12);
    }

    // All words of the open try. Their number is that of the slice: where the compiler knows it, no test of the width is
    // left, and of up to 32 words no loop.
    #[inline(always)]
    fn load_words(&self, seat: &mut Seat<(), View>, opened: u64, words: &mut [u64])
        requires cell { seat.old.table_id ≡ self.now.cell }
        requires seat { HasOpened seat.old.me.0 opened }
        requires width { length words.old ≡ self.now.width }
        ensures cell { seat.new.table_id ≡ seat.old.table_id }
        ensures seat { seat.new.me ≡ (Reader (with_words (reader_of seat.old.me.0) words.new), seat.old.me.1) }
        ensures width { length words.new ≡ self.now.width }
    {
        let shape = CellShape {
            first: 0,
            head: 2,
            words: words.len() as u64,
        };
        let copy = current_copy(shape, opened);
        let mut at = 0;
        if words.len() >= 16 {
            self.load_sixteen(seat, copy, words, 0);
            at = 16;
        }
        if words.len() >= 32 {
            self.load_sixteen(seat, copy, words, 16);
            at = 32;
        }
        for i in at..words.len() {
            self.load_word(seat, copy, words, i);
        }
    }

    // The open try: its words and the counter.
    #[inline(always)]
    fn first_try(&self, seat: &mut Seat<(), View>, opened: u64, words: &mut [u64]) -> u64
        requires cell { seat.old.table_id ≡ self.now.cell }
        requires seat { HasOpened seat.old.me.0 opened }
        requires width { length words.old ≡ self.now.width }
        ensures cell { seat.new.table_id ≡ seat.old.table_id }
        ensures width { length words.new ≡ self.now.width }
        ensures reached { ((reader_of seat.old.me.0).reached ≤ result) × (opened ≤ result) }
        ensures rises { NotesRise (reader_of seat.new.me.0).notes }
        ensures accepted { result ≡ opened
            → seat.new.me ≡ (Reader (with_note (reader_of seat.old.me.0) result words.new), seat.old.me.1) }
        ensures again { result ≢ opened
            → seat.new.me ≡ (Reader (with_open (reader_of seat.old.me.0) result), seat.old.me.1) }
    {
        self.load_words(seat, opened, words);
        self.load_closing(seat)
    }

    /// `get`, whose words come into a slice. Its first try needs nothing else, so the compiler may keep a local's words
    /// in registers; the tries after it read into `later`. Both have as many words as a value.
    #[inline(always)]
    pub fn get_into<R: Wait>(
        &self,
        rt: &R,
        pass: &mut ReaderPass,
        words: &mut [u64],
        later: &mut Vec<u64>,
    ) -> u64
        requires cell { pass.old.cell ≡ self.now.cell }
        requires width { (length words.old ≡ self.now.width) × (length later.old.items ≡ self.now.width) }
        ensures width { (length words.new ≡ self.now.width) × (length later.new.items ≡ self.now.width) }
        ensures rises { NotesRise pass.new.notes }
        ensures got { Gets result words.new pass.old pass.new }
    {
        let first = self.load_opening(&mut pass.seat);
        let after = self.first_try(&mut pass.seat, first, words);
        if after == first {
            return after;
        }
        let generation = self.get_later(rt, &mut pass.seat, later, after);
        copy_words(words, later.as_slice());
        generation
    }

    // The open try, and those after it.
    #[inline(always)]
    fn tries_into(
        &self,
        seat: &mut Seat<(), View>,
        words: &mut [u64],
        later: &mut Vec<u64>,
        opened: u64,
        tries: u32,
    ) -> Result<u64, GetAgain>
        requires cell { seat.old.table_id ≡ self.now.cell }
        requires seat { HasOpened seat.old.me.0 opened }
        requires width { (length words.old ≡ self.now.width) × (length later.old.items ≡ self.now.width) }
        requires some { 0 < tries }
        ensures cell { (seat.new.table_id ≡ seat.old.table_id) × (seat.new.me.1 ≡ seat.old.me.1) }
        ensures width { (length words.new ≡ self.now.width) × (length later.new.items ≡ self.now.width) }
        ensures rises { NotesRise (reader_of seat.new.me.0).notes }
        ensures ok { IfOk result (λ g. AfterTriesWithin tries (reader_of seat.old.me.0) seat.new.me.0 opened g words.new) }
        ensures again { IfErr result (λ e. AfterFailures tries (reader_of seat.old.me.0) seat.new.me.0 opened e.before e.after) }
    {
        let after = self.first_try(seat, opened, words);
        if after == opened {
            return Ok(after);
        }
        if tries == 1 {
            return Err(GetAgain {
                before: opened,
                after,
            });
        }
        match self.try_later(seat, later, after, tries - 1) {
            Ok(generation) => {
                copy_words(words, later.as_slice());
                Ok(generation)
            }
            Err(again) => Err(again),
        }
    }

    /// `try_get`, whose words come into a slice, as those of `get_into`.
    ///
    /// # Errors
    /// `GetAgain` where the counter rose in each of the tries; `words` then holds words of no use.
    #[inline(always)]
    pub fn try_get_into(
        &self,
        pass: &mut ReaderPass,
        tries: u32,
        words: &mut [u64],
        later: &mut Vec<u64>,
    ) -> Result<u64, GetAgain>
        requires cell { pass.old.cell ≡ self.now.cell }
        requires width { (length words.old ≡ self.now.width) × (length later.old.items ≡ self.now.width) }
        ensures width { (length words.new ≡ self.now.width) × (length later.new.items ≡ self.now.width) }
        ensures rises { NotesRise pass.new.notes }
        ensures ok { let most = max tries 1 in
            IfOk result (λ g. GetsWithin most g words.new pass.old pass.new) }
        ensures again { let most = max tries 1 in
            IfErr result (λ e. GivesUp most e.before e.after pass.old pass.new) }
    {
        let opened = self.load_opening(&mut pass.seat);
        self.tries_into(&mut pass.seat, words, later, opened, tries.max(1))
    }
}
