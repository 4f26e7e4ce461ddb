//! The atomic steps of a call: one step of its core, and one of the cell's table.
ghost use Rattle.std.specs.Prelude.{◌≡◌, ◌≢◌, ◌+◌, ◌<◌, ◌≤◌, [], ◌∷◌, ◌++◌, None, Some, length, slice_index};
ghost use Rattle.board_cell_model.specs.OwedAccesses.{opening, trying, finished};
ghost use Rattle.board_cell.specs.Passes.{threaded_shape, NotesRise};
ghost use Rattle.board_cell.specs.Calls.{words_of};
ghost use Rattle.board_cell.specs.Views.{writer_of, reader_of, with_pending, with_publish, with_item, with_open, with_found, with_words, with_close, with_note, with_load, IsTrying, IsWriting};
ghost use Rattle.board_cell.specs.declared.threaded.view.View.TheVariants.{Writer, Reader};

use crate::access::Access;
use crate::get_call::GetCall;
use crate::one_access::FreshCall;
use crate::threaded::cell::ThreadedCell;
use crate::threaded::rule::{Close, Glance, Open, Publish, Put, Read};
use crate::threaded::view::View;
use crate::update_call::UpdateCall;
use atomic_table::Seat;

impl ThreadedCell {
    // It stores a word of the spare copy.
    #[inline(always)]
    fn put(&self, seat: &mut Seat<(), View>, call: &mut UpdateCall<&Vec<u64>>)
        requires cell { seat.old.table_id ≡ self.now.cell }
        requires seat { seat.old.me.0 ≡ Writer (writer_of seat.old.me.0) }
        requires call { IsWriting self.now.width call.old (writer_of seat.old.me.0) }
        requires more { call.old.written < self.now.width }
        ensures cell { seat.new.table_id ≡ seat.old.table_id }
        ensures seat { seat.new.me
            ≡ (Writer (with_pending (writer_of seat.old.me.0) (slice_index call.old.words call.old.written)), seat.old.me.1) }
        ensures call { call.new ≡ record call.old { written = call.old.written + 1 } }
    {
        let Access::Write { word, value } = call.next() else {
            // `next` owes a write.
            unreachable!()
        };
        let table = &self.table;
        table.shared.store::<Put>(seat, word as usize, value);
        call.took(0);
    }

    // It raises the counter.
    #[inline(always)]
    fn publish(&self, seat: &mut Seat<(), View>, call: &mut UpdateCall<&Vec<u64>>)
        requires cell { seat.old.table_id ≡ self.now.cell }
        requires seat { seat.old.me.0 ≡ Writer (writer_of seat.old.me.0) }
        requires call { IsWriting self.now.width call.old (writer_of seat.old.me.0) }
        requires last { call.old.written ≡ self.now.width }
        ensures cell { seat.new.table_id ≡ seat.old.table_id }
        ensures seat { seat.new.me ≡ (Writer (with_publish (writer_of seat.old.me.0)), seat.old.me.1) }
    {
        let Access::Write { word, value } = call.next() else {
            // `next` owes a write.
            unreachable!()
        };
        let table = &self.table;
        table.shared.store::<Publish>(seat, word as usize, value);
        call.took(0);
    }

    // All steps of an update.
    #[inline(always)]
    pub(crate) fn run_update(&self, seat: &mut Seat<(), View>, call: &mut UpdateCall<&Vec<u64>>)
        requires cell { seat.old.table_id ≡ self.now.cell }
        requires seat { (seat.old.me.0 ≡ Writer (writer_of seat.old.me.0)) × ((writer_of seat.old.me.0).pending ≡ []) }
        requires call { IsWriting self.now.width call.old (writer_of seat.old.me.0) }
        ensures cell { seat.new.table_id ≡ seat.old.table_id }
        ensures seat { seat.new.me ≡ (Writer (with_item (writer_of seat.old.me.0) call.old.words), seat.old.me.1) }
    {
        'words: while call.owes_word() {
            self.put(seat, call);
        }
        self.publish(seat, call);
    }

    // It loads the counter and opens a try.
    #[inline(always)]
    pub(crate) fn open_try(&self, seat: &mut Seat<(), View>, call: &mut GetCall) -> u64
        requires cell { seat.old.table_id ≡ self.now.cell }
        requires seat { seat.old.me.0 ≡ Reader (reader_of seat.old.me.0) }
        requires call { call.old ≡ record { shape = threaded_shape self.now.width; reading = opening } }
        ensures cell { seat.new.table_id ≡ seat.old.table_id }
        ensures seat { seat.new.me ≡ (Reader (with_open (reader_of seat.old.me.0) result), seat.old.me.1) }
        ensures reached { (reader_of seat.old.me.0).reached ≤ result }
        ensures call { call.new ≡ record call.old { reading = trying result [] } }
    {
        let Access::Read { word } = call.next() else {
            // `next` owes a read.
            unreachable!()
        };
        let table = &self.table;
        let found = table.shared.load::<Open>(seat, word as usize);
        call.took(found);
        found
    }

    // It loads a word of the open try.
    #[inline(always)]
    fn read_word(&self, seat: &mut Seat<(), View>, call: &mut GetCall) -> u64
        requires cell { seat.old.table_id ≡ self.now.cell }
        requires seat { seat.old.me.0 ≡ Reader (reader_of seat.old.me.0) }
        requires call { IsTrying self.now.width call.old (reader_of seat.old.me.0) }
        requires more { length (reader_of seat.old.me.0).found < self.now.width }
        ensures cell { seat.new.table_id ≡ seat.old.table_id }
        ensures seat { seat.new.me ≡ (Reader (with_found (reader_of seat.old.me.0) result), seat.old.me.1) }
        ensures call { IsTrying self.now.width call.new (with_found (reader_of seat.old.me.0) result) }
    {
        let Access::Read { word } = call.next() else {
            // `next` owes a read.
            unreachable!()
        };
        let table = &self.table;
        let found = table.shared.load::<Read>(seat, word as usize);
        call.took(found);
        found
    }

    // It loads the counter and closes the try.
    #[inline(always)]
    fn close_try(&self, seat: &mut Seat<(), View>, call: &mut GetCall) -> u64
        requires cell { seat.old.table_id ≡ self.now.cell }
        requires seat { seat.old.me.0 ≡ Reader (reader_of seat.old.me.0) }
        requires call { IsTrying self.now.width call.old (reader_of seat.old.me.0) }
        requires last { length (reader_of seat.old.me.0).found ≡ self.now.width }
        ensures cell { seat.new.table_id ≡ seat.old.table_id }
        ensures seat { seat.new.me ≡ (Reader (with_close (reader_of seat.old.me.0) result), seat.old.me.1) }
        ensures reached { ((reader_of seat.old.me.0).reached ≤ result) × ((reader_of seat.old.me.0).opened ≤ result) }
        ensures rises { NotesRise (reader_of seat.new.me.0).notes }
        ensures accepted { result ≡ (reader_of seat.old.me.0).opened
            → call.new ≡ record call.old { reading = finished result (reader_of seat.old.me.0).found } }
        ensures again { result ≢ (reader_of seat.old.me.0).opened → call.new ≡ record call.old { reading = trying result [] } }
    {
        let Access::Read { word } = call.next() else {
            // `next` owes a read.
            unreachable!()
        };
        let table = &self.table;
        let found = table.shared.load::<Close>(seat, word as usize);
        call.took(found);
        found
    }

    // Four words of the open try, without a loop: their steps stand in one line, and no test is left between them.
    #[inline(always)]
    fn read_four(&self, seat: &mut Seat<(), View>, call: &mut GetCall)
        requires cell { seat.old.table_id ≡ self.now.cell }
        requires seat { seat.old.me.0 ≡ Reader (reader_of seat.old.me.0) }
        requires call { IsTrying self.now.width call.old (reader_of seat.old.me.0) }
        requires more { length (reader_of seat.old.me.0).found + 4 ≤ self.now.width }
        ensures cell { seat.new.table_id ≡ seat.old.table_id }
        ensures seat { seat.new.me ≡ (Reader (with_words (reader_of seat.old.me.0) (reader_of seat.new.me.0).found), seat.old.me.1) }
        ensures call { IsTrying self.now.width call.new (reader_of seat.new.me.0) }
        ensures count { length (reader_of seat.new.me.0).found ≡ length (reader_of seat.old.me.0).found + 4 }
    {
        self.read_word(seat, call);
        self.read_word(seat, call);
        self.read_word(seat, call);
        self.read_word(seat, call);
    }

    // Sixteen words of the open try.
    #[inline(always)]
    fn read_sixteen(&self, seat: &mut Seat<(), View>, call: &mut GetCall)
        requires cell { seat.old.table_id ≡ self.now.cell }
        requires seat { seat.old.me.0 ≡ Reader (reader_of seat.old.me.0) }
        requires call { IsTrying self.now.width call.old (reader_of seat.old.me.0) }
        requires more { length (reader_of seat.old.me.0).found + 16 ≤ self.now.width }
        ensures cell { seat.new.table_id ≡ seat.old.table_id }
        ensures seat { seat.new.me ≡ (Reader (with_words (reader_of seat.old.me.0) (reader_of seat.new.me.0).found), seat.old.me.1) }
        ensures call { IsTrying self.now.width call.new (reader_of seat.new.me.0) }
        ensures count { length (reader_of seat.new.me.0).found ≡ length (reader_of seat.old.me.0).found + 16 }
    {
        self.read_four(seat, call);
        self.read_four(seat, call);
        self.read_four(seat, call);
        self.read_four(seat, call);
    }

    // All words of a try. Values of one word, of four and of 32 are read without a loop. (`inline(always)` is lost where a function has many more steps than these.)
    #[inline(always)]
    fn read_words(&self, seat: &mut Seat<(), View>, call: &mut GetCall)
        requires cell { seat.old.table_id ≡ self.now.cell }
        requires seat { (seat.old.me.0 ≡ Reader (reader_of seat.old.me.0)) × ((reader_of seat.old.me.0).found ≡ []) }
        requires call { IsTrying self.now.width call.old (reader_of seat.old.me.0) }
        ensures cell { seat.new.table_id ≡ seat.old.table_id }
        ensures seat { seat.new.me ≡ (Reader (with_words (reader_of seat.old.me.0) (reader_of seat.new.me.0).found), seat.old.me.1) }
        ensures call { IsTrying self.now.width call.new (reader_of seat.new.me.0) }
        ensures all { length (reader_of seat.new.me.0).found ≡ self.now.width }
    {
        if call.owes_words(2) {
            if call.owes_words(32) {
                self.read_sixteen(seat, call);
                self.read_sixteen(seat, call);
            } else if call.owes_words(4) {
                self.read_four(seat, call);
            }
            'words: while call.owes_word() {
                self.read_word(seat, call);
            }
        } else {
            'word: while call.owes_word() {
                self.read_word(seat, call);
            }
        }
    }

    // A try: its words and the counter.
    #[inline(always)]
    pub(crate) fn try_once(&self, seat: &mut Seat<(), View>, call: &mut GetCall) -> u64
        requires cell { seat.old.table_id ≡ self.now.cell }
        requires seat { (seat.old.me.0 ≡ Reader (reader_of seat.old.me.0)) × ((reader_of seat.old.me.0).found ≡ []) }
        requires call { IsTrying self.now.width call.old (reader_of seat.old.me.0) }
        ensures cell { seat.new.table_id ≡ seat.old.table_id }
        ensures reached { ((reader_of seat.old.me.0).reached ≤ result) × ((reader_of seat.old.me.0).opened ≤ result) }
        ensures rises { NotesRise (reader_of seat.new.me.0).notes }
        ensures accepted { result ≡ (reader_of seat.old.me.0).opened
            → (seat.new.me ≡ (Reader (with_note (reader_of seat.old.me.0) result (words_of call.new.reading)), seat.old.me.1))
            × (call.new ≡ record call.old { reading = finished result (words_of call.new.reading) }) }
        ensures again { result ≢ (reader_of seat.old.me.0).opened
            → (seat.new.me ≡ (Reader (with_open (reader_of seat.old.me.0) result), seat.old.me.1))
            × (call.new ≡ record call.old { reading = trying result [] }) }
    {
        self.read_words(seat, call);
        self.close_try(seat, call)
    }

    // It loads the counter.
    #[inline(always)]
    pub(crate) fn glance(&self, seat: &mut Seat<(), View>, call: &mut FreshCall) -> u64
        requires cell { seat.old.table_id ≡ self.now.cell }
        requires seat { seat.old.me.0 ≡ Reader (reader_of seat.old.me.0) }
        requires call { (call.old.shape ≡ threaded_shape self.now.width) × (call.old.counter ≡ None) }
        ensures cell { seat.new.table_id ≡ seat.old.table_id }
        ensures seat { seat.new.me ≡ (Reader (with_load (reader_of seat.old.me.0) result), seat.old.me.1) }
        ensures reached { (reader_of seat.old.me.0).reached ≤ result }
        ensures call { call.new ≡ record call.old { counter = Some result } }
    {
        let Access::Read { word } = call.next() else {
            // `next` owes a read.
            unreachable!()
        };
        let table = &self.table;
        let found = table.shared.load::<Glance>(seat, word as usize);
        call.took(found);
        found
    }
}
