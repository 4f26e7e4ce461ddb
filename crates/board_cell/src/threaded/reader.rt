//! The pass of a reader, and its gets.
ghost use Rattle.std.specs.Prelude.{◌≡◌, ◌<◌, max, length, IfOk, IfErr};
ghost use Rattle.board_cell_model.specs.OwedAccesses.{finished};
ghost use Rattle.board_cell.specs.Calls.{words_of};
ghost use Rattle.board_cell.specs.Passes.{threaded_shape, new_reader, reaching, NotesRise, Gets, GetsWithin, GivesUp, LooksAt};
ghost use Rattle.board_cell.specs.Views.{reader_of, HasOpened, IsTrying, AfterTries, AfterTriesWithin, AfterFailures};
ghost use Rattle.board_cell.specs.declared.threaded.view.View.TheVariants.{Reader};

use crate::get_call::GetCall;
use crate::one_access::FreshCall;
use crate::threaded::cell::ThreadedCell;
use crate::threaded::rule::Parts;
use crate::threaded::view::View;
use atomic_table::Seat;
use std::marker::Model;
use std::mem;
use std::sync::Wait;

/// What one reader of a cell knows: the values that it read, the counters that it loaded, and the generation that it knows to be reached.
#[derive(Drop)]
pub struct ReaderPass {
    pub(crate) seat: Seat<(), View>,
}

impl Model for ReaderPass {
    ghost use Rattle.std.specs.Prelude.{◌≡◌, []};
    ghost use Rattle.board_cell.specs.Passes.{ReaderSeen, NotesRise};
    ghost use Rattle.board_cell.specs.Views.{reader_of};
    ghost use Rattle.board_cell.specs.declared.threaded.view.View.TheVariants.{Reader};

    ghost Value = { ReaderSeen };

    ghost view = { λ s. record {
      cell = s.seat.table_id;
      notes = (reader_of s.seat.me.0).notes;
      loads = (reader_of s.seat.me.0).loads;
      reached = (reader_of s.seat.me.0).reached;
    } };

    ghost invariant = { λ s. (s.seat.me.0 ≡ Reader (reader_of s.seat.me.0)) × (s.seat.me.1 ≡ [])
        × NotesRise (reader_of s.seat.me.0).notes };
}

/// No try was accepted: the two counters of the last one.
#[derive(Drop, Clone, Copy, Debug, PartialEq, Eq)]
pub struct GetAgain {
    /// The counter with which the last try began.
    pub before: u64,
    /// The counter that it found at its end.
    pub after: u64,
}

impl ThreadedCell {
    // Tries until one is accepted, or none is left.
    #[inline(always)]
    fn run_tries(
        &self,
        seat: &mut Seat<(), View>,
        call: &mut GetCall,
        opened: u64,
        tries: u32,
    ) -> Result<u64, GetAgain>
        requires cell { seat.old.table_id ≡ self.now.cell }
        requires seat { HasOpened seat.old.me.0 opened }
        requires call { IsTrying self.now.width call.old (reader_of seat.old.me.0) }
        requires some { 0 < tries }
        ensures cell { (seat.new.table_id ≡ seat.old.table_id) × (seat.new.me.1 ≡ seat.old.me.1)
            × (call.new.shape ≡ call.old.shape) }
        ensures rises { NotesRise (reader_of seat.new.me.0).notes }
        ensures ok { IfOk result (λ g.
            AfterTriesWithin tries (reader_of seat.old.me.0) seat.new.me.0 opened g (words_of call.new.reading)
            × (call.new.reading ≡ finished g (words_of call.new.reading))) }
        ensures again { IfErr result (λ e. AfterFailures tries (reader_of seat.old.me.0) seat.new.me.0 opened e.before e.after) }
    {
        let mut before = opened;
        let mut left = tries;
        'tries: loop {
            let after = self.try_once(seat, call);
            if after == before {
                return Ok(after);
            }
            left -= 1;
            if left == 0 {
                return Err(GetAgain { before, after });
            }
            before = after;
        }
    }

    // The tries of a `try_get` after the first one, which is mostly accepted: they stay out of its way.
    #[cold]
    #[inline(never)]
    pub(crate) fn try_later(
        &self,
        seat: &mut Seat<(), View>,
        out: &mut Vec<u64>,
        opened: u64,
        tries: u32,
    ) -> Result<u64, GetAgain>
        requires cell { seat.old.table_id ≡ self.now.cell }
        requires seat { HasOpened seat.old.me.0 opened }
        requires width { length out.old.items ≡ self.now.width }
        requires some { 0 < tries }
        ensures cell { (seat.new.table_id ≡ seat.old.table_id) × (seat.new.me.1 ≡ seat.old.me.1) }
        ensures width { length out.new.items ≡ self.now.width }
        ensures rises { NotesRise (reader_of seat.new.me.0).notes }
        ensures ok { IfOk result (λ g. AfterTriesWithin tries (reader_of seat.old.me.0) seat.new.me.0 opened g out.new.items) }
        ensures again { IfErr result (λ e. AfterFailures tries (reader_of seat.old.me.0) seat.new.me.0 opened e.before e.after) }
    {
        let shape = self.shape();
        let buffer = mem::replace(out, Vec::new(*out.allocator()));
        let mut call = GetCall::in_try(shape, buffer, opened);
        let answer = self.run_tries(seat, &mut call, opened, tries);
        mem::forget(mem::replace(out, call.into_buffer()));
        answer
    }

    // The first try stands apart, since it is mostly accepted: the later ones stay out of its way.
    #[inline(always)]
    fn first_tries(
        &self,
        seat: &mut Seat<(), View>,
        out: &mut Vec<u64>,
        mut call: GetCall,
        opened: u64,
        tries: u32,
    ) -> Result<u64, GetAgain>
        requires cell { seat.old.table_id ≡ self.now.cell }
        requires seat { HasOpened seat.old.me.0 opened }
        requires call { IsTrying self.now.width call (reader_of seat.old.me.0) }
        requires some { 0 < tries }
        ensures cell { (seat.new.table_id ≡ seat.old.table_id) × (seat.new.me.1 ≡ seat.old.me.1) }
        ensures width { length out.new.items ≡ self.now.width }
        ensures rises { NotesRise (reader_of seat.new.me.0).notes }
        ensures ok { IfOk result (λ g. AfterTriesWithin tries (reader_of seat.old.me.0) seat.new.me.0 opened g out.new.items) }
        ensures again { IfErr result (λ e. AfterFailures tries (reader_of seat.old.me.0) seat.new.me.0 opened e.before e.after) }
    {
        let after = self.try_once(seat, &mut call);
        mem::forget(mem::replace(out, call.into_buffer()));
        if after == opened {
            return Ok(after);
        }
        if tries == 1 {
            return Err(GetAgain {
                before: opened,
                after,
            });
        }
        self.try_later(seat, out, after, tries - 1)
    }

    /// Reads the value in at most this many tries, 0 counted as 1. Gives its generation, and its words in `out`, which
    /// has as many words as a value. The pass is of this cell. What it gives is never older than what the pass read or
    /// knows of.
    ///
    /// # Errors
    /// `GetAgain` where the counter rose in each of the tries; `out` then holds words of no use.
    #[inline(always)]
    pub fn try_get(
        &self,
        pass: &mut ReaderPass,
        tries: u32,
        out: &mut Vec<u64>,
    ) -> Result<u64, GetAgain>
        requires cell { pass.old.cell ≡ self.now.cell }
        requires width { length out.old.items ≡ self.now.width }
        ensures width { length out.new.items ≡ self.now.width }
        ensures rises { NotesRise pass.new.notes }
        ensures ok { let most = max tries 1 in
            IfOk result (λ g. GetsWithin most g out.new.items pass.old pass.new) }
        ensures again { let most = max tries 1 in
            IfErr result (λ e. GivesUp most e.before e.after pass.old pass.new) }
    {
        let shape = self.shape();
        let buffer = mem::replace(out, Vec::new(*out.allocator()));
        let mut call = GetCall::new(shape, buffer);
        let opened = self.open_try(&mut pass.seat, &mut call);
        self.first_tries(&mut pass.seat, out, call, opened, tries.max(1))
    }

    // Tries until one is accepted.
    #[inline(always)]
    fn run_all<R: Wait>(
        &self,
        rt: &R,
        seat: &mut Seat<(), View>,
        call: &mut GetCall,
        opened: u64,
    ) -> u64
        requires cell { seat.old.table_id ≡ self.now.cell }
        requires seat { HasOpened seat.old.me.0 opened }
        requires call { IsTrying self.now.width call.old (reader_of seat.old.me.0) }
        ensures cell { (seat.new.table_id ≡ seat.old.table_id) × (seat.new.me.1 ≡ seat.old.me.1)
            × (call.new.shape ≡ call.old.shape) }
        ensures rises { NotesRise (reader_of seat.new.me.0).notes }
        ensures ok { AfterTries (reader_of seat.old.me.0) seat.new.me.0 opened result (words_of call.new.reading)
            × (call.new.reading ≡ finished result (words_of call.new.reading)) }
    {
        let mut before = opened;
        'tries: for _ in rt.forever() {
            let after = self.try_once(seat, call);
            if after == before {
                return after;
            }
            before = after;
        }
        // `forever` has no end.
        unreachable!()
    }

    // The tries of a `get` after the first one. Apart, so that a first try that succeeds has no place in memory to clear for them.
    #[cold]
    #[inline(never)]
    pub(crate) fn get_later<R: Wait>(
        &self,
        rt: &R,
        seat: &mut Seat<(), View>,
        out: &mut Vec<u64>,
        opened: u64,
    ) -> u64
        requires cell { seat.old.table_id ≡ self.now.cell }
        requires seat { HasOpened seat.old.me.0 opened }
        requires width { length out.old.items ≡ self.now.width }
        ensures cell { (seat.new.table_id ≡ seat.old.table_id) × (seat.new.me.1 ≡ seat.old.me.1) }
        ensures width { length out.new.items ≡ self.now.width }
        ensures rises { NotesRise (reader_of seat.new.me.0).notes }
        ensures ok { AfterTries (reader_of seat.old.me.0) seat.new.me.0 opened result out.new.items }
    {
        let shape = self.shape();
        let buffer = mem::replace(out, Vec::new(*out.allocator()));
        let mut call = GetCall::in_try(shape, buffer, opened);
        let generation = self.run_all(rt, seat, &mut call, opened);
        mem::forget(mem::replace(out, call.into_buffer()));
        generation
    }

    /// Reads the value, in as many tries as it takes. Gives its generation, and its words in `out`, which has as many
    /// words as a value. The pass is of this cell. What it gives is never older than what the pass read or knows of.
    #[inline(always)]
    pub fn get<R: Wait>(&self, rt: &R, pass: &mut ReaderPass, out: &mut Vec<u64>) -> u64
        requires cell { pass.old.cell ≡ self.now.cell }
        requires width { length out.old.items ≡ self.now.width }
        ensures width { length out.new.items ≡ self.now.width }
        ensures rises { NotesRise pass.new.notes }
        ensures got { Gets result out.new.items pass.old pass.new }
    {
        let shape = self.shape();
        let buffer = mem::replace(out, Vec::new(*out.allocator()));
        let mut call = GetCall::new(shape, buffer);
        let first = self.open_try(&mut pass.seat, &mut call);
        let after = self.try_once(&mut pass.seat, &mut call);
        let buffer = call.into_buffer();
        if after == first {
            mem::forget(mem::replace(out, buffer));
            return after;
        }
        // A place of its own is lent, which is there only where the first try failed.
        let mut buffer = buffer;
        let generation = self.get_later(rt, &mut pass.seat, &mut buffer, after);
        mem::forget(mem::replace(out, buffer));
        generation
    }

    /// Whether one load of the counter gave this generation. The pass is of this cell.
    #[inline]
    pub fn fresh(&self, pass: &mut ReaderPass, generation: u64) -> bool
        requires { pass.old.cell ≡ self.now.cell }
        ensures { LooksAt generation result pass.old pass.new }
    {
        let mut call = FreshCall::new(self.shape(), generation);
        self.glance(&mut pass.seat, &mut call);
        call.answer()
    }

    /// A pass for another reader, which knows the same generation to be reached. The pass is of this cell.
    pub fn split(&self, pass: &mut ReaderPass) -> ReaderPass
        requires { pass.old.cell ≡ self.now.cell }
        ensures kept { pass.new ≡ pass.old }
        ensures given { result ≡ new_reader pass.old.cell pass.old.reached }
    {
        let table = &self.table;
        ReaderPass {
            seat: table.shared.split_seat::<Parts>(&mut pass.seat),
        }
    }

    /// Lets the pass know what the other one knows to be reached, and gives the other up. Both are of this cell.
    pub fn join(&self, pass: &mut ReaderPass, other: ReaderPass)
        requires cell { (pass.old.cell ≡ self.now.cell) × (other.cell ≡ self.now.cell) }
        ensures { pass.new ≡ reaching pass.old other.reached }
    {
        let table = &self.table;
        let ReaderPass { seat } = other;
        table.shared.join_seat::<Parts>(&mut pass.seat, seat);
    }
}
