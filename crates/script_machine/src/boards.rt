//! Lines of boards, and those that boards and events share.
ghost use Rattle.std.specs.Prelude.{◌≡◌, ◌+◌, ◌++◌, ◌≤◌, [], true, false, None, OnErr, OnOk, vec_capacity};
ghost use Rattle.std.specs.List.{AllByRecursion};
ghost use Rattle.board_event_model.specs.EventMemory.{kind_of_access};
ghost use Rattle.board_model.specs.declared.answer.Answer.TheVariants as answer;
ghost use Rattle.board_model.specs.declared.line.Call.TheVariants as call;
ghost use Rattle.board_model.specs.declared.line.Line.TheVariants as board_line;
ghost use Rattle.board_model.specs.AnswerGrammar.{answer_line};
ghost use Rattle.board_model.specs.LineGrammar.{IsLine, IsNumber};
ghost use Rattle.board_model.specs.Requests as requests;
ghost use Rattle.script_model.specs.ScriptEvents.{runs_on_events};
ghost use Rattle.script_model.specs.ScriptTurns.{takes_event_name};
ghost use Rattle.script_boards.specs.GetSteps.{RunsPlainGet};
ghost use Rattle.script_boards.specs.Machine.{drawn_by};
ghost use Rattle.script_boards.specs.ShortBegins.{begun_unless};
ghost use Rattle.script_events.specs.PartyEvents as events;
ghost use Rattle.script_print.specs.Room.{LacksRoomFor};
ghost use Rattle.script_machine.specs.ScriptMachine.{IsLed, OfEachState, TellsOfBoards, is_gone_answer};
ghost use Rattle.script_machine.specs.Wants.{BoardMayWant};

use crate::machine::Machine;
use board_cell_model::Access;
use board_event_model::{EventAccess, EventKind};
use board_model::{Answer, Call, Name, Reason, Reply, Value};
use board_service::BoardWords;
use script_boards::ShortWay;
use script_events::Stepped;
use script_model::new_name;
use script_print::{
    push_access_made, push_answer, push_begun, push_event_asked, push_event_step, push_got,
    push_refused, push_words,
};
use std::alloc::AllocError;

// Tells the words of a board.
fn push_listing(words: &[u64], out: &mut Vec<u8>) -> Result<(), AllocError>
    ensures numbers { AllByRecursion IsNumber words.now }
    ensures told { OnOk result (out.new.items
        ≡ out.old.items ++ answer_line (answer.Words words.now)) }
    ensures room { vec_capacity out.old ≤ vec_capacity out.new }
{
    push_words(words, out)
}

// Tells that a call has begun, or why it is refused.
#[inline(always)]
fn push_begin(refusal: Option<Reason>, out: &mut Vec<u8>) -> Result<(), AllocError>
    ensures ok { OnOk result (out.new.items
        ≡ out.old.items ++ answer_line (begun_unless refusal)) }
    ensures room { OnErr result (LacksRoomFor out.old (answer_line (begun_unless refusal))) }
    ensures grows { vec_capacity out.old ≤ vec_capacity out.new }
{
    match refusal {
        None => push_begun(out),
        Some(why) => push_refused(why, out),
    }
}

// The kind of an event that takes such an access.
#[inline(always)]
fn kind_of(access: EventAccess) -> EventKind
    ensures { result ≡ kind_of_access access }
{
    match access {
        EventAccess::Push(_) | EventAccess::Pop => EventKind::Queue,
        _ => EventKind::Bits,
    }
}

// Whether a party was abandoned.
fn is_gone(answer: &Answer) -> bool
    ensures { result ≡ is_gone_answer answer.now }
{
    matches!(answer, Answer::Gone)
}

impl<C: BoardWords + Drop> Machine<C> {
    // Whether the thing that a call makes would have the name of a listener or notifier of its party.
    fn takes_event_name(&self, party: &Name, call: &Call) -> bool
        ensures { OfEachState self.now (λ s. result ≡ takes_event_name s.events party.now
            (requests.new_name call.now)) }
    {
        match new_name(call) {
            Some(name) => self.events.holds(party, &name),
            None => false,
        }
    }

    /// A line `begin P CALL` of a call on boards.
    pub(crate) fn begin(
        &mut self,
        party: Name,
        call: Call,
        out: &mut Vec<u8>,
    ) -> Result<(), AllocError>
        requires led { IsLed self.old }
        requires line { IsLine (board_line.Begin party call) }
        requires empty { out.old.items ≡ [] }
        ensures tells { OnOk result (TellsOfBoards self.old self.new (board_line.Begin party call)
            out.new.items) }
        ensures memory { OnErr result (BoardMayWant self.old (board_line.Begin party call)
            out.old) }
        ensures room { vec_capacity out.old ≤ vec_capacity out.new }
        ensures drawn { OnOk result (drawn_by self.new.boards ≤ drawn_by self.old.boards + 1) }
    {
        if self.events.runs(&party) {
            return push_refused(Reason::Busy, out);
        }
        if self.takes_event_name(&party, &call) {
            return match self.boards.refusal_past_names(&party, call) {
                Some(why) => push_refused(why, out),
                None => push_refused(Reason::Taken, out),
            };
        }
        let answer = self.boards.begin(party, call)?;
        push_answer(&answer, out)
    }

    /// A line `begin P update M VAL`.
    #[inline(always)]
    pub(crate) fn begin_update(
        &mut self,
        party: Name,
        handle: Name,
        value: Value,
        out: &mut Vec<u8>,
    ) -> Result<(), AllocError>
        requires led { IsLed self.old }
        requires line { IsLine (board_line.Begin party (call.Update handle value)) }
        requires empty { out.old.items ≡ [] }
        ensures tells { OnOk result (TellsOfBoards self.old self.new
            (board_line.Begin party (call.Update handle value)) out.new.items) }
        ensures memory { OnErr result (BoardMayWant self.old
            (board_line.Begin party (call.Update handle value)) out.old) }
        ensures room { vec_capacity out.old ≤ vec_capacity out.new }
        ensures drawn { OnOk result (drawn_by self.new.boards ≤ drawn_by self.old.boards + 1) }
    {
        if self.events.runs(&party) {
            return push_refused(Reason::Busy, out);
        }
        let refusal = self.boards.begin_update(party, handle, value)?;
        push_begin(refusal, out)
    }

    /// A line `begin P get H`.
    #[inline(always)]
    pub(crate) fn begin_get(
        &mut self,
        party: Name,
        handle: Name,
        out: &mut Vec<u8>,
    ) -> Result<(), AllocError>
        requires led { IsLed self.old }
        requires line { IsLine (board_line.Begin party (call.Get handle None)) }
        requires empty { out.old.items ≡ [] }
        ensures tells { OnOk result (TellsOfBoards self.old self.new
            (board_line.Begin party (call.Get handle None)) out.new.items) }
        ensures memory { OnErr result (BoardMayWant self.old
            (board_line.Begin party (call.Get handle None)) out.old) }
        ensures room { vec_capacity out.old ≤ vec_capacity out.new }
        ensures drawn { OnOk result (drawn_by self.new.boards ≤ drawn_by self.old.boards + 1) }
    {
        if self.events.runs(&party) {
            return push_refused(Reason::Busy, out);
        }
        let refusal = self.boards.begin_get(party, handle)?;
        push_begin(refusal, out)
    }

    /// A line `step P`. Most steps go a short way, and are answered with no answer built.
    pub(crate) fn step(&mut self, party: &Name, out: &mut Vec<u8>) -> Result<(), AllocError>
        requires led { IsLed self.old }
        requires line { IsLine (board_line.Step party.now) }
        requires empty { out.old.items ≡ [] }
        ensures tells { OnOk result (TellsOfBoards self.old self.new (board_line.Step party.now)
            out.new.items) }
        ensures memory { OnErr result (BoardMayWant self.old (board_line.Step party.now) out.old) }
        ensures room { vec_capacity out.old ≤ vec_capacity out.new }
        ensures drawn { OnOk result (drawn_by self.new.boards ≤ drawn_by self.old.boards + 1) }
    {
        if self.events.runs(party) {
            return self.step_on_events(party, out);
        }
        match self.boards.step_short(party) {
            ShortWay::Made(made) => push_access_made(made.access, made.is_done, out),
            ShortWay::Get => self.step_get(party, out),
            ShortWay::Idle => push_refused(Reason::Idle, out),
            ShortWay::Nowhere => self.step_on_boards(party, out),
        }
    }

    // A step of a party that runs a get which keeps no value. Apart, as others are.
    #[inline(never)]
    fn step_get(&mut self, party: &Name, out: &mut Vec<u8>) -> Result<(), AllocError>
        requires led { IsLed self.old }
        requires line { IsLine (board_line.Step party.now) }
        requires runs { events.OfEach self.old.events (λ x. runs_on_events x party.now ≡ false) }
        requires get { RunsPlainGet self.old.boards party.now }
        requires empty { out.old.items ≡ [] }
        ensures tells { OnOk result (TellsOfBoards self.old self.new (board_line.Step party.now)
            out.new.items) }
        ensures memory { OnErr result (BoardMayWant self.old (board_line.Step party.now) out.old) }
        ensures room { vec_capacity out.old ≤ vec_capacity out.new }
        ensures drawn { OnOk result (drawn_by self.new.boards ≤ drawn_by self.old.boards + 1) }
    {
        let step = self.boards.step_get(party);
        let access = step.access;
        match &step.told {
            None => push_access_made(access, false, out),
            Some(read) => push_got(
                access,
                read.value_type,
                read.words.as_slice(),
                read.generation,
                out,
            ),
        }
    }

    // A step of a party whose call on events doesn't run, with its answer made as a value. Apart, so that a short step doesn't pay for it.
    #[inline(never)]
    fn step_on_boards(&mut self, party: &Name, out: &mut Vec<u8>) -> Result<(), AllocError>
        requires led { IsLed self.old }
        requires line { IsLine (board_line.Step party.now) }
        requires runs { events.OfEach self.old.events (λ x. runs_on_events x party.now ≡ false) }
        requires empty { out.old.items ≡ [] }
        ensures tells { OnOk result (TellsOfBoards self.old self.new (board_line.Step party.now)
            out.new.items) }
        ensures memory { OnErr result (BoardMayWant self.old (board_line.Step party.now) out.old) }
        ensures room { vec_capacity out.old ≤ vec_capacity out.new }
        ensures drawn { OnOk result (drawn_by self.new.boards ≤ drawn_by self.old.boards + 1) }
    {
        let answer = self.boards.step(party)?;
        push_answer(&answer, out)
    }

    // A step of a party whose call on events runs. Apart, so that a step on boards doesn't pay for it.
    #[inline(never)]
    fn step_on_events(&mut self, party: &Name, out: &mut Vec<u8>) -> Result<(), AllocError>
        requires led { IsLed self.old }
        requires line { IsLine (board_line.Step party.now) }
        requires runs { events.OfEach self.old.events (λ x. runs_on_events x party.now ≡ true) }
        requires empty { out.old.items ≡ [] }
        ensures tells { OnOk result (TellsOfBoards self.old self.new (board_line.Step party.now)
            out.new.items) }
        ensures memory { OnErr result (BoardMayWant self.old (board_line.Step party.now) out.old) }
        ensures room { vec_capacity out.old ≤ vec_capacity out.new }
        ensures drawn { drawn_by self.new.boards ≡ drawn_by self.old.boards }
    {
        match self.events.step(party)? {
            Stepped::Asked(reply) => push_event_asked(&reply, out),
            Stepped::Acted {
                event,
                access,
                answer,
                told,
            } => push_event_step(
                kind_of(access),
                self.events.name_of(event),
                access,
                answer,
                told.as_ref(),
                out,
            ),
        }
    }

    /// A line `drop P T`.
    pub(crate) fn release(
        &mut self,
        party: &Name,
        name: &Name,
        out: &mut Vec<u8>,
    ) -> Result<(), AllocError>
        requires led { IsLed self.old }
        requires line { IsLine (board_line.Release party.now name.now) }
        requires empty { out.old.items ≡ [] }
        ensures tells { OnOk result (TellsOfBoards self.old self.new
            (board_line.Release party.now name.now) out.new.items) }
        ensures memory { OnErr result (BoardMayWant self.old
            (board_line.Release party.now name.now) out.old) }
        ensures room { vec_capacity out.old ≤ vec_capacity out.new }
        ensures drawn { OnOk result (drawn_by self.new.boards ≤ drawn_by self.old.boards + 1) }
    {
        if self.events.runs(party) {
            return push_refused(Reason::Busy, out);
        }
        if self.boards.refusal_of_party(party).is_none() && self.events.holds(party, name) {
            self.events.release(party, name);
            return push_answer(
                &Answer::Step {
                    access: Access::Table,
                    reply: Some(Reply::Done),
                },
                out,
            );
        }
        let answer = self.boards.release(party, name);
        push_answer(&answer, out)
    }

    /// A line `abandon P`.
    pub(crate) fn abandon(&mut self, party: Name, out: &mut Vec<u8>) -> Result<(), AllocError>
        requires led { IsLed self.old }
        requires line { IsLine (board_line.Abandon party) }
        requires empty { out.old.items ≡ [] }
        ensures tells { OnOk result (TellsOfBoards self.old self.new (board_line.Abandon party)
            out.new.items) }
        ensures memory { OnErr result (BoardMayWant self.old (board_line.Abandon party) out.old) }
        ensures room { vec_capacity out.old ≤ vec_capacity out.new }
        ensures drawn { OnOk result (drawn_by self.new.boards ≤ drawn_by self.old.boards + 1) }
    {
        let answer = self.boards.abandon(party)?;
        if is_gone(&answer) {
            self.events.abandon(&party);
            return push_answer(&answer, out);
        }
        push_answer(&answer, out)
    }

    /// A line `words NUM`.
    pub(crate) fn tell_words(&mut self, board: u64, out: &mut Vec<u8>) -> Result<(), AllocError>
        requires led { IsLed self.old }
        requires line { IsLine (board_line.Words board) }
        requires empty { out.old.items ≡ [] }
        ensures tells { OnOk result (TellsOfBoards self.old self.new (board_line.Words board)
            out.new.items) }
        ensures memory { OnErr result (BoardMayWant self.old (board_line.Words board) out.old) }
        ensures room { vec_capacity out.old ≤ vec_capacity out.new }
        ensures drawn { OnOk result (drawn_by self.new.boards ≤ drawn_by self.old.boards + 1) }
    {
        match self.boards.words_of(board)? {
            Some(words) => push_listing(&words, out),
            None => push_refused(Reason::NoBoard, out),
        }
    }
}
