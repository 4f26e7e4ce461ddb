//! The machine's one call: the line of a script, and the answer to it.
ghost use Rattle.std.specs.Prelude.{◌≡◌, ◌+◌, ◌≤◌, [], true, IfOk, IsErrOf, OnErr, OnOk, vec_capacity};
ghost use Rattle.board_model.specs.LineGrammar.{IsLine};
ghost use Rattle.script_model.specs.declared.line.ScriptLine.TheVariants as script_line;
ghost use Rattle.script_model.specs.ScriptGrammar.{IsScriptLine};
ghost use Rattle.script_model.specs.ScriptSession.{Session, start};
ghost use Rattle.script_loop.specs.Machines.{AnswersEach, SpellsNone, StandsFor};
ghost use Rattle.script_boards.specs.Machine.{drawn_by};
ghost use Rattle.script_machine.specs.Bytes.{BytesMayWant, LeavesUnknown, TellsOfBytes};
ghost use Rattle.script_machine.specs.ScriptMachine.{IsLed, StandsAfter, Tells};
ghost use Rattle.script_machine.specs.Wants.{MayWant, SpellsSome, SpellsTaking, SpellsWanting};
ghost use Rattle.script_parse.specs.Short.{IsCut};

use board_model::Line;
use board_service::BoardWords;
use script_boards::BoardMachine;
use script_events::PartyEvents;
use script_loop::{LineError, RunsLines};
use script_model::{EventRequest, ScriptLine};
use script_parse::{cut_at_call, get_at, line_or_unkept, notify_at, step_of, update_at, wait_at};
use std::alloc::{AllocError, Global};

/// Runs the lines of one script, one after another. The words of its boards are held by `C`.
#[derive(Drop)]
pub struct Machine<C: BoardWords> {
    pub(crate) alloc: Global,
    pub(crate) boards: BoardMachine<C>,
    pub(crate) events: PartyEvents,
    pub(crate) spent: bool,
}

impl<C: BoardWords + Drop> Machine<C> {
    /// A machine that stands for the empty session. It takes no memory.
    pub fn new(alloc: Global) -> Machine<C>
        ensures { StandsAfter result 0 start }
    {
        Machine {
            alloc,
            boards: BoardMachine::new(alloc),
            events: PartyEvents::new(alloc),
            spent: false,
        }
    }

    /// Whether memory was refused in an earlier line. Then no further line may be run.
    pub fn is_spent(&self) -> bool
        ensures { result ≡ self.now.spent }
    {
        self.spent
    }

    // Answers a line of boards, or one that boards and events share. Inlined, so that the line isn't copied.
    #[inline(always)]
    fn board_line(&mut self, line: Line, out: &mut Vec<u8>) -> Result<(), AllocError>
        requires led { IsLed self.old }
        requires line { IsLine line }
        requires empty { out.old.items ≡ [] }
        ensures tells { OnOk result (Tells self.old self.new (script_line.Board line)
            out.new.items) }
        ensures memory { OnErr result (MayWant self.old (script_line.Board line) out.old) }
        ensures room { vec_capacity out.old ≤ vec_capacity out.new }
        ensures drawn { OnOk result (drawn_by self.new.boards ≤ drawn_by self.old.boards + 1) }
    {
        match line {
            Line::Begin { party, call } => self.begin(party, call, out),
            Line::Step { party } => self.step(&party, out),
            Line::Release { party, thing } => self.release(&party, &thing, out),
            Line::Abandon { party } => self.abandon(party, out),
            Line::Words { board } => self.tell_words(board, out),
        }
    }

    // Answers a line of the grammar.
    fn answer(&mut self, line: ScriptLine, out: &mut Vec<u8>) -> Result<(), AllocError>
        requires led { IsLed self.old }
        requires line { IsScriptLine line }
        requires empty { out.old.items ≡ [] }
        ensures tells { OnOk result (Tells self.old self.new line out.new.items) }
        ensures memory { OnErr result (MayWant self.old line out.old) }
        ensures room { vec_capacity out.old ≤ vec_capacity out.new }
        ensures drawn { OnOk result (drawn_by self.new.boards ≤ drawn_by self.old.boards + 1) }
    {
        match line {
            ScriptLine::Board(line) => self.board_line(line, out),
            ScriptLine::Event { party, request } => self.event_call(party, request, out),
            ScriptLine::Expire { party } => self.expire(&party, out),
        }
    }

    // Answers any line, by the whole parser, and gives whether the bytes spell one.
    #[inline(never)]
    fn answer_parsed(&mut self, bytes: &[u8], out: &mut Vec<u8>) -> Result<bool, AllocError>
        requires led { IsLed self.old }
        requires empty { out.old.items ≡ [] }
        ensures tells { IfOk result (λ spelled.
            TellsOfBytes self.old self.new spelled bytes.now out.new.items) }
        ensures unknown { IfOk result (λ spelled.
            LeavesUnknown self.old self.new spelled bytes.now out.new.items) }
        ensures memory { OnErr result (BytesMayWant self.old bytes.now out.old) }
        ensures room { vec_capacity out.old ≤ vec_capacity out.new }
    {
        match line_or_unkept(self.alloc, bytes) {
            Ok(Some(line)) => self.answer(line, out)?,
            Ok(None) => return Ok(false),
            Err(line) => self.answer_unkept(&line, out)?,
        }
        Ok(true)
    }

    // The same for a line that begins a call, with short ways for notifies and waits. Apart, so that an update or a get
    // doesn't pay for them.
    #[inline(never)]
    fn answer_call(
        &mut self,
        bytes: &[u8],
        front: &[u8],
        asked: &[u8],
        out: &mut Vec<u8>,
    ) -> Result<bool, AllocError>
        requires led { IsLed self.old }
        requires cut { IsCut bytes.now front.now asked.now }
        requires empty { out.old.items ≡ [] }
        ensures tells { IfOk result (λ spelled.
            TellsOfBytes self.old self.new spelled bytes.now out.new.items) }
        ensures unknown { IfOk result (λ spelled.
            LeavesUnknown self.old self.new spelled bytes.now out.new.items) }
        ensures memory { OnErr result (BytesMayWant self.old bytes.now out.old) }
        ensures room { vec_capacity out.old ≤ vec_capacity out.new }
    {
        if let Some((party, notifier, id)) = notify_at(bytes, front, asked) {
            self.event_call(party, EventRequest::Notify { notifier, id }, out)?;
            return Ok(true);
        }
        if let Some((party, listener, many, mode)) = wait_at(bytes, front, asked) {
            let request = EventRequest::Wait {
                listener,
                many,
                mode,
            };
            self.event_call(party, request, out)?;
            return Ok(true);
        }
        self.answer_parsed(bytes, out)
    }

    // The same for any line, with short ways for gets and updates that begin too.
    #[inline(never)]
    fn answer_begun(&mut self, bytes: &[u8], out: &mut Vec<u8>) -> Result<bool, AllocError>
        requires led { IsLed self.old }
        requires empty { out.old.items ≡ [] }
        ensures tells { IfOk result (λ spelled.
            TellsOfBytes self.old self.new spelled bytes.now out.new.items) }
        ensures unknown { IfOk result (λ spelled.
            LeavesUnknown self.old self.new spelled bytes.now out.new.items) }
        ensures memory { OnErr result (BytesMayWant self.old bytes.now out.old) }
        ensures room { vec_capacity out.old ≤ vec_capacity out.new }
    {
        let Some((front, asked)) = cut_at_call(bytes) else {
            return self.answer_parsed(bytes, out);
        };
        match asked {
            [b'u', ..] => {
                let Some((party, handle, value)) = update_at(bytes, front, asked) else {
                    return self.answer_parsed(bytes, out);
                };
                self.begin_update(party, handle, value, out)?;
                Ok(true)
            }
            [b'g', ..] => {
                let Some((party, handle)) = get_at(bytes, front, asked) else {
                    return self.answer_parsed(bytes, out);
                };
                self.begin_get(party, handle, out)?;
                Ok(true)
            }
            _ => self.answer_call(bytes, front, asked, out),
        }
    }

    // The same, with a short way for steps. The other lines are apart, so that a step doesn't pay for them.
    #[inline(always)]
    fn answer_bytes(&mut self, bytes: &[u8], out: &mut Vec<u8>) -> Result<bool, AllocError>
        requires led { IsLed self.old }
        requires empty { out.old.items ≡ [] }
        ensures tells { IfOk result (λ spelled.
            TellsOfBytes self.old self.new spelled bytes.now out.new.items) }
        ensures unknown { IfOk result (λ spelled.
            LeavesUnknown self.old self.new spelled bytes.now out.new.items) }
        ensures memory { OnErr result (BytesMayWant self.old bytes.now out.old) }
        ensures room { vec_capacity out.old ≤ vec_capacity out.new }
    {
        let Some(party) = step_of(bytes) else {
            return self.answer_begun(bytes, out);
        };
        self.step(&party, out)?;
        Ok(true)
    }

    // Memory was refused: no line can be answered any more, and what stood in the answer is dropped.
    fn give_up(&mut self, begun: &mut Vec<u8>) -> LineError
        ensures error { result ≡ LineError.OutOfMemory }
        ensures spent { self.new.spent ≡ true }
        ensures dropped { begun.new.items ≡ [] }
        ensures room { vec_capacity begun.new ≡ vec_capacity begun.old }
    {
        begun.clear();
        self.spent = true;
        LineError::OutOfMemory
    }

    /// Answers a line: `answer` then has the answer and its newline, and nothing else.
    ///
    /// # Errors
    /// `Bad` exactly where the line is outside the grammar, and then the machine stays as it was. After `OutOfMemory` the
    /// machine is spent. On both `answer` is empty. `OutOfMemory` never comes for a line outside the grammar. Where `answer` has
    /// room for the right answer, or for 400 bytes, it comes neither for a step that makes and lends nothing, tells neither a list
    /// nor an info, isn't the last of a get that keeps its value, is given no ids and tells at most 400 bytes, nor for a drop, an
    /// expiry or an abandonment of a party whose call on boards runs, nor for any refused line.
    pub fn line(&mut self, line: &[u8], answer: &mut Vec<u8>) -> Result<(), LineError>
        // The machine isn't spent, and it stands for a lawful session of fewer than 2^63 lines.
        requires { (session : Session) × StandsFor StandsAfter self.old session }

        // For each session that it stands for the answer is right, and it stands for the session with this pair.
        ensures ok { OnOk result (AnswersEach StandsAfter self.old self.new line.now
            answer.new.items) }

        // A line outside the grammar is refused, no other one is, and nothing changes.
        ensures bad { IsErrOf result LineError.Bad → SpellsNone line.now }
        ensures same { IsErrOf result LineError.Bad → self.new ≡ self.old }

        // A line outside the grammar wants no memory. Nor does a line that takes none, where `answer` has room for its right
        // answer: a line that is refused takes none. The room stays.
        ensures spelled { IsErrOf result LineError.OutOfMemory → SpellsSome line.now }
        ensures memory { IsErrOf result LineError.OutOfMemory
            → SpellsWanting self.old line.now (vec_capacity answer.old) }
        ensures room { vec_capacity answer.old ≤ vec_capacity answer.new }

        ensures spent { IsErrOf result LineError.OutOfMemory → self.new.spent ≡ true }
        ensures err { OnErr result (answer.new.items ≡ []) }
    {
        answer.clear();
        match self.answer_bytes(line, answer) {
            Ok(true) => Ok(()),
            Ok(false) => Err(LineError::Bad),
            Err(_) => Err(self.give_up(answer)),
        }
    }
}

impl<C: BoardWords + Drop> RunsLines for Machine<C> {
    ghost stands = { StandsAfter };

    ghost wants = { SpellsTaking };

    fn line(&mut self, line: &[u8], answer: &mut Vec<u8>) -> Result<(), LineError> {
        Machine::line(self, line, answer)
    }
}
