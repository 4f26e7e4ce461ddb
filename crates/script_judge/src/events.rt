//! Lines of events.
ghost use Rattle.std.specs.Prelude.{◌≡◌, ◌++◌, [], IfOk, None, OnOk, Some, option_map};
ghost use Rattle.board_model.specs.declared.line.Line.TheVariants as board_line;
ghost use Rattle.script_model.specs.declared.line.EventRequest.TheVariants as request;
ghost use Rattle.script_model.specs.ScriptAnswers.{of_event, script_answer_line};
ghost use Rattle.script_event_tables.specs.EventTables.{IsMade, OfEvent};
ghost use Rattle.script_judge.specs.declared.task.Ask.TheVariants as ask_is;
ghost use Rattle.script_model.specs.declared.line.ScriptLine.TheVariants as line;
ghost use Rattle.script_model.specs.ScriptEvents as events;
ghost use Rattle.script_model.specs.ScriptGrammar.{IsScriptLine};
ghost use Rattle.script_judge.specs.declared.task.Task.TheVariants as task;
ghost use Rattle.script_judge.specs.Judges.{GoesOnEach, HasMade, IsExpiry, IsLed, IsLedBut, IsTaskFound, IsThingPut, LetsGo, OfEach, Tells, TellsStep, task_of, thing_at};

use crate::judge::Judge;
use crate::task::{Ask, EventThing, Task};
use board_event_model::{EventAccess, EventAnswer, EventKind, WaitMode};
use board_layout::Text;
use board_model::{Name, Reason};
use script_board_tables::Seat;
use script_event_rows::{EventCall, Took};
use script_model::{EventReply, EventRequest, name_made};
use script_print::{push_begun, push_event_asked, push_event_step, push_expired, push_refused};
use std::alloc::AllocError;

impl Judge {
    // A notify, where the party holds the notifier.
    fn found_notify(&self, party: &Name, notifier: &Name, id: u64) -> Option<Task>
        requires { IsLed self.now }
        ensures { OfEach self.now (λ s. IsTaskFound
            (events.task_of s.events party.now (request.Notify notifier.now id)) result) }
    {
        match self.event_thing(party, notifier) {
            None => None,
            Some(thing) => match thing {
                EventThing::Listener(_) => None,
                EventThing::Notifier(number) => {
                    let event = self.events.get(number);
                    let call = EventCall::notify(self.alloc, event, id);
                    Some(Task::OnEvent { number, call })
                }
            },
        }
    }

    // A wait, where the party holds the listener.
    fn found_wait(&self, party: &Name, listener: &Name, many: bool, mode: WaitMode) -> Option<Task>
        requires { IsLed self.now }
        ensures { OfEach self.now (λ s. IsTaskFound
            (events.task_of s.events party.now (request.Wait listener.now many mode)) result) }
    {
        match self.event_thing(party, listener) {
            None => None,
            Some(thing) => match thing {
                EventThing::Notifier(_) => None,
                EventThing::Listener(number) => {
                    let event = self.events.get(number);
                    let call = EventCall::wait(self.alloc, event, many, mode);
                    Some(Task::OnEvent { number, call })
                }
            },
        }
    }

    // The call of a party, where it holds what the call uses.
    fn found_on_events(&self, party: &Name, request: &EventRequest) -> Option<Task>
        requires { IsLed self.now }
        ensures { OfEach self.now (λ s. IsTaskFound
            (events.task_of s.events party.now request.now) result) }
    {
        match request {
            EventRequest::ListenBits {
                listener,
                event,
                max,
            } => Some(Task::Asks(Ask::Listen {
                name: *listener,
                kind: EventKind::Bits,
                event: *event.as_text(),
                max: *max,
            })),
            EventRequest::ListenQueue { listener, event } => Some(Task::Asks(Ask::Listen {
                name: *listener,
                kind: EventKind::Queue,
                event: *event.as_text(),
                max: 0,
            })),
            EventRequest::Notifier {
                notifier,
                kind,
                event,
            } => Some(Task::Asks(Ask::Notify {
                name: *notifier,
                kind: *kind,
                event: *event.as_text(),
            })),
            EventRequest::Notify { notifier, id } => self.found_notify(party, notifier, *id),
            EventRequest::Wait {
                listener,
                many,
                mode,
            } => self.found_wait(party, listener, *many, *mode),
        }
    }

    pub(crate) fn begin_on_events(
        &mut self,
        party: &Name,
        request: &EventRequest,
        answer: &mut Vec<u8>,
    ) -> Result<(), AllocError>
        requires led { IsLed self.old }
        requires line { IsScriptLine (line.Event party.now request.now) }
        requires empty { answer.old.items ≡ [] }
        ensures { OnOk result (Tells self.old self.new (line.Event party.now request.now)
            answer.new.items) }
    {
        match self.unfree(party) {
            Some(why) => return push_refused(why, answer),
            None => {}
        }
        let task = match self.found_on_events(party, request) {
            Some(task) => task,
            None => return push_refused(Reason::Unknown, answer),
        };
        if self.is_taken(party, &name_made(request)) {
            return push_refused(Reason::Taken, answer);
        }
        self.put_task(party, task)?;
        push_begun(answer)
    }

    // The party has the listener or notifier under the name.
    fn hold(&mut self, party: &Name, name: Name, thing: EventThing) -> Result<(), AllocError>
        ensures { OnOk result (IsThingPut self.old self.new party.now name (Some thing)) }
    {
        let seat = Seat {
            party: *party,
            name,
        };
        let _ = self.things.insert(seat, thing)?;
        Ok(())
    }

    // The party has none under the name any more.
    fn forget(&mut self, party: &Name, name: &Name)
        ensures { IsThingPut self.old self.new party.now name.now None }
    {
        let _ = self.things.remove(&Seat {
            party: *party,
            name: *name,
        });
    }

    // A listener of a new event was asked for.
    fn made_listener(
        &mut self,
        party: &Name,
        name: Name,
        kind: EventKind,
        event: &Text<255>,
        max: u64,
    ) -> Result<EventReply, AllocError>
        ensures { IfOk result (HasMade self.old self.new party.now
            (ask_is.Listen name kind event.now max)) }
    {
        match self.events.listen(party, kind, event, max)? {
            Some(number) => {
                self.hold(party, name, EventThing::Listener(number))?;
                Ok(EventReply::Done)
            }
            None => Ok(EventReply::AlreadyExists),
        }
    }

    // A notifier of the event of a name was asked for.
    fn made_notifier(
        &mut self,
        party: &Name,
        name: Name,
        kind: EventKind,
        event: &Text<255>,
    ) -> Result<EventReply, AllocError>
        requires { IsLedBut self.old party.now (task.Asks (ask_is.Notify name kind event.now)) }
        ensures { IfOk result (HasMade self.old self.new party.now
            (ask_is.Notify name kind event.now)) }
    {
        match self.events.notifier(kind, event) {
            Some(number) => {
                self.hold(party, name, EventThing::Notifier(number))?;
                Ok(EventReply::Done)
            }
            None => Ok(EventReply::DoesNotExist),
        }
    }

    // What the party asked for was made, or is refused.
    fn made(&mut self, party: &Name, ask: Ask) -> Result<EventReply, AllocError>
        requires { IsLedBut self.old party.now (task.Asks ask) }
        ensures { IfOk result (HasMade self.old self.new party.now ask) }
    {
        match ask {
            Ask::Listen {
                name,
                kind,
                event,
                max,
            } => self.made_listener(party, name, kind, &event, max),
            Ask::Notify { name, kind, event } => self.made_notifier(party, name, kind, &event),
        }
    }

    pub(crate) fn step_asking(
        &mut self,
        party: &Name,
        ask: Ask,
        answer: &mut Vec<u8>,
    ) -> Result<(), AllocError>
        requires led { IsLedBut self.old party.now (task.Asks ask) }
        requires line { IsScriptLine (line.Board (board_line.Step party.now)) }
        requires empty { answer.old.items ≡ [] }
        ensures { OnOk result (TellsStep self.old self.new party.now (task.Asks ask)
            answer.new.items) }
    {
        let reply = self.made(party, ask)?;
        push_event_asked(&reply, answer)
    }

    // The call goes on after the answer to its access, or ends and is told so.
    fn go_on(
        &mut self,
        party: &Name,
        number: u64,
        call: EventCall,
        found: EventAnswer,
    ) -> Result<Option<EventReply>, AllocError>
        requires { task_of self.old party.now ≡ None }
        ensures { IfOk result (GoesOnEach self.old self.new party.now number call found) }
    {
        match call.took(found)? {
            Took::GoesOn(call) => {
                self.put_task(party, Task::OnEvent { number, call })?;
                Ok(None)
            }
            Took::Ended(told) => Ok(Some(told)),
        }
    }

    // Puts what the step on an event is told.
    fn tell_access(
        &self,
        number: u64,
        access: EventAccess,
        found: EventAnswer,
        told: &Option<EventReply>,
        answer: &mut Vec<u8>,
    ) -> Result<(), AllocError>
        requires { IsMade self.now.events number }
        ensures { OnOk result (OfEvent self.now.events number (λ e. answer.new.items
            ≡ answer.old.items ++ script_answer_line
            (of_event e.kind e.name access found told.now))) }
    {
        let event = self.events.get(number);
        push_event_step(
            event.kind(),
            event.name().as_bytes(),
            access,
            found,
            told.as_ref(),
            answer,
        )
    }

    pub(crate) fn step_on_event(
        &mut self,
        party: &Name,
        number: u64,
        call: EventCall,
        answer: &mut Vec<u8>,
    ) -> Result<(), AllocError>
        requires led { IsLedBut self.old party.now (task.OnEvent number call) }
        requires line { IsScriptLine (line.Board (board_line.Step party.now)) }
        requires empty { answer.old.items ≡ [] }
        ensures { OnOk result (TellsStep self.old self.new party.now (task.OnEvent number call)
            answer.new.items) }
    {
        let access = call.owed();
        let found = self.events.perform(number, access)?;
        let told = self.go_on(party, number, call, found)?;
        self.tell_access(number, access, found, &told, answer)
    }

    pub(crate) fn let_go(&mut self, party: &Name, name: &Name, held: EventThing)
        requires led { IsLed self.old }
        requires held { thing_at self.old party.now name.now ≡ Some held }
        ensures { LetsGo self.old self.new party.now name.now }
    {
        match held {
            EventThing::Listener(number) => {
                self.events.release_listener(number);
                self.forget(party, name)
            }
            EventThing::Notifier(number) => {
                self.events.release_notifier(number);
                self.forget(party, name)
            }
        }
    }

    // Why the call of a party can't be let expire; nothing where it can.
    fn unexpired(&self, party: &Name) -> Option<Reason>
        ensures { IsExpiry (task_of self.now party.now) result }
    {
        match self.tasks.get(party) {
            None => Some(Reason::Idle),
            Some(task) => match task {
                Task::Gone => Some(Reason::Abandoned),
                Task::OnBoards(_) => Some(Reason::NotWaiting),
                Task::Asks(_) => Some(Reason::NotWaiting),
                Task::OnEvent { number: _, call } => {
                    if call.may_expire() {
                        None
                    } else {
                        Some(Reason::NotWaiting)
                    }
                }
            },
        }
    }

    pub(crate) fn expire(&mut self, party: &Name, answer: &mut Vec<u8>) -> Result<(), AllocError>
        requires led { IsLed self.old }
        requires line { IsScriptLine (line.Expire party.now) }
        requires empty { answer.old.items ≡ [] }
        ensures { OnOk result (Tells self.old self.new (line.Expire party.now)
            answer.new.items) }
    {
        match self.unexpired(party) {
            Some(why) => return push_refused(why, answer),
            None => {}
        }
        let _ = self.take_task(party);
        push_expired(answer)
    }
}
