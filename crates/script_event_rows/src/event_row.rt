//! One event: what it holds, and what an access finds and leaves.
ghost use Rattle.std.specs.Prelude.{◌≡◌, ◌<◌, ◌+◌, ◌-◌, ◌/◌, ◌^◌, ◌||◌, IfOk, OnErr, OnOk, false, nat_lt};
ghost use Rattle.board_event_model.specs.EventMemory as event;
ghost use Rattle.board_event_model.specs.EventMemory.{CanPerform, Event, new_event};
ghost use Rattle.script_event_rows.specs.EventRows.{AnswersRight, Becomes, IsOf, OfSome, StandsFor};

use crate::id_words::{empty_word, no_ids, put_id, take_id, word_at};
use board_event_model::{EventAccess, EventAnswer, EventKind};
use board_layout::Text;
use std::alloc::{AllocError, Global};
use std::collections::VecDeque;

// A queue holds at most so many ids.
const MOST_QUEUED: usize = 512;

/// An event that was made. Contracts say for which event of the definitions it stands.
#[derive(Drop, Debug)]
pub struct EventRow {
    kind: EventKind,
    name: Text<255>,
    // the greatest id of a set
    max: u64,
    // the pending ids of a set, 64 a word
    pending: Vec<u64>,
    // the pending ids of a queue, oldest first
    queue: VecDeque<u64>,
    signals: u64,
    // its listener wasn't released
    held: bool,
    // its listener's party was abandoned before that
    gone: bool,
    notifiers: u64,
}

fn yes_or_no(is: bool) -> EventAnswer
    ensures { result ≡ event.yes_or_no is }
{
    if is {
        EventAnswer::Yes
    } else {
        EventAnswer::No
    }
}

// How many words an event needs: those for all ids up to the greatest of a set.
fn words_for(kind: EventKind, max: u64) -> u64
    ensures { kind ≡ EventKind.Bits → result ≡ max / 64 + 1 }
{
    match kind {
        EventKind::Bits => max / 64 + 1,
        EventKind::Queue => 0,
    }
}

impl EventRow {
    /// A new event with its listener.
    ///
    /// # Errors
    /// `AllocError` where memory is refused.
    pub fn new(
        alloc: Global,
        kind: EventKind,
        name: Text<255>,
        max: u64,
    ) -> Result<EventRow, AllocError>
        ensures { IfOk result (λ row. StandsFor row (new_event kind name max)) }
    {
        let pending = no_ids(alloc, words_for(kind, max))?;
        Ok(EventRow {
            kind,
            name,
            max,
            pending,
            queue: VecDeque::new(alloc),
            signals: 0,
            held: true,
            gone: false,
            notifiers: 0,
        })
    }

    /// Its kind.
    pub fn kind(&self) -> EventKind
        ensures { IsOf self.now (λ e. e.kind) result }
    {
        self.kind
    }

    /// Its full name.
    pub fn name(&self) -> &Text<255>
        ensures { IsOf self.now (λ e. e.name) result.now }
    {
        &self.name
    }

    /// The greatest id of a set.
    pub fn max(&self) -> u64
        ensures { IsOf self.now (λ e. e.max) result }
    {
        self.max
    }

    /// Whether its listener wasn't released.
    pub fn is_held(&self) -> bool
        ensures { IsOf self.now (λ e. e.held) result }
    {
        self.held
    }

    /// Whether somebody holds its name: that of a set a listener or a notifier, that of a queue its listener.
    pub fn holds_name(&self) -> bool
        ensures { IsOf self.now event.holds_name result }
    {
        match self.kind {
            EventKind::Bits => self.held || self.notifiers > 0,
            EventKind::Queue => self.held,
        }
    }

    /// A notifier more.
    pub fn add_notifier(&mut self)
        requires { OfSome self.old (λ e. e.notifiers < 2 ^ 64 - 1) }
        ensures { Becomes self.old self.new (λ e. record e { notifiers = e.notifiers + 1 }) }
    {
        self.notifiers += 1;
    }

    /// A notifier fewer, where there is one.
    pub fn release_notifier(&mut self)
        ensures { Becomes self.old self.new (λ e. record e { notifiers = e.notifiers - 1 }) }
    {
        self.notifiers = self.notifiers.saturating_sub(1);
    }

    /// The listener was released.
    pub fn release_listener(&mut self)
        ensures { Becomes self.old self.new (λ e. record e { held = false }) }
    {
        self.held = false;
    }

    /// The listener's party was abandoned, which counts where the listener wasn't released before.
    pub fn abandon_listener(&mut self)
        ensures { Becomes self.old self.new (λ e. record e { gone = e.gone || e.held }) }
    {
        self.gone = self.gone || self.held;
    }

    // Makes an id pending.
    fn set(&mut self, id: u64)
        requires { OfSome self.old (λ e. CanPerform e (EventAccess.Set id)) }
        ensures { Becomes self.old self.new (λ e. event.after e (EventAccess.Set id)) }
    {
        put_id(&mut self.pending, id);
    }

    // Adds a signal.
    fn post(&mut self)
        requires { OfSome self.old (λ e. CanPerform e EventAccess.Post) }
        ensures { Becomes self.old self.new (λ e. event.after e EventAccess.Post) }
    {
        self.signals += 1;
    }

    // Takes a signal, and tells whether there was one.
    fn signal(&mut self) -> EventAnswer
        ensures right { AnswersRight self.old EventAccess.Signal result }
        ensures after { Becomes self.old self.new (λ e. event.after e EventAccess.Signal) }
    {
        if self.signals == 0 {
            return EventAnswer::No;
        }
        self.signals -= 1;
        EventAnswer::Yes
    }

    // The ids of a word.
    fn scan(&self, word: u64) -> EventAnswer
        requires { OfSome self.now (λ e. CanPerform e (EventAccess.Scan word)) }
        ensures { AnswersRight self.now (EventAccess.Scan word) result }
    {
        EventAnswer::Word(word_at(&self.pending, word))
    }

    // Takes an id.
    fn clear(&mut self, id: u64) -> EventAnswer
        requires { OfSome self.old (λ e. CanPerform e (EventAccess.Clear id)) }
        ensures right { AnswersRight self.old (EventAccess.Clear id) result }
        ensures after { Becomes self.old self.new (λ e. event.after e (EventAccess.Clear id)) }
    {
        take_id(&mut self.pending, id);
        EventAnswer::Done
    }

    // Takes the ids of a word.
    fn swap(&mut self, word: u64) -> EventAnswer
        requires { OfSome self.old (λ e. CanPerform e (EventAccess.Swap word)) }
        ensures right { AnswersRight self.old (EventAccess.Swap word) result }
        ensures after { Becomes self.old self.new (λ e. event.after e (EventAccess.Swap word)) }
    {
        let bits = word_at(&self.pending, word);
        empty_word(&mut self.pending, word);
        EventAnswer::Word(bits)
    }

    // What a push is answered.
    fn push_answer(&self) -> EventAnswer
        ensures { IsOf self.now event.push_answer result }
    {
        if !self.held || self.gone {
            return EventAnswer::Gone;
        }
        if self.queue.len() < MOST_QUEUED {
            return EventAnswer::Done;
        }
        EventAnswer::Full
    }

    // Adds an id to the queue, where there is room and a listener.
    fn push(&mut self, id: u64) -> Result<EventAnswer, AllocError>
        ensures right { IfOk result (AnswersRight self.old (EventAccess.Push id)) }
        ensures after { OnOk result (Becomes self.old self.new
            (λ e. event.after e (EventAccess.Push id))) }
        ensures err { OnErr result (Becomes self.old self.new (λ e. e)) }
    {
        let answer = self.push_answer();
        if answer == EventAnswer::Done {
            self.queue.push_back(id)?;
        }
        Ok(answer)
    }

    // Takes the oldest id of the queue.
    fn pop(&mut self) -> EventAnswer
        ensures right { AnswersRight self.old EventAccess.Pop result }
        ensures after { Becomes self.old self.new (λ e. event.after e EventAccess.Pop) }
    {
        match self.queue.pop_front() {
            Some(id) => EventAnswer::Id(id),
            None => EventAnswer::Empty,
        }
    }

    /// Makes an access that the event can take, and gives what it is answered.
    ///
    /// # Errors
    /// `AllocError` where memory is refused; then the event is as it was.
    pub fn perform(&mut self, access: EventAccess) -> Result<EventAnswer, AllocError>
        requires { OfSome self.old (λ e. CanPerform e access) }
        ensures right { IfOk result (AnswersRight self.old access) }
        ensures after { OnOk result (Becomes self.old self.new (λ e. event.after e access)) }
        ensures err { OnErr result (Becomes self.old self.new (λ e. e)) }
    {
        match access {
            EventAccess::Listener => Ok(yes_or_no(self.held)),
            EventAccess::Set(id) => {
                self.set(id);
                Ok(EventAnswer::Done)
            }
            EventAccess::Post => {
                self.post();
                Ok(EventAnswer::Done)
            }
            EventAccess::Push(id) => self.push(id),
            EventAccess::Signal => Ok(self.signal()),
            EventAccess::Scan(word) => Ok(self.scan(word)),
            EventAccess::Clear(id) => Ok(self.clear(id)),
            EventAccess::Swap(word) => Ok(self.swap(word)),
            EventAccess::Pop => Ok(self.pop()),
        }
    }
}
