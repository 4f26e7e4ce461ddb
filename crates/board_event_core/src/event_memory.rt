//! The memory of one event.
ghost use Rattle.std.specs.Prelude.{◌≡◌, ◌≤◌, ◌<◌, ◌+◌, ◌-◌, ◌^◌, ◌/◌, ℕ, IfOk, [], true, false, IsTrue, ◌↔◌};
ghost use Rattle.std.specs.FinSet as set;
ghost use Rattle.board_event_model.specs.EventMemory.{CanPerform, Event, IsRight, after, has_holder, holds_name, new_event, pop_answer, push_answer, with_notifier, without_listener, without_notifier, yes_or_no};
ghost use Rattle.board_event_core.specs.Passing.{NoneBetween};
ghost use Rattle.board_event_core.specs.EventTable.{with_gone};

use crate::bit_set::BitSet;
use crate::semaphore::Semaphore;
use crate::signal_mechanism::SignalMechanism;
use board_event_model::{EventAccess, EventAnswer, EventKind};
use board_names::{FilePath, KeptPath};
use circular_buffer::HeapCircularBuffer;
use std::alloc::{AllocError, Global};
use std::marker::Model;

/// How many ids a queue holds.
pub const QUEUE_CAPACITY: usize = 512;

/// The ids that wait.
#[derive(Drop)]
pub(crate) enum Pending {
    Bits(BitSet),
    Queue(HeapCircularBuffer<u64>),
}

/// The memory of one event. Clauses see the event.
#[derive(Drop)]
pub(crate) struct EventMemory {
    name: KeptPath,
    max: u64,
    pending: Pending,
    signals: Semaphore,
    held: bool,
    gone: bool,
    notifiers: u64,
}

impl Model for EventMemory {
    ghost use Rattle.std.specs.Prelude.{◌≡◌};
    ghost use Rattle.board_event_model.specs.EventMemory.{Event};
    ghost use Rattle.board_event_core.specs.Memories.{IsPendingOf, event_code, ids_in, kind_in, queue_in};

    ghost Value = { Event };

    ghost coded = { event_code };

    ghost view = { λ e. record {
      kind = kind_in e.pending;
      name = e.name;
      max = e.max;
      pending = ids_in e.pending;
      queue = queue_in e.pending;
      signals = e.signals;
      held = e.held;
      gone = e.gone;
      notifiers = e.notifiers;
    } };

    ghost invariant = { λ e. IsPendingOf e.max e.pending };
}

impl EventMemory {
    /// The memory of a new event, with all the room that it will need.
    ///
    /// # Errors
    /// `AllocError` where memory is refused.
    pub fn new(
        alloc: Global,
        kind: EventKind,
        name: &FilePath,
        max: u64,
    ) -> Result<EventMemory, AllocError>
        ensures { IfOk result (λ e. e ≡ new_event kind name.now max) }
    {
        let pending = match kind {
            EventKind::Bits => Pending::Bits(BitSet::with_max(alloc, max)?),
            EventKind::Queue => {
                Pending::Queue(HeapCircularBuffer::with_capacity(alloc, QUEUE_CAPACITY)?)
            }
        };
        Ok(EventMemory {
            name: KeptPath::of(alloc, name)?,
            max,
            pending,
            signals: Semaphore::new(),
            held: true,
            gone: false,
            notifiers: 0,
        })
    }

    /// Its kind.
    pub fn kind(&self) -> EventKind
        ensures { result ≡ self.now.kind }
    {
        match &self.pending {
            Pending::Bits(_) => EventKind::Bits,
            Pending::Queue(_) => EventKind::Queue,
        }
    }

    /// The bytes of its full name.
    pub fn name(&self) -> &[u8]
        ensures { result.now ≡ self.now.name }
    {
        self.name.as_bytes()
    }

    /// Its full name.
    pub fn path(&self) -> FilePath
        ensures { result ≡ self.now.name }
    {
        self.name.path()
    }

    /// The greatest id that was handed to `new`.
    pub fn max(&self) -> u64
        ensures { result ≡ self.now.max }
    {
        self.max
    }

    /// Whether its listener is held.
    pub fn has_listener(&self) -> bool
        ensures { result ≡ self.now.held }
    {
        self.held
    }

    /// Whether a listener or a notifier of it is held.
    pub fn is_held(&self) -> bool
        ensures { result ≡ has_holder self.now }
    {
        self.held || self.notifiers > 0
    }

    /// Whether somebody holds its name.
    pub fn holds_name(&self) -> bool
        ensures { result ≡ holds_name self.now }
    {
        match &self.pending {
            Pending::Bits(_) => self.is_held(),
            Pending::Queue(_) => self.held,
        }
    }

    /// How many notifiers it has.
    pub fn notifiers(&self) -> u64
        ensures { result ≡ self.now.notifiers }
    {
        self.notifiers
    }

    /// Adds a notifier.
    pub fn add_notifier(&mut self)
        requires { self.old.notifiers < 2 ^ 64 - 1 }
        ensures { self.new ≡ with_notifier self.old }
    {
        self.notifiers += 1;
    }

    /// Lets a notifier go.
    pub fn release_notifier(&mut self)
        requires { 0 < self.old.notifiers }
        ensures { self.new ≡ without_notifier self.old }
    {
        self.notifiers -= 1;
    }

    /// Lets the listener go.
    pub fn release_listener(&mut self)
        ensures { self.new ≡ without_listener self.old }
    {
        self.held = false;
    }

    /// Counts the listener as gone.
    pub fn mark_gone(&mut self)
        ensures { self.new ≡ with_gone self.old }
    {
        self.gone = true;
    }

    /// Whether it can take an access.
    pub fn allows(&self, access: EventAccess) -> bool
        ensures { IsTrue result ↔ CanPerform self.now access }
    {
        match &self.pending {
            Pending::Bits(bits) => match access {
                EventAccess::Listener | EventAccess::Signal => true,
                EventAccess::Set(id) => id <= self.max,
                EventAccess::Post => self.signals.has_room(),
                EventAccess::Scan(word) | EventAccess::Swap(word) => word <= self.max / 64,
                EventAccess::Clear(id) => bits.contains(id),
                EventAccess::Push(_) | EventAccess::Pop => false,
            },
            Pending::Queue(_) => matches!(access, EventAccess::Push(_) | EventAccess::Pop),
        }
    }

    /// A word from this one on, where no word before it has ids.
    pub fn next_word(&self, word: u64) -> u64
        requires { CanPerform self.now (EventAccess.Scan word) }
        ensures behind { word ≤ result }
        ensures none { NoneBetween self.now.pending word result }
        ensures reachable { CanPerform self.now (EventAccess.Scan result) }
    {
        match &self.pending {
            Pending::Bits(bits) => bits.next_word(word),
            // `CanPerform`: a queue has no words.
            Pending::Queue(_) => unreachable!(),
        }
    }

    /// Makes an access.
    pub fn perform(&mut self, access: EventAccess) -> EventAnswer
        requires { CanPerform self.old access }
        ensures right { IsRight self.old access result }
        ensures after { self.new ≡ after self.old access }
    {
        match &mut self.pending {
            Pending::Bits(bits) => match access {
                EventAccess::Listener => yes_or_no(self.held),
                EventAccess::Set(id) => {
                    bits.set(id);
                    EventAnswer::Done
                }
                EventAccess::Post => {
                    self.signals.post();
                    EventAnswer::Done
                }
                EventAccess::Signal => yes_or_no(self.signals.take()),
                EventAccess::Scan(word) => EventAnswer::Word(bits.scan(word)),
                EventAccess::Clear(id) => {
                    bits.clear(id);
                    EventAnswer::Done
                }
                EventAccess::Swap(word) => EventAnswer::Word(bits.swap(word)),
                // `CanPerform`: bits take neither.
                EventAccess::Push(_) | EventAccess::Pop => unreachable!(),
            },
            Pending::Queue(queue) => match access {
                EventAccess::Push(_) if !self.held || self.gone => EventAnswer::Gone,
                EventAccess::Push(_) if queue.len() >= QUEUE_CAPACITY => EventAnswer::Full,
                EventAccess::Push(id) => {
                    queue.push_back(id);
                    EventAnswer::Done
                }
                EventAccess::Pop => match queue.pop_front() {
                    Some(id) => EventAnswer::Id(id),
                    None => EventAnswer::Empty,
                },
                // `CanPerform`: a queue takes no other.
                _ => unreachable!(),
            },
        }
    }
}

/// A look's answer.
fn yes_or_no(yes: bool) -> EventAnswer
    ensures { result ≡ yes_or_no yes }
{
    if yes {
        EventAnswer::Yes
    } else {
        EventAnswer::No
    }
}
