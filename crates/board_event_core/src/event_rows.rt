//! The rows of the table of events: the events by their numbers, and the held names.
ghost use Rattle.std.specs.Prelude.{◌≡◌, ◌≢◌, ℕ, List, ◌<◌, ◌+◌, ◌-◌, ◌^◌, true, false, is_some, option_copied, IfSome, IsSome, IsSomeAnd, Some, None};
ghost use Rattle.board_names.specs.Table.{NamesAscend, at, without};
ghost use Rattle.std.specs.List.Sorted.{IsStrictlySortedBy};
ghost use Rattle.std.specs.Map.{keys_of};
ghost use Rattle.std.specs.Ordering.{nat_cmp};
ghost use Rattle.board_event_model.specs.declared.kind.EventKind.{EventKind as Kind};
ghost use Rattle.board_event_model.specs.EventMemory.{Event, IsRight, after, with_notifier, without_listener, without_notifier};
ghost use Rattle.board_event_core.specs.EventTable.{AreLeft, CanPerformAt, DropsEvent, LosesName, NamesAreLeft, SettlesName, changed, event_at, freed, table_listened, names_of, empty_table, settled, with_gone, with_name, with_name_freed, with_new_event, without_event, without_name};

use crate::event_memory::EventMemory;
use board_event_model::{EventAccess, EventAnswer, EventKind};
use board_names::{FilePath, Table};
use std::alloc::Global;
use std::collections::BTreeMap;
use std::marker::Model;

/// The rows of the table of events. Nothing ties a name to its event here: a call of `Events` does.
#[derive(Drop)]
pub(crate) struct EventRows {
    drawn: u64,
    events: BTreeMap<u64, EventMemory>,
    bits: Table<u64>,
    queues: Table<u64>,
    alloc: Global,
}

impl Model for EventRows {
    ghost use Rattle.board_event_core.specs.EventTable.{EventTable, table_code, table_of};

    ghost Value = { EventTable };

    ghost coded = { table_code };

    ghost view = { λ t. table_of t.drawn t.events.entries t.bits.entries t.queues.entries };
}

impl EventRows {
    /// No events. Takes no memory.
    pub(crate) fn new(alloc: Global) -> EventRows
        ensures { result ≡ empty_table }
    {
        EventRows {
            drawn: 0,
            events: BTreeMap::new(alloc),
            bits: Table::new(alloc),
            queues: Table::new(alloc),
            alloc,
        }
    }

    /// How many numbers were drawn.
    pub(crate) fn drawn(&self) -> u64
        ensures { result ≡ self.now.drawn }
    {
        self.drawn
    }

    /// The names of a kind.
    pub(crate) fn names(&self, kind: EventKind) -> &Table<u64>
        ensures { result.now.entries ≡ names_of kind self.now }
    {
        match kind {
            EventKind::Bits => &self.bits,
            EventKind::Queue => &self.queues,
        }
    }

    /// The numbers ascend, and so do the names of each kind.
    pub(crate) fn ascend(&self)
        ensures numbers { IsStrictlySortedBy nat_cmp (keys_of self.now.events) }
        ensures bits { NamesAscend self.now.bits }
        ensures queues { NamesAscend self.now.queues }
    {
        let _ = (self.events.len(), self.bits.len(), self.queues.len());
    }

    /// The event that stands under a number.
    pub(crate) fn event(&self, number: u64) -> Option<&EventMemory>
        ensures { option_copied result ≡ event_at self.now number }
    {
        self.events.get(&number)
    }

    /// The event under a number that has one.
    pub(crate) fn standing(&self, number: u64) -> &EventMemory
        requires { IsSome (event_at self.now number) }
        ensures { event_at self.now number ≡ Some result.now }
    {
        match self.event(number) {
            Some(memory) => memory,
            // The event stands.
            None => unreachable!(),
        }
    }

    /// Makes an event with its listener, unless memory is refused.
    pub(crate) fn add(&mut self, kind: EventKind, name: &FilePath, max: u64) -> Option<u64>
        requires free { at (names_of kind self.old) name.now ≡ None }
        requires few { self.old.drawn < 2 ^ 64 - 2 }
        ensures number { IfSome result (λ n. n ≡ self.old.drawn + 1) }
        ensures added { IsSome result → self.new ≡ table_listened self.old kind name.now max }
        ensures none { result ≡ None → self.new ≡ self.old }
    {
        let number = self.drawn + 1;
        let Ok(memory) = EventMemory::new(self.alloc, kind, name, max) else {
            return None;
        };
        if !self.take_name(kind, name, number) {
            return None;
        }
        if !self.add_event(number, memory) {
            self.remove(kind, name);
            return None;
        }
        self.drawn = number;
        Some(number)
    }

    /// Puts an event under a number, and tells whether there was memory for it.
    fn add_event(&mut self, number: u64, memory: EventMemory) -> bool
        ensures added { result ≡ true → self.new ≡ with_new_event self.old number memory }
        ensures refused { result ≡ false → self.new ≡ self.old }
    {
        self.events.insert(number, memory).is_ok()
    }

    /// Puts a free name under a number, and tells whether there was memory for it.
    fn take_name(&mut self, kind: EventKind, name: &FilePath, number: u64) -> bool
        ensures taken { result ≡ true → self.new ≡ with_name kind self.old name.now number }
        ensures refused { result ≡ false → self.new ≡ self.old }
    {
        match kind {
            EventKind::Bits => self.bits.insert(name, number).is_ok(),
            EventKind::Queue => self.queues.insert(name, number).is_ok(),
        }
    }

    /// Lets a name of this kind go, and tells whether it was held.
    pub(crate) fn remove(&mut self, kind: EventKind, name: &FilePath) -> bool
        ensures value { result ≡ is_some (at (names_of kind self.old) name.now) }
        ensures left { AreLeft self.old self.new }
        ensures gone { at (names_of kind self.new) name.now ≡ None }
        ensures after { self.new ≡ without_name kind self.old name.now }
    {
        match kind {
            EventKind::Bits => remove(&mut self.bits, name),
            EventKind::Queue => remove(&mut self.queues, name),
        }
    }

    /// Adds a notifier to an event.
    pub(crate) fn add_notifier(&mut self, event: u64)
        requires { IsSomeAnd (event_at self.old event) (λ e. e.notifiers < 2 ^ 64 - 1) }
        ensures { self.new ≡ changed self.old event with_notifier }
    {
        let Some(memory) = self.events.get_mut(&event) else {
            // The event stands.
            unreachable!()
        };
        memory.add_notifier()
    }

    /// Lets the listener of an event go.
    pub(crate) fn drop_listener(&mut self, event: u64)
        requires { IsSome (event_at self.old event) }
        ensures { self.new ≡ changed self.old event without_listener }
    {
        let Some(memory) = self.events.get_mut(&event) else {
            // The event stands.
            unreachable!()
        };
        memory.release_listener()
    }

    /// Lets a notifier of an event go.
    pub(crate) fn drop_notifier(&mut self, event: u64)
        requires { IsSomeAnd (event_at self.old event) (λ e. 0 < e.notifiers) }
        ensures { self.new ≡ changed self.old event without_notifier }
    {
        let Some(memory) = self.events.get_mut(&event) else {
            // The event stands.
            unreachable!()
        };
        memory.release_notifier()
    }

    /// Makes an access to an event.
    pub(crate) fn perform(&mut self, event: u64, access: EventAccess) -> EventAnswer
        requires { CanPerformAt self.old event access }
        ensures right { IsSomeAnd (event_at self.old event) (λ e. IsRight e access result) }
        ensures after { self.new ≡ changed self.old event (λ e. after e access) }
    {
        let Some(memory) = self.events.get_mut(&event) else {
            // The event stands.
            unreachable!()
        };
        memory.perform(access)
    }

    /// Counts the listener of a queue event as gone. Its name stays held.
    pub(crate) fn mark_gone(&mut self, event: u64)
        requires { IsSome (event_at self.old event) }
        ensures { self.new ≡ changed self.old event with_gone }
    {
        let Some(memory) = self.events.get_mut(&event) else {
            // The event stands.
            unreachable!()
        };
        memory.mark_gone()
    }

    /// Frees the name of an event that nobody holds by it, and lets an event without holders go.
    pub(crate) fn settle(&mut self, event: u64)
        requires { IsSome (event_at self.old event) }
        ensures settled { self.new ≡ settled self.old event }
        ensures left { AreLeft self.old self.new }
        ensures gone { IsSomeAnd (event_at self.old event) (λ e. LosesName e self.new event) }
        ensures dropped { IsSomeAnd (event_at self.old event) (λ e. DropsEvent self.new event e) }
    {
        let is_held = self.standing(event).is_held();
        self.settle_name(event);
        if !is_held {
            self.drop_event(event);
        }
    }

    /// Frees the name of an event that nobody holds by it.
    fn settle_name(&mut self, event: u64)
        requires { IsSome (event_at self.old event) }
        ensures settled { SettlesName self.old self.new event }
        ensures left { AreLeft self.old self.new }
        ensures gone { IsSomeAnd (event_at self.old event) (λ e. LosesName e self.new event) }
    {
        let memory = self.standing(event);
        let (kind, name) = (memory.kind(), memory.path());
        if !memory.holds_name() {
            self.free_name(kind, &name, event);
        }
    }

    /// Lets an event go.
    fn drop_event(&mut self, event: u64)
        ensures after { self.new ≡ without_event self.old event }
        ensures gone { event_at self.new event ≡ None }
    {
        self.events.remove(&event);
    }

    /// Frees a name where the event with this number holds it.
    fn free_name(&mut self, kind: EventKind, name: &FilePath, number: u64)
        ensures left { AreLeft self.old self.new }
        ensures gone { at (names_of kind self.new) name.now ≢ Some number }
        ensures freed { self.new ≡ with_name_freed kind self.old name.now number }
    {
        match kind {
            EventKind::Bits => free(&mut self.bits, name, number),
            EventKind::Queue => free(&mut self.queues, name, number),
        }
    }
}

/// Takes a name out, and tells whether it was held.
fn remove(names: &mut Table<u64>, name: &FilePath) -> bool
    ensures value { result ≡ is_some (at names.old.entries name.now) }
    ensures left { NamesAreLeft names.old.entries names.new.entries }
    ensures gone { at names.new.entries name.now ≡ None }
    ensures after { names.new.entries ≡ without names.old.entries name.now }
{
    names.remove(name).is_some()
}

/// Frees a name where it stands for this number.
fn free(names: &mut Table<u64>, name: &FilePath, number: u64)
    ensures left { NamesAreLeft names.old.entries names.new.entries }
    ensures gone { at names.new.entries name.now ≢ Some number }
    ensures freed { names.new.entries ≡ freed names.old.entries name.now number }
{
    if names.get(name).copied() == Some(number) {
        remove(names, name);
    }
}
