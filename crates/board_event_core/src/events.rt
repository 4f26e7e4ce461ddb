//! Events by their numbers and names.
ghost use Rattle.std.specs.Prelude.{◌≡◌, ◌≤◌, ◌<◌, ◌^◌, ◌↔◌, ℕ, true, is_some, IfOk, IfSome, IsSome, IsSomeAnd, IsTrue, None, OnOk, OnErr, Some};
ghost use Rattle.board_layout.specs.Answer.{Answers, Refuses};
ghost use Rattle.board_names.specs.Table.{NamesAscend, at, name_at};
ghost use Rattle.board_names.specs.declared.errors.event.ListenerCreateError.TheVariants.{OutOfMemory};
ghost use Rattle.board_event_model.specs.EventMemory.{Event, IsRight, after, new_event, with_notifier, without_listener, without_notifier};
ghost use Rattle.board_event_core.specs.Passing.{NoneBetween, ids_at};
ghost use Rattle.board_event_core.specs.EventTable.{CanPerformAt, DropsEventOf, FreesNameOf, HasRoomAt, HoldsNameAt, IsEventTable, IsNotifierAnswer, NameStands, answer_to_listen, changed, event_at, table_listened, names_of, empty_table, notifier_of, settled, with_gone, without_name};

use crate::event_rows::EventRows;
use board_event_model::{EventAccess, EventAnswer, EventKind};
use board_names::{FilePath, ListenerCreateError, NotifierCreateError, Table};
use std::alloc::Global;
use std::marker::Model;

/// How many events are made at most.
const LAST_NUMBER: u64 = u64::MAX - 1;

/// Events by their numbers, and the names that they hold. Clauses see a table of both.
///
/// What holds of every table, for whoever is lent one, tells `table_stands`.
/// One call is one step. No call but `listen` takes memory.
#[derive(Drop)]
pub struct Events {
    rows: EventRows,
}

impl Model for Events {
    ghost use Rattle.board_event_core.specs.EventTable.{EventTable, IsKept, table_code};

    ghost Value = { EventTable };

    ghost coded = { table_code };

    ghost view = { λ t. t.rows };

    ghost invariant = { λ t. IsKept t.rows };
}

impl Events {
    /// No events. Takes no memory.
    pub fn new(alloc: Global) -> Events
        ensures { result ≡ empty_table }
    {
        Events {
            rows: EventRows::new(alloc),
        }
    }

    /// Makes an event with its listener, and answers its number. It takes all memory that later calls on the event need.
    ///
    /// # Errors
    /// `AlreadyExists` where the name is held for that kind; `NumbersSpent` where all numbers were drawn; `OutOfMemory`.
    /// The events stay as they were.
    pub fn listen(
        &mut self,
        kind: EventKind,
        name: &FilePath,
        max: u64,
    ) -> Result<u64, ListenerCreateError>
        ensures answer { Answers result OutOfMemory (answer_to_listen self.old kind name.now) }
        ensures refused { Refuses result (answer_to_listen self.old kind name.now) }
        ensures ok { OnOk result (self.new ≡ table_listened self.old kind name.now max) }
        ensures stands { IfOk result (λ n. event_at self.new n ≡ Some (new_event kind name.now max)) }
        ensures err { OnErr result (self.new ≡ self.old) }
    {
        if self.holds(kind, name) {
            return Err(ListenerCreateError::AlreadyExists);
        }
        if self.rows.drawn() >= LAST_NUMBER {
            return Err(ListenerCreateError::NumbersSpent);
        }
        match self.rows.add(kind, name, max) {
            Some(number) => Ok(number),
            None => Err(ListenerCreateError::OutOfMemory),
        }
    }

    /// Whether the name is held for this kind.
    pub fn holds(&self, kind: EventKind, name: &FilePath) -> bool
        ensures stands { NameStands self.now kind name.now }
        ensures held { result ≡ is_some (at (names_of kind self.now) name.now) }
    {
        self.number_of(kind, name).is_some()
    }

    /// The number of the event that holds a name of this kind.
    fn number_of(&self, kind: EventKind, name: &FilePath) -> Option<u64>
        ensures number { result ≡ at (names_of kind self.now) name.now }
        ensures stands { IfSome result (HoldsNameAt self.now kind name.now) }
    {
        self.rows.names(kind).get(name).copied()
    }

    /// The held names of this kind, in their order, each with the number of its event.
    pub fn names(&self, kind: EventKind) -> &Table<u64>
        ensures entries { result.now.entries ≡ names_of kind self.now }
        ensures ascend { NamesAscend (names_of kind self.now) }
    {
        table_stands(self);
        self.rows.names(kind)
    }

    /// The held name of this kind at an index, counted from 0 in the order of the names.
    pub fn name_at(&self, kind: EventKind, index: usize) -> Option<FilePath>
        ensures value { result ≡ name_at (names_of kind self.now) index }
        ensures ascend { NamesAscend (names_of kind self.now) }
    {
        table_stands(self);
        self.rows.names(kind).name_at(index)
    }

    /// Lets a name of this kind go, and tells whether it was held. Its event goes on without the name.
    pub fn remove(&mut self, kind: EventKind, name: &FilePath) -> bool
        ensures value { result ≡ is_some (at (names_of kind self.old) name.now) }
        ensures free { at (names_of kind self.new) name.now ≡ None }
        ensures after { self.new ≡ without_name kind self.old name.now }
    {
        self.rows.remove(kind, name)
    }

    /// Makes a notifier of the event that holds the name, and answers the event's number.
    ///
    /// # Errors
    /// `DoesNotExist` where the name isn't held for that kind, or its listener was released; `NumbersSpent` where the
    /// event has 2^64 - 2 notifiers. The events stay as they were.
    pub fn notifier(&mut self, kind: EventKind, name: &FilePath) -> Result<u64, NotifierCreateError>
        ensures answer { IsNotifierAnswer self.old result (at (names_of kind self.old) name.now) }
        ensures ok { IfOk result (λ n. self.new ≡ changed self.old n with_notifier) }
        ensures stands { IfOk result (λ n. IsSomeAnd (event_at self.new n) (λ e. 0 < e.notifiers)) }
        ensures err { OnErr result (self.new ≡ self.old) }
    {
        let Some(number) = self.number_of(kind, name) else {
            return Err(NotifierCreateError::DoesNotExist);
        };
        let number = self.open_event(number)?;
        self.rows.add_notifier(number);
        Ok(number)
    }

    /// The number of an event that can have a notifier more.
    fn open_event(&self, number: u64) -> Result<u64, NotifierCreateError>
        requires { IsSome (event_at self.now number) }
        ensures answer { IsSomeAnd (event_at self.now number) (λ e. result ≡ notifier_of number e) }
        ensures room { IfOk result (HasRoomAt self.now) }
    {
        let memory = self.rows.standing(number);
        if !memory.has_listener() {
            return Err(NotifierCreateError::DoesNotExist);
        }
        if memory.notifiers() >= LAST_NUMBER {
            return Err(NotifierCreateError::NumbersSpent);
        }
        Ok(number)
    }

    /// Lets the listener of an event go. A queue's name is free at once, a bits name with the last notifier; the event goes with its last holder.
    pub fn release_listener(&mut self, event: u64)
        requires { IsSomeAnd (event_at self.old event) (λ e. e.held ≡ true) }
        ensures after { self.new ≡ settled (changed self.old event without_listener) event }
        ensures free { FreesNameOf self.old self.new event without_listener }
        ensures gone { DropsEventOf self.old self.new event without_listener }
    {
        self.rows.drop_listener(event);
        self.rows.settle(event)
    }

    /// Lets a notifier of an event go. A bits name is free with the last holder, and the event goes with it.
    pub fn release_notifier(&mut self, event: u64)
        requires { IsSomeAnd (event_at self.old event) (λ e. 0 < e.notifiers) }
        ensures after { self.new ≡ settled (changed self.old event without_notifier) event }
        ensures free { FreesNameOf self.old self.new event without_notifier }
        ensures gone { DropsEventOf self.old self.new event without_notifier }
    {
        self.rows.drop_notifier(event);
        self.rows.settle(event)
    }

    /// Whether the event stands and its listener is held.
    pub fn has_listener(&self, event: u64) -> bool
        ensures { IsTrue result ↔ IsSomeAnd (event_at self.now event) (λ e. e.held ≡ true) }
    {
        match self.rows.event(event) {
            None => false,
            Some(memory) => memory.has_listener(),
        }
    }

    /// Whether the event stands and has a notifier.
    pub fn has_notifier(&self, event: u64) -> bool
        ensures { IsTrue result ↔ IsSomeAnd (event_at self.now event) (λ e. 0 < e.notifiers) }
    {
        match self.rows.event(event) {
            None => false,
            Some(memory) => memory.notifiers() > 0,
        }
    }

    /// Whether the event stands and can take an access.
    pub fn allows(&self, event: u64, access: EventAccess) -> bool
        ensures { IsTrue result ↔ CanPerformAt self.now event access }
    {
        match self.rows.event(event) {
            None => false,
            Some(memory) => memory.allows(access),
        }
    }

    /// A word of an event from this one on, where no word before it has ids. So a wait that looks at this one may look there.
    pub fn next_word(&self, event: u64, word: u64) -> u64
        requires { CanPerformAt self.now event (EventAccess.Scan word) }
        ensures behind { word ≤ result }
        ensures none { NoneBetween (ids_at (event_at self.now event)) word result }
        ensures reachable { CanPerformAt self.now event (EventAccess.Scan result) }
    {
        self.rows.standing(event).next_word(word)
    }

    /// The kind of an event.
    pub fn kind_of(&self, event: u64) -> EventKind
        requires { IsSome (event_at self.now event) }
        ensures { IsSomeAnd (event_at self.now event) (λ e. result ≡ e.kind) }
    {
        self.rows.standing(event).kind()
    }

    /// The bytes of the full name with which an event was made.
    pub fn full_name_of(&self, event: u64) -> &[u8]
        requires { IsSome (event_at self.now event) }
        ensures { IsSomeAnd (event_at self.now event) (λ e. result.now ≡ e.name) }
    {
        self.rows.standing(event).name()
    }

    /// The greatest id that was handed to `listen`.
    pub fn max_of(&self, event: u64) -> u64
        requires { IsSome (event_at self.now event) }
        ensures { IsSomeAnd (event_at self.now event) (λ e. result ≡ e.max) }
    {
        self.rows.standing(event).max()
    }

    /// Makes an access to an event.
    pub fn perform(&mut self, event: u64, access: EventAccess) -> EventAnswer
        requires { CanPerformAt self.old event access }
        ensures right { IsSomeAnd (event_at self.old event) (λ e. IsRight e access result) }
        ensures after { self.new ≡ changed self.old event (λ e. after e access) }
    {
        self.rows.perform(event, access)
    }

    /// Counts the listener of a queue event as gone. Its name stays held.
    pub fn mark_gone(&mut self, event: u64)
        requires { IsSome (event_at self.old event) }
        ensures { self.new ≡ changed self.old event with_gone }
    {
        self.rows.mark_gone(event)
    }
}

/// What holds of every table of events: numbers and names ascend and stand once, a held name leads to the event that holds
/// it, each event is held by a listener or a notifier, and its ids are as they may be.
pub fn table_stands(events: &Events)
    ensures { IsEventTable events.now }
{
    events.rows.ascend();
}
