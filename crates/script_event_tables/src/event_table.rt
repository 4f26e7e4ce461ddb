//! The events that were made, by number, and who holds their names.
ghost use Rattle.std.specs.Prelude.{◌≡◌, ◌<◌, ◌+◌, ◌-◌, ◌^◌, [], IfOk, OnErr, OnOk, length, slice_index_or};
ghost use Rattle.board_event_model.specs.EventMemory as event;
ghost use Rattle.board_event_model.specs.EventMemory.{CanPerform, IsRight, with_notifier, without_listener, without_notifier};
ghost use Rattle.script_event_rows.specs.EventRows.{StandsFor};
ghost use Rattle.script_event_tables.specs.EventTables.{AreEvents, EventsBecome, EventsThatStand, HasListened, HasNotified, IsMade, IsPartGone, IsSoundTable, OfEvent, OfSomeEvent, nothing_stands, with_abandoned, with_changed, with_released, with_settled};

use crate::event_names::EventNames;
use crate::listeners::Listeners;
use board_event_model::{EventAccess, EventAnswer, EventKind};
use board_layout::Text;
use board_model::Name;
use script_event_rows::EventRow;
use std::alloc::{AllocError, Global};

/// All events that were made. Contracts say for which events of the definitions they stand.
#[derive(Drop)]
pub struct EventTable {
    alloc: Global,
    // event n at place n - 1
    rows: Vec<EventRow>,
    // the parties of their listeners
    listeners: Listeners,
    names: EventNames,
}

impl EventTable {
    /// No events.
    pub fn new(alloc: Global) -> EventTable
        ensures { AreEvents result nothing_stands }
    {
        EventTable {
            alloc,
            rows: Vec::new(alloc),
            listeners: Listeners::new(alloc),
            names: EventNames::new(alloc),
        }
    }

    /// The event with this number.
    pub fn get(&self, number: u64) -> &EventRow
        requires { IsMade self.now number }
        ensures { OfEvent self.now number (StandsFor result.now) }
    {
        &self.rows[(number - 1) as usize]
    }

    /// Makes an access that the event with this number can take, and gives what it is answered.
    ///
    /// # Errors
    /// `AllocError` where memory is refused; then all events are as they were.
    pub fn perform(&mut self, number: u64, access: EventAccess) -> Result<EventAnswer, AllocError>
        requires made { IsMade self.old number }
        requires can { OfSomeEvent self.old number (λ e. CanPerform e access) }
        ensures right { IfOk result
            (λ answer. OfEvent self.old number (λ e. IsRight e access answer)) }
        ensures after { OnOk result (EventsBecome self.old self.new
            (with_changed number (λ e. event.after e access))) }
        ensures err { OnErr result (EventsBecome self.old self.new (λ s. s)) }
    {
        let row = &mut self.rows[(number - 1) as usize];
        let answer = row.perform(access)?;
        Ok(answer)
    }

    /// The party's listener of a new event, whose number is the next, unless its name is held.
    ///
    /// # Errors
    /// `AllocError` where memory is refused; then all events are as they were.
    pub fn listen(
        &mut self,
        party: &Name,
        kind: EventKind,
        name: &Text<255>,
        max: u64,
    ) -> Result<Option<u64>, AllocError>
        ensures told { IfOk result (HasListened self.old self.new party.now kind name.now max) }
        ensures err { OnErr result (EventsBecome self.old self.new (λ s. s)) }
    {
        if self.names.get(kind, name).is_some() {
            return Ok(None);
        }
        let row = EventRow::new(self.alloc, kind, *name, max)?;
        self.rows.reserve(1)?;
        self.names.reserve(kind)?;
        self.listeners.push(*party)?;
        let number = self.rows.len() as u64 + 1;
        self.names.hold(kind, *name, number);
        self.rows.push_reserved(row);
        Ok(Some(number))
    }

    // The event has a notifier more.
    fn count_notifier(&mut self, number: u64)
        requires made { IsMade self.old number }
        requires few { OfSomeEvent self.old number (λ e. e.notifiers < 2 ^ 64 - 1) }
        ensures { EventsBecome self.old self.new (with_changed number with_notifier) }
    {
        let row = &mut self.rows[(number - 1) as usize];
        row.add_notifier();
    }

    /// A notifier more of the event that holds the name, where it has its listener.
    pub fn notifier(&mut self, kind: EventKind, name: &Text<255>) -> Option<u64>
        requires { IsSoundTable self.old }
        ensures { HasNotified self.old self.new kind name.now result }
    {
        let number = self.names.get(kind, name)?;
        if !self.get(number).is_held() {
            return None;
        }
        self.count_notifier(number);
        Some(number)
    }

    // The event's name goes where nobody holds the event by it.
    fn settle(&mut self, number: u64)
        requires { IsMade self.old number }
        ensures { EventsBecome self.old self.new (with_settled number) }
    {
        let row = self.get(number);
        if row.holds_name() {
            return;
        }
        let kind = row.kind();
        let name = *row.name();
        let Some(found) = self.names.get(kind, &name) else {
            return;
        };
        if found != number {
            return;
        }
        self.names.free(kind, &name);
    }

    // The event's listener isn't held from now on.
    fn let_listener_go(&mut self, number: u64)
        requires { IsMade self.old number }
        ensures events { EventsBecome self.old self.new (with_changed number without_listener) }
        ensures count { length self.new.rows.items ≡ length self.old.rows.items }
    {
        let row = &mut self.rows[(number - 1) as usize];
        row.release_listener();
    }

    // The event has a notifier less.
    fn let_notifier_go(&mut self, number: u64)
        requires { IsMade self.old number }
        ensures events { EventsBecome self.old self.new
            (with_changed number without_notifier) }
        ensures count { length self.new.rows.items ≡ length self.old.rows.items }
    {
        let row = &mut self.rows[(number - 1) as usize];
        row.release_notifier();
    }

    /// The listener of an event goes.
    pub fn release_listener(&mut self, number: u64)
        requires { IsMade self.old number }
        ensures { EventsBecome self.old self.new (with_released number without_listener) }
    {
        self.let_listener_go(number);
        self.settle(number);
    }

    /// A notifier of an event goes.
    pub fn release_notifier(&mut self, number: u64)
        requires { IsMade self.old number }
        ensures { EventsBecome self.old self.new (with_released number without_notifier) }
    {
        self.let_notifier_go(number);
        self.settle(number);
    }

    // The event at a place has its listener gone, if that is held.
    fn pass(&mut self, place: usize)
        requires { place < length self.old.listeners }
        ensures passed { let party = slice_index_or self.old.listeners place [] in
            (s : EventsThatStand) → IsPartGone (place + 1) party self.old s
            → IsPartGone place party self.new s }
        ensures listeners { self.new.listeners ≡ self.old.listeners }
    {
        // A table that stands for events has a row for each listener.
        if place < self.rows.len() {
            let row = &mut self.rows[place];
            row.abandon_listener();
        }
    }

    /// The party was abandoned, with the listeners that it holds.
    pub fn abandon(&mut self, party: &Name)
        ensures { EventsBecome self.old self.new (with_abandoned party.now) }
    {
        let mut next = self.listeners.last(party);
        while let Some(place) = next {
            self.pass(place);
            next = self.listeners.before(place);
        }
    }
}
