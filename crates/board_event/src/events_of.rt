//! A table of events, as events of one kind see it.
ghost use Rattle.std.specs.Prelude.{◌≡◌, ℕ, List, [], Ok, is_some};
ghost use Rattle.board_names.specs.Table.{IsFree, at};
ghost use Rattle.board_event_core.specs.EventTable.{empty_table, names_of, without_name};

use board_event_core::{EventKind, Events};
use board_names::{FilePath, NameTable, NamedConceptDoesExistError, Table};
use std::alloc::Global;
use std::marker::{Model, PhantomData};

/// A kind of events: sets or queues.
pub trait KindOfEvents {
    ghost use Rattle.board_event_model.specs.declared.kind.EventKind.{EventKind};

    ghost which: { EventKind };

    /// The kind, as a value.
    fn kind() -> EventKind
        ensures { result ≡ which };
}

/// The kind of `BitEvent`: ids wait as a set, up to a greatest one.
#[derive(Clone, Copy, Debug, PartialEq, Eq)]
pub struct SetOfIds;

impl KindOfEvents for SetOfIds {
    ghost use Rattle.board_event_model.specs.declared.kind.EventKind.TheVariants as kind;

    ghost which = { kind.Bits };

    fn kind() -> EventKind {
        EventKind::Bits
    }
}

/// The kind of `QueueEvent`: ids wait in a queue of 512.
#[derive(Clone, Copy, Debug, PartialEq, Eq)]
pub struct QueueOfIds;

impl KindOfEvents for QueueOfIds {
    ghost use Rattle.board_event_model.specs.declared.kind.EventKind.TheVariants as kind;

    ghost which = { kind.Queue };

    fn kind() -> EventKind {
        EventKind::Queue
    }
}

/// A table of events whose names are those of one kind. Clauses see the table.
#[derive(Drop)]
pub struct EventsOf<K> {
    pub(crate) events: Events,
    kind: PhantomData<K>,
}

impl<K> Model for EventsOf<K> {
    ghost use Rattle.board_event_core.specs.EventTable.{EventTable, table_code};

    ghost Value = { EventTable };

    ghost coded = { table_code };

    ghost view = { λ t. t.events };
}

impl<K> EventsOf<K> {
    /// A table as events of this kind see it.
    pub fn of(events: Events) -> EventsOf<K>
        ensures { result ≡ events }
    {
        EventsOf {
            events,
            kind: PhantomData,
        }
    }

    /// The table itself.
    pub fn events(&self) -> &Events
        ensures { result.now ≡ self.now }
    {
        &self.events
    }
}

impl<K: KindOfEvents> EventsOf<K> {
    /// Lets a name go, and tells whether it was held. Its event goes on without the name.
    pub(crate) fn remove_name(&mut self, name: &FilePath) -> bool
        ensures value { result ≡ is_some (at (names_of K.which self.old) name.now) }
        ensures after { self.new ≡ without_name K.which self.old name.now }
        ensures gone { IsFree (names_of K.which self.new) name.now }
    {
        self.events.remove(K::kind(), name)
    }
}

impl<K: KindOfEvents> NameTable for EventsOf<K> {
    type Value = u64;

    ghost entries = { λ t. names_of K.which t };

    ghost existence = { λ one. Ok (is_some one) };

    fn new(alloc: Global) -> EventsOf<K>
        ensures { result ≡ empty_table }
    {
        EventsOf::of(Events::new(alloc))
    }

    fn table(&self) -> &Table<u64> {
        self.events.names(K::kind())
    }

    fn does_exist(&self, name: &FilePath) -> Result<bool, NamedConceptDoesExistError> {
        Ok(self.events.holds(K::kind(), name))
    }

    fn remove(&mut self, name: &FilePath) -> bool
        ensures value { result ≡ is_some (at (names_of K.which self.old) name.now) }
        ensures after { self.new ≡ without_name K.which self.old name.now }
        ensures gone { IsFree (names_of K.which self.new) name.now }
    {
        self.remove_name(name)
    }
}
