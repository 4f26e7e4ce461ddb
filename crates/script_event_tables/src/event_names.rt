//! Which event holds a name of a kind.
ghost use Rattle.std.specs.Prelude.{◌≡◌, ◌<◌, if◌then◌else◌, List, None, OnOk, Some, ℕ};
ghost use Rattle.std.specs.HashMap.{get, spare};
ghost use Rattle.std.specs.Str.{bytes_eq};
ghost use Rattle.script_model.specs.ScriptEvents.{name_held};
ghost use Rattle.script_event_tables.specs.EventTables.{AreNames, HasRoom, NamesBecome, kept_at};

use board_event_model::EventKind;
use board_layout::Text;
use std::alloc::{AllocError, Global};
use std::collections::HashMap;

// The number goes under the name.
fn put(numbers: &mut HashMap<Text<255>, u64>, name: Text<255>, number: u64)
    requires { 0 < spare numbers.old }
    ensures { (text : List ℕ) → get bytes_eq numbers.new text
        ≡ (if bytes_eq name text then Some number else get bytes_eq numbers.old text) }
{
    let Ok(_) = numbers.insert(name, number) else {
        // There is room.
        unreachable!()
    };
}

// Nothing is under the name.
fn take(numbers: &mut HashMap<Text<255>, u64>, name: &Text<255>)
    ensures { (text : List ℕ) → get bytes_eq numbers.new text
        ≡ (if bytes_eq name.now text then None else get bytes_eq numbers.old text) }
{
    let _ = numbers.remove(name);
}

// The number under the name.
fn number_under(numbers: &HashMap<Text<255>, u64>, name: &Text<255>) -> Option<u64>
    ensures { result ≡ get bytes_eq numbers.now name.now }
{
    match numbers.get(name) {
        Some(number) => Some(*number),
        None => None,
    }
}

// The numbers of the events that hold a name, by the name, apart for each kind.
#[derive(Drop)]
pub(crate) struct EventNames {
    sets: HashMap<Text<255>, u64>,
    queues: HashMap<Text<255>, u64>,
}

impl EventNames {
    // No names.
    pub(crate) fn new(alloc: Global) -> EventNames
        ensures { AreNames result (λ k name. None) }
    {
        EventNames {
            sets: HashMap::new(alloc),
            queues: HashMap::new(alloc),
        }
    }

    // The number of the event that holds the name.
    pub(crate) fn get(&self, kind: EventKind, name: &Text<255>) -> Option<u64>
        ensures { result ≡ kept_at self.now kind name.now }
    {
        match kind {
            EventKind::Bits => number_under(&self.sets, name),
            EventKind::Queue => number_under(&self.queues, name),
        }
    }

    // Makes room for one name more of the kind.
    pub(crate) fn reserve(&mut self, kind: EventKind) -> Result<(), AllocError>
        ensures names { NamesBecome self.old self.new (λ names. names) }
        ensures room { OnOk result (HasRoom self.new kind) }
    {
        match kind {
            EventKind::Bits => self.sets.reserve(1),
            EventKind::Queue => self.queues.reserve(1),
        }
    }

    // The event with this number holds the name from now on.
    pub(crate) fn hold(&mut self, kind: EventKind, name: Text<255>, number: u64)
        requires { HasRoom self.old kind }
        ensures { NamesBecome self.old self.new
            (λ names. name_held names kind name (Some number)) }
    {
        match kind {
            EventKind::Bits => put(&mut self.sets, name, number),
            EventKind::Queue => put(&mut self.queues, name, number),
        }
    }

    // Nobody holds the name from now on.
    pub(crate) fn free(&mut self, kind: EventKind, name: &Text<255>)
        ensures { NamesBecome self.old self.new
            (λ names. name_held names kind name.now None) }
    {
        match kind {
            EventKind::Bits => take(&mut self.sets, name),
            EventKind::Queue => take(&mut self.queues, name),
        }
    }
}
