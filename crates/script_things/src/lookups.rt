//! Where things stand, by their names.
ghost use Rattle.std.specs.Prelude.{◌≡◌, ◌<◌, IfNone, IfSome, None, Some, length, map, option_map, slice_get, slice_set};
ghost use Rattle.board_model.specs.Things as held;
ghost use Rattle.script_seats.specs.Seats.{IsIndex, called, is_at};
ghost use Rattle.script_things.specs.Places.{IsFirstPlace, under};

use board_model::{Name, Thing};
use script_seats::{Seat, Seats, Sought};

/// A thing of a board, under its party and its name.
pub type Held = Thing<Name, Name>;

// Where the first thing stands that a party holds under a name.
pub(crate) fn first_place(seat: &Seat, places: &[Option<Held>]) -> Option<usize>
    ensures { IsFirstPlace (is_at seat.now) places.now result }
{
    for (i, place) in places.iter().enumerate() {
        if let Some(thing) = place {
            if thing.holder == seat.party && thing.name == seat.name {
                return Some(i);
            }
        }
    }
    None
}

// The same, where an index may tell it.
pub(crate) fn place_of(seats: &Seats, seat: &Seat, places: &[Option<Held>]) -> Option<usize>
    requires { IsIndex seats.now (under places.now) }
    ensures { IsFirstPlace (is_at seat.now) places.now result }
{
    match seats.find(seat) {
        Sought::Nothing => None,
        Sought::Only(place) => Some(place as usize),
        Sought::Unknown => first_place(seat, places),
    }
}

// The same, where that thing goes: it is in the index no more.
pub(crate) fn take_place(seats: &mut Seats, seat: &Seat, places: &[Option<Held>]) -> Option<usize>
    requires { IsIndex seats.old (under places.now) }
    ensures place { IsFirstPlace (is_at seat.now) places.now result }
    ensures some { IfSome result (λ k. IsIndex seats.new (under (slice_set places.now k None))) }
    ensures none { IfNone result (IsIndex seats.new (under places.now)) }
{
    match seats.take(seat) {
        Sought::Nothing => None,
        Sought::Only(place) => Some(place as usize),
        Sought::Unknown => first_place(seat, places),
    }
}

// Gives the thing at a place another name.
pub(crate) fn rename_at(place: usize, new: &Name, places: &mut Vec<Option<Held>>)
    requires { place < length places.old.items }
    ensures { (t : held.Held) → slice_get places.old.items place ≡ Some (Some t)
        → places.new.items ≡ slice_set places.old.items place (Some (called new.now t)) }
{
    if let Some(thing) = &mut places[place] {
        thing.name = *new;
    }
}

// Gives the things of the party that have the name another one.
pub(crate) fn rename_all(party: &Name, old: &Name, new: &Name, places: &mut Vec<Option<Held>>)
    ensures { places.new.items
        ≡ map (option_map (held.named_anew party.now old.now new.now)) places.old.items }
{
    for place in places.iter_mut() {
        if let Some(thing) = place {
            if thing.holder == *party && thing.name == *old {
                thing.name = *new;
            }
        }
    }
}
