//! The names of a domain's things, under the numbers that its core has for them, and the numbers by parties and names.
ghost use Rattle.std.specs.Prelude.{◌≡◌, ◌<◌, ℕ, IfNone, IfSome, None, OnOk, Option, Some, true, nat_eq, option_map};
ghost use Rattle.std.specs.HashMap.{get, keys, spare};
ghost use Rattle.board_model.specs.Tables.{holds_at};
ghost use Rattle.board_model.specs.Things as held;
ghost use Rattle.script_parties.specs.Numbered as numbered;
ghost use Rattle.script_parties.specs.Numbered.{AreNames, IsFirst, IsLeast, IsNames, IsNamesOf, is_seat, renamed_seat, seat_anew, seat_at};
ghost use Rattle.script_seats.specs.Seats as seats;
ghost use Rattle.script_seats.specs.Seats.{is_at, nothing, put, seat_of};

use crate::lookups::Held;
use crate::short_seat::ShortSeat;
use board_model::{Kind, Name, Thing};
use board_service::ThingId;
use script_seats::{Seat, Seats, Sought};
use std::alloc::{AllocError, Global};
use std::collections::HashMap;

/// The names that parties gave things, each under the core's number for the thing, with an index by party and name.
#[derive(Drop)]
pub(crate) struct NamedThings {
    pub(crate) names: HashMap<u64, ShortSeat>,
    pub(crate) seats: Seats,
}

// The number of the first thing so far that the party holds under the name, after one number more.
fn earlier(
    first: Option<u64>,
    number: u64,
    seat: &Seat,
    names: &HashMap<u64, ShortSeat>,
) -> Option<u64>
    ensures { result
        ≡ numbered.earlier (is_seat seat.now) (λ n. get nat_eq names.now n) first number }
{
    let Some(name) = names.get(&number) else {
        return first;
    };
    let is_before = match first {
        Some(other) => number < other,
        None => true,
    };
    if name.is(seat) && is_before {
        return Some(number);
    }
    first
}

// The number of the first thing that the party holds under the name, looked for among all names: no index tells it.
#[inline(never)]
fn first_number(seat: &Seat, names: &HashMap<u64, ShortSeat>) -> Option<u64>
    ensures { result ≡ numbered.earliest (is_seat seat.now) (λ n. get nat_eq names.now n) None
        (keys names.now) }
{
    let mut first = None;
    for number in names.keys() {
        first = earlier(first, *number, seat, names);
    }
    first
}

// The number of the first thing that the party holds under the name, by what an index knows of it.
#[inline(always)]
fn number_in(sought: Sought, seat: &Seat, names: &HashMap<u64, ShortSeat>) -> Option<u64>
    ensures { (things : ℕ → Option held.Held) → AreNames (λ n. get nat_eq names.now n) things
        → seats.Finds (is_at seat.now) things sought → IsFirst (is_at seat.now) things result }
{
    match sought {
        Sought::Nothing => None,
        Sought::Only(number) => Some(number),
        Sought::Unknown => first_number(seat, names),
    }
}

// Gives a thing another name, if it is this party's under this one.
fn name_anew(from: &Seat, new: &Name, name: &mut ShortSeat)
    ensures { name.new ≡ seat_anew from.now new.now name.old }
{
    if name.is(from) {
        name.rename(new);
    }
}

// Gives all that the party holds under a name another one, where no index tells the number.
fn rename_all(from: &Seat, new: &Name, names: &mut HashMap<u64, ShortSeat>)
    ensures { (n : ℕ) → get nat_eq names.new n
        ≡ option_map (seat_anew from.now new.now) (get nat_eq names.old n) }
{
    names.retain(|_, name| {
        name_anew(from, new, name);
        true
    });
}

// Gives the thing with the number another name.
fn rename_at(number: u64, new: &Name, names: &mut HashMap<u64, ShortSeat>)
    ensures { (s : seats.SeatOf) → get nat_eq names.old number ≡ Some s → (n : ℕ)
        → get nat_eq names.new n
        ≡ put number (Some (renamed_seat new.now s)) (λ k. get nat_eq names.old k) n }
{
    if let Some(name) = names.get_mut(&number) {
        name.rename(new);
    }
}

impl NamedThings {
    /// No names. Takes no memory.
    pub(crate) fn new(alloc: Global) -> NamedThings
        ensures { IsNames result nothing }
    {
        NamedThings {
            names: HashMap::new(alloc),
            seats: Seats::new(alloc),
        }
    }

    /// The number of the first thing that a party holds under a name.
    #[inline(always)]
    pub(crate) fn number_of(&self, seat: &Seat) -> Option<u64>
        ensures { (things : ℕ → Option held.Held) → IsNames self.now things
            → IsFirst (is_at seat.now) things result }
    {
        number_in(self.seats.find(seat), seat, &self.names)
    }

    /// Makes room for one thing more.
    ///
    /// # Errors
    /// `AllocError` where memory is refused. The names stay.
    pub(crate) fn reserve(&mut self) -> Result<(), AllocError>
        ensures names { seat_at self.new ≡ seat_at self.old }
        ensures index { (things : ℕ → Option held.Held) → seats.IsIndex self.old.seats things
            → seats.IsIndex self.new.seats things }
        ensures room { OnOk result (0 < spare self.new.names) }
        ensures seat { OnOk result (seats.HasRoom self.new.seats) }
    {
        self.names.reserve(1)?;
        self.seats.reserve()
    }

    /// One thing more, under a number that is free. Takes no memory: there is room.
    pub(crate) fn push(&mut self, number: ThingId, thing: &Held)
        requires room { 0 < spare self.old.names }
        requires seat { seats.HasRoom self.old.seats }
        ensures { (things : ℕ → Option held.Held) → IsNames self.old things → things number ≡ None
            → IsNames self.new (put number (Some thing.now) things) }
    {
        self.seats.push(thing, number.0);
        let seat = Seat {
            party: thing.holder,
            name: thing.name,
        };
        let Ok(_) = self.names.insert(number.0, ShortSeat::of(&seat)) else {
            // There is room.
            unreachable!()
        };
    }

    /// One thing more, of this thing's party and board, under a number that is free. Takes no memory: there is room.
    pub(crate) fn push_beside(&mut self, number: ThingId, name: Name, of: &Held, kind: Kind)
        requires room { 0 < spare self.old.names }
        requires seat { seats.HasRoom self.old.seats }
        ensures { (things : ℕ → Option held.Held) → IsNames self.old things → things number ≡ None
            → IsNames self.new (put number (Some (record of.now { name = name; kind = kind })) things) }
    {
        let thing = Thing {
            holder: of.holder,
            name,
            board: of.board,
            kind,
        };
        self.push(number, &thing);
    }

    /// Takes away the first thing that a party holds under a name; tells its number. Takes no memory.
    pub(crate) fn take(&mut self, seat: &Seat) -> Option<ThingId>
        ensures number { (things : ℕ → Option held.Held) → IsNames self.old things
            → IsFirst (is_at seat.now) things result }
        ensures names { (things : ℕ → Option held.Held) → IsNames self.old things
            → IsNamesOf self.new things result }
    {
        let sought = self.seats.take(seat);
        let Some(number) = number_in(sought, seat, &self.names) else {
            return None;
        };
        let _ = self.names.remove(&number);
        Some(ThingId(number))
    }

    /// Gives the party's things of one name another one.
    pub(crate) fn rename(&mut self, party: &Name, old: &Name, new: &Name)
        ensures { (things : ℕ → Option held.Held) → IsNames self.old things → IsNames self.new
            (λ n. option_map (held.named_anew party.now old.now new.now) (things n)) }
    {
        match self.seats.rename(party, old, new) {
            Sought::Nothing => {}
            Sought::Only(number) => rename_at(number, new, &mut self.names),
            Sought::Unknown => {
                let from = Seat {
                    party: *party,
                    name: *old,
                };
                rename_all(&from, new, &mut self.names);
            }
        }
    }
}

/// The core's number of a thing that stands.
pub(crate) fn number_of(thing: &Held, names: &NamedThings) -> ThingId
    requires { (things : ℕ → Option held.Held) × (number : ℕ) × IsNames names.now things
        × (holds_at (things number) (is_at (seat_of thing.now)) ≡ true) }
    ensures { (things : ℕ → Option held.Held) → IsNames names.now things
        → IsLeast (is_at (seat_of thing.now)) things result }
{
    let seat = Seat {
        party: thing.holder,
        name: thing.name,
    };
    match names.number_of(&seat) {
        Some(number) => ThingId(number),
        // The thing stands.
        None => unreachable!(),
    }
}
