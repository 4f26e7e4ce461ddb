//! The numbers of the things of parties, by their names.
ghost use Rattle.std.specs.Prelude.{◌≡◌, ℕ, None, OnOk, Option, Some, true};
ghost use Rattle.board_model.specs.Things as held;
ghost use Rattle.script_seats.specs.Seats.{Finds, HasRoom, IsIndex, IsNowhere, Renames, Takes, is_at, is_kept, is_told, nothing, put, seat_of};

use board_model::{Name, Thing};
use std::alloc::{AllocError, Global};
use std::collections::HashMap;

/// What a party holds under a name is kept under both.
#[derive(Clone, Copy, Debug, PartialEq, Eq, Hash)]
pub struct Seat {
    /// The party.
    pub party: Name,
    /// The name.
    pub name: Name,
}

/// The numbers of things by party and name.
#[derive(Drop)]
pub enum Seats {
    /// One thing at most stands under a party's name, as in each lawful session.
    Single(HashMap<Seat, u64>),
    /// Two may, or a name was given that there was no memory for. No numbers are kept.
    Unknown,
}

/// What an index knows of a party's name.
#[derive(Clone, Copy, Debug)]
pub enum Sought {
    /// Nothing stands under it.
    Nothing,
    /// The thing with this number alone does.
    Only(u64),
    /// Whoever keeps the things has to look for it.
    Unknown,
}

impl Seats {
    /// No numbers. Takes no memory.
    pub fn new(alloc: Global) -> Seats
        ensures index { IsIndex result nothing }
        ensures kept { is_kept result ≡ true }
    {
        Seats::Single(HashMap::new(alloc))
    }

    /// What stands under a name of a party.
    #[inline(always)]
    pub fn find(&self, seat: &Seat) -> Sought
        ensures found { (things : ℕ → Option held.Held) → IsIndex self.now things
            → Finds (is_at seat.now) things result }
        ensures told { is_told result ≡ is_kept self.now }
    {
        let Seats::Single(seats) = self else {
            return Sought::Unknown;
        };
        match seats.get(seat).copied() {
            Some(number) => Sought::Only(number),
            None => Sought::Nothing,
        }
    }

    /// Makes room for one thing more.
    ///
    /// # Errors
    /// `AllocError` where memory is refused. What is kept stays.
    pub fn reserve(&mut self) -> Result<(), AllocError>
        ensures index { (things : ℕ → Option held.Held) → IsIndex self.old things
            → IsIndex self.new things }
        ensures room { OnOk result (HasRoom self.new) }
        ensures kept { is_kept self.new ≡ is_kept self.old }
    {
        match self {
            Seats::Single(seats) => seats.reserve(1),
            Seats::Unknown => Ok(()),
        }
    }

    /// One thing more stands, under a number that was free. Takes no memory: there is room. Numbers are given up only
    /// where another thing stands under its name.
    pub fn push(&mut self, thing: &Thing<Name, Name>, number: u64)
        requires { HasRoom self.old }
        ensures index { (things : ℕ → Option held.Held) → IsIndex self.old things
            → things number ≡ None → IsIndex self.new (put number (Some thing.now) things) }
        ensures kept { (things : ℕ → Option held.Held) → IsIndex self.old things
            → IsNowhere (is_at (seat_of thing.now)) things → is_kept self.new ≡ is_kept self.old }
    {
        let Seats::Single(seats) = self else {
            return;
        };
        let seat = Seat {
            party: thing.holder,
            name: thing.name,
        };
        if seats.contains_key(&seat) {
            *self = Seats::Unknown;
            return;
        }
        let Ok(_) = seats.insert(seat, number) else {
            // There is room.
            unreachable!()
        };
    }

    /// The one thing under a name goes. Takes no memory.
    pub fn take(&mut self, seat: &Seat) -> Sought
        ensures index { (things : ℕ → Option held.Held) → IsIndex self.old things
            → Takes (is_at seat.now) things self.new result }
        ensures told { is_told result ≡ is_kept self.old }
        ensures kept { is_kept self.new ≡ is_kept self.old }
    {
        let Seats::Single(seats) = self else {
            return Sought::Unknown;
        };
        match seats.remove(seat) {
            Some(number) => Sought::Only(number),
            None => Sought::Nothing,
        }
    }

    /// What a party has under the one name it has under the other from now on. Where there is no memory to keep the
    /// other name, no numbers are kept any more.
    pub fn rename(&mut self, party: &Name, old: &Name, new: &Name) -> Sought
        ensures index { (things : ℕ → Option held.Held) → IsIndex self.old things
            → Renames things (record { party = party.now; name = old.now })
            (record { party = party.now; name = new.now }) self.new result }
        ensures told { is_told result ≡ is_kept self.new }
    {
        let Seats::Single(seats) = self else {
            return Sought::Unknown;
        };
        let from = Seat {
            party: *party,
            name: *old,
        };
        let to = Seat {
            party: *party,
            name: *new,
        };
        let Some(number) = seats.remove(&from) else {
            return Sought::Nothing;
        };
        if seats.contains_key(&to) {
            *self = Seats::Unknown;
            return Sought::Unknown;
        }
        let Ok(_) = seats.insert(to, number) else {
            *self = Seats::Unknown;
            return Sought::Unknown;
        };
        Sought::Only(number)
    }
}
