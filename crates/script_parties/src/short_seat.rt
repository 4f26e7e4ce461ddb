//! A party and its name for a thing, in 34 bytes, as the table of all names keeps them.
ghost use Rattle.std.specs.Prelude.{◌≡◌};
ghost use Rattle.script_parties.specs.Numbered.{is_seat, renamed_seat};

use crate::short_name::ShortName;
use board_model::Name;
use script_seats::Seat;
use std::marker::Model;

/// A `Seat` with short names. Contracts see it as the `Seat`.
#[derive(Drop)]
pub(crate) struct ShortSeat {
    party: ShortName,
    name: ShortName,
}

impl Model for ShortSeat {
    ghost use Rattle.script_seats.specs.Seats.{SeatOf};

    ghost Value = { SeatOf };

    ghost view = { λ s. record { party = s.party; name = s.name } };
}

impl ShortSeat {
    /// This one.
    pub(crate) fn of(seat: &Seat) -> ShortSeat
        ensures { result ≡ seat.now }
    {
        ShortSeat {
            party: ShortName::of(&seat.party),
            name: ShortName::of(&seat.name),
        }
    }

    /// Whether it is this one.
    pub(crate) fn is(&self, seat: &Seat) -> bool
        ensures { result ≡ is_seat seat.now self.now }
    {
        self.party.is(&seat.party) && self.name.is(&seat.name)
    }

    /// The party has another name there.
    pub(crate) fn rename(&mut self, new: &Name)
        ensures { self.new ≡ renamed_seat new.now self.old }
    {
        self.name = ShortName::of(new);
    }
}
