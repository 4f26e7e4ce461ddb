//! What stands in the machine's maps of values and loans.
ghost use Rattle.std.specs.Prelude.{◌≡◌, ◌<◌, IsSomeAnd, Some, length, option_map, slice_set, false};
ghost use Rattle.std.specs.HashMap.{get};
ghost use Rattle.script_seats.specs.Seats.{SeatOf, same_seat};
ghost use Rattle.script_boards.specs.Loans.{lent_words};
ghost use Rattle.script_boards.specs.Machine.{kept, kept_of};

use crate::machine::{BoardMachine, KeptValue};
use board_model::Name;
use board_service::BoardWords;
use script_seats::Seat;
use std::collections::HashMap;

/// Sets a word of what is under the seat.
pub(crate) fn set_word(
    seat: &Seat,
    index: u64,
    word: u64,
    loans: &mut HashMap<Seat, Vec<Option<u64>>>,
)
    requires { IsSomeAnd (get same_seat loans.old seat.now) (λ ws. index < length ws.items) }
    ensures here { option_map (λ ws. ws.items) (get same_seat loans.new seat.now)
        ≡ option_map (λ ws. slice_set ws index (Some word))
        (option_map (λ ws. ws.items) (get same_seat loans.old seat.now)) }
    ensures others { (s : SeatOf) → same_seat seat.now s ≡ false
        → get same_seat loans.new s ≡ get same_seat loans.old s }
{
    let Some(words) = loans.get_mut(seat) else {
        // It has the word.
        unreachable!()
    };
    words[index as usize] = Some(word);
}

impl<C: BoardWords + Drop> BoardMachine<C> {
    /// The value that a party keeps under a name.
    pub(crate) fn value_of(&self, party: &Name, name: &Name) -> Option<&KeptValue>
        ensures { option_map (λ v. kept_of v.now) result ≡ kept self.now party.now name.now }
    {
        let seat = Seat {
            party: *party,
            name: *name,
        };
        self.values.get(&seat)
    }

    // The words of the loan that a party holds under a name.
    fn words_found(&self, party: &Name, name: &Name) -> Option<&Vec<Option<u64>>>
        ensures { option_map (λ ws. ws.now.items) result ≡ lent_words self.now party.now name.now }
    {
        let seat = Seat {
            party: *party,
            name: *name,
        };
        self.loans.get(&seat)
    }

    /// The same. Where nothing is lent at all, they aren't looked up.
    #[inline(always)]
    pub(crate) fn words_lent(&self, party: &Name, name: &Name) -> Option<&Vec<Option<u64>>>
        ensures { option_map (λ ws. ws.now.items) result ≡ lent_words self.now party.now name.now }
    {
        if self.loans.is_empty() {
            return None;
        }
        self.words_found(party, name)
    }
}
