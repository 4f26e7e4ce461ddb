//! Maps under parties and names.
ghost use Rattle.std.specs.Prelude.{◌≡◌, None, OnOk, Some, if◌then◌else◌};
ghost use Rattle.std.specs.HashMap.{get};
ghost use Rattle.script_seats.specs.Seats.{SeatOf, same_seat};

use crate::seats::Seat;
use std::alloc::AllocError;
use std::collections::HashMap;

/// This is under the seat from now on.
///
/// # Errors
/// `AllocError` where memory is refused.
pub fn put<T: Drop>(seat: Seat, value: T, map: &mut HashMap<Seat, T>) -> Result<(), AllocError>
    ensures { OnOk result ((s : SeatOf) → get same_seat map.new s
        ≡ (if same_seat seat s then Some value else get same_seat map.old s)) }
{
    let _ = map.insert(seat, value)?;
    Ok(())
}

/// Nothing is under the seat from now on.
pub fn forget<T: Drop>(seat: &Seat, map: &mut HashMap<Seat, T>)
    ensures { (s : SeatOf) → get same_seat map.new s
        ≡ (if same_seat seat.now s then None else get same_seat map.old s) }
{
    let _ = map.remove(seat);
}
