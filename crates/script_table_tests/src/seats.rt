//! A thing that is found under another name.
use board_layout::Text;
use board_model::{Kind, Name, Thing};
use script_seats::{Seat, Seats, Sought};
use std::alloc::AllocError;
use std::test::Fail;

fn name(text: &[u8]) -> Name {
    if text.len() <= 16 {
        Text::of(text)
    } else {
        Text::of(b"long")
    }
}

fn add(seats: &mut Seats, party: &[u8], called: &[u8], number: u64) -> Result<(), AllocError> {
    seats.reserve()?;
    let thing = Thing {
        holder: name(party),
        name: name(called),
        board: 1,
        kind: Kind::Factory,
    };
    seats.push(&thing, number);
    Ok(())
}

// The number of the one thing; 0 where there is none, and 99 where it isn't known.
fn number(sought: Sought) -> u64 {
    match sought {
        Sought::Nothing => 0,
        Sought::Only(number) => number,
        Sought::Unknown => 99,
    }
}

#[test]
fn another_name(rt: HostRuntime) -> Result<(), Fail> {
    let mut seats = Seats::new(rt.alloc());
    add(&mut seats, b"a", b"m", 1)?;
    let party = name(b"a");
    let handle = Seat {
        party,
        name: name(b"m"),
    };
    let loan = Seat {
        party,
        name: name(b"l"),
    };
    assert!(rt; number(seats.rename(&party, &handle.name, &loan.name)) == 1);
    assert!(rt; number(seats.find(&handle)) == 0 && number(seats.find(&loan)) == 1);
    assert!(rt; number(seats.rename(&party, &handle.name, &loan.name)) == 0);
    Ok(())
}
