//! A telemetry board: a car publishes how fast each of its wheels turns, and two displays read it, each in a thread of
//! its own.
//!
//! The run shows that neither display sees a wheel of one value beside a wheel of another, that the generations rise, and
//! that each shows the last value in the end. `is_up_to_date` tells whether a value that was read is still the newest. In
//! iceoryx2 the car and the displays would be processes that open one service by its name, and a display would see the
//! same, but for the generations, which iceoryx2 keeps to itself.
#![tactic(auto)]

use gullinsu::port::reader::EntryHandle;
use gullinsu::port::writer::EntryHandleMut;
use gullinsu::prelude::{Domain, Node, NodeName, ServiceName, Shared};
use gullinsu::service::port_factory::blackboard::PortFactory;
use std::alloc::Global;
use std::sync::Wait;
use std::thread;

// How fast each of the four wheels turns, in kilometres an hour. They all turn alike.
type Wheels = [u64; 4];

type Board = PortFactory<u64, Shared>;

type Car = EntryHandleMut<u64, Wheels, Shared>;

type Display = EntryHandle<u64, Wheels, Shared>;

// The key of the car.
const CAR: u64 = 1;

// The last speed that the car publishes.
const LAST: u64 = 200;

fn make_board<R: Wait>(rt: &R, alloc: Global) -> anyhow::Result<Board> {
    let domain = Domain::new(alloc)?;
    let node = Node::new(rt, &domain, NodeName::new("car")?)?;
    let service = node.service_builder(&ServiceName::new("telemetry")?)?;
    let creator = service.blackboard_creator::<u64, Shared>(alloc);
    Ok(creator.add(CAR, [0u64; 4])?.create(rt)?)
}

// What a display reads by, of a reader of its own. The port isn't wanted any more.
fn take_display<R: Wait>(rt: &R, board: &Board) -> anyhow::Result<Display> {
    let reader = board.reader_builder()?.create(rt)?;
    let display = reader.entry::<Wheels, R>(rt, &CAR)?;
    reader.release(rt);
    Ok(display)
}

// What the car writes by, and what each display reads by.
fn take_handles<R: Wait>(rt: &R, board: &Board) -> anyhow::Result<(Car, Display, Display)> {
    let writer = board.writer_builder()?.create(rt)?;
    let car = writer.entry::<Wheels, R>(rt, &CAR)?;
    writer.release(rt);
    Ok((car, take_display(rt, board)?, take_display(rt, board)?))
}

// The car goes faster and faster. It tells how many values were published in all.
fn drive<R: Wait>(rt: &R, mut car: Car) -> u64 {
    for speed in 1..=LAST {
        // A publication asks for room for one more generation.
        if car.generation() < u64::MAX {
            car.update_with_copy([speed; 4]);
        }
    }
    let published = car.generation();
    car.release(rt);
    published
}

// What a display tells in the end.
#[derive(Clone, Copy, Drop)]
struct Seen {
    whole: bool,
    rises: bool,
    last: u64,
    is_up_to_date: bool,
}

// A display reads until it shows the last speed.
fn watch<R: Wait>(rt: &R, mut display: Display) -> Seen {
    let (mut whole, mut rises) = (true, true);
    let mut shown = display.get(rt);
    for _ in rt.forever() {
        if shown.get_ref()[0] >= LAST {
            break;
        }
        let next = display.get(rt);
        let [a, b, c, d] = *next.get_ref();
        whole = whole && a == b && b == c && c == d;
        rises = rises && shown.generation() <= next.generation();
        shown = next;
    }
    let last = shown.get_ref()[0];
    let is_up_to_date = display.is_up_to_date(&shown);
    display.release(rt);
    Seen {
        whole,
        rises,
        last,
        is_up_to_date,
    }
}

fn main(rt: HostRuntime) -> anyhow::Result<()> {
    let board = make_board(&rt, rt.alloc())?;
    let (car, first, second) = take_handles(&rt, &board)?;
    let (published, (first, second)) = thread::join(
        &rt,
        || drive(&rt, car),
        || thread::join(&rt, || watch(&rt, first), || watch(&rt, second)),
    );
    board.release(&rt);
    println!(rt; "{published} values were published")?;
    for s in [first, second] {
        println!(rt; "a display: whole {}, rising {}", s.whole, s.rises)?;
        println!(rt; "the last is {}, up to date {}", s.last, s.is_up_to_date)?;
    }
    Ok(())
}
