//! Values of a type of one's own, by the front alone.
mod motion;
mod position;
mod shapes;

use crate::port::reader::EntryHandle;
use crate::port::writer::EntryHandleMut;
use crate::prelude::{Domain, Node, NodeName, ServiceName, Single};
use motion::Motion;
use std::alloc::Global;
use std::sync::Wait;
use std::test::*;

type Ends = (
    EntryHandleMut<u64, Motion, Single>,
    EntryHandle<u64, Motion, Single>,
);

// The handles of a board of one car that stands still.
fn new_ends<R: Wait>(rt: &R, alloc: Global) -> Result<Ends, Fail> {
    let domain = Domain::new(alloc)?;
    let node = Node::new(rt, &domain, NodeName::new("car")?)?;
    let service = node.service_builder(&ServiceName::new("telemetry")?)?;
    let creator = service.blackboard_creator::<u64, Single>(alloc);
    let board = creator.add(1, Motion::STILL)?.create(rt)?;
    let writer = board.writer_builder()?.create(rt)?;
    let reader = board.reader_builder()?.create(rt)?;
    Ok((writer.entry(rt, &1)?, reader.entry(rt, &1)?))
}

fn shown<R: Wait>(rt: &R, display: &mut EntryHandle<u64, Motion, Single>) -> (u64, u64) {
    let value = display.get(rt);
    (value.get_ref().speed, value.get_ref().distance)
}

#[test]
fn a_value_of_two_fields_is_read_whole(rt: HostRuntime) -> Result<(), Fail> {
    let (mut car, mut display) = new_ends(&rt, rt.alloc())?;
    assert_eq!(rt; shown(&rt, &mut display), (0, 0));
    if car.generation() < u64::MAX {
        car.update_with_copy(Motion {
            speed: 50,
            distance: 120,
        });
    }
    assert_eq!(rt; shown(&rt, &mut display), (50, 120));
    Ok(())
}
