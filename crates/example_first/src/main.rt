//! The program of the README, as a newcomer types it in: a writer publishes a value, and a reader sees whether the one that it has is still the last.
#![tactic(auto)]

use anyhow::Result;
use gullinsu::prelude::{Domain, Node, NodeName, ServiceName, Shared};
use gullinsu::service::port_factory::blackboard::PortFactory;
use std::alloc::Global;
use std::sync::Wait;

fn make_board(rt: &impl Wait, alloc: Global) -> Result<PortFactory<u64, Shared>> {
    let domain = Domain::new(alloc)?;
    let node = Node::new(rt, &domain, NodeName::new("car")?)?;
    let service = node.service_builder(&ServiceName::new("telemetry")?)?;
    let creator = service.blackboard_creator::<u64, Shared>(alloc);
    Ok(creator.add(1, 0u64)?.add(2, true)?.create(rt)?)
}

fn main(rt: HostRuntime) -> Result<()> {
    let board = make_board(&rt, rt.alloc())?;
    let writer = board.writer_builder()?.create(&rt)?;
    let reader = board.reader_builder()?.create(&rt)?;
    let mut speed = writer.entry::<u64, _>(&rt, &1)?;
    let mut shown = reader.entry::<u64, _>(&rt, &1)?;
    for kilometres in [7, 8] {
        let before = shown.get(&rt);
        // A publication asks for room for one more generation.
        if speed.generation() < u64::MAX {
            speed.update_with_copy(kilometres);
        }
        let value = shown.get(&rt);
        println!(rt; "{value} is value {}", value.generation())?;
        println!(rt; "{before} is up to date: {}", shown.is_up_to_date(&before))?;
    }
    Ok(())
}
