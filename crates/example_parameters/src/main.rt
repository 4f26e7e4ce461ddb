//! A parameter server: a board of three parameters of three types, which a server sets and a client reads. The board has
//! the attribute `unit`: a client that needs another is refused, as is one that asks for a parameter as another type. In
//! iceoryx2 server and client would be processes, with the same answers and keys.
#![tactic(auto)]

use anyhow::Result;
use gullinsu::layout::F8;
use gullinsu::port::reader::Reader;
use gullinsu::port::writer::Writer;
use gullinsu::prelude::{
    AttributeSpecifier, AttributeVerifier, CallbackProgression, Domain, Node, NodeName,
    ServiceName, Shared, ZeroCopySend,
};
use gullinsu::service::builder::ServiceBuilder;
use gullinsu::service::port_factory::blackboard::PortFactory;
use std::alloc::Global;
use std::sync::Wait;

// The keys: a rate in hertz, whether a filter is on, and the limits of its four channels.
const RATE: [u8; 8] = *b"rate    ";

const FILTER: [u8; 8] = *b"filter  ";

const LIMITS: [u8; 8] = *b"limits  ";

type Board = PortFactory<F8, Shared>;

fn builder<R: Wait>(rt: &R, domain: &Domain, name: &str) -> Result<ServiceBuilder> {
    let node = Node::new(rt, domain, NodeName::new(name)?)?;
    Ok(node.service_builder(&ServiceName::new("parameters")?)?)
}

fn serve<R: Wait>(rt: &R, alloc: Global, domain: &Domain) -> Result<Board> {
    let unit = AttributeSpecifier::new(alloc).define("unit", "si")?;
    let creator = builder(rt, domain, "server")?.blackboard_creator::<F8, Shared>(alloc);
    let creator = creator.add(F8 { bytes: RATE }, 50u64)?;
    let creator = creator.add(F8 { bytes: LIMITS }, [1u64, 2, 3, 4])?;
    let creator = creator.add_with_default::<bool>(F8 { bytes: FILTER })?;
    Ok(creator.create_with_attributes(rt, unit)?)
}

// Opens the board as a client that needs this unit.
fn connect<R: Wait>(rt: &R, alloc: Global, domain: &Domain, unit: &str) -> Result<Board> {
    let needs = AttributeVerifier::new(alloc).require("unit", unit)?;
    let opener = builder(rt, domain, "client")?.blackboard_opener::<F8, Shared>(alloc);
    Ok(opener.open_with_attributes(rt, &needs)?)
}

// Tells the keys in the order of adding. Where memory ends, those that there was room for.
fn tell_keys<R: Wait + Print>(rt: &R, alloc: Global, board: &Board) -> Result<()> {
    let mut keys = Vec::new(alloc);
    board.list_keys(rt, |key| match keys.push(*key) {
        Ok(()) => CallbackProgression::Continue,
        Err(_) => CallbackProgression::Stop,
    });
    for key in &keys {
        println!(rt; "parameter {}", str::from_utf8(&key.bytes)?.trim_end())?;
    }
    Ok(())
}

fn set<V: ZeroCopySend, R: Wait>(
    rt: &R,
    writer: &Writer<F8, Shared>,
    key: [u8; 8],
    value: V,
) -> Result<()> {
    let mut parameter = writer.entry::<V, R>(rt, &F8 { bytes: key })?;
    // A publication asks for room for one more generation.
    if parameter.generation() < u64::MAX {
        parameter.update_with_copy(value);
    }
    parameter.release(rt);
    Ok(())
}

fn get<V: ZeroCopySend, R: Wait>(rt: &R, reader: &Reader<F8, Shared>, key: [u8; 8]) -> Result<V> {
    let mut parameter = reader.entry::<V, R>(rt, &F8 { bytes: key })?;
    let value = *parameter.get(rt).get_ref();
    parameter.release(rt);
    Ok(value)
}

fn show<R: Wait + Print>(rt: &R, reader: &Reader<F8, Shared>) -> Result<()> {
    let rate = get::<u64, R>(rt, reader, RATE)?;
    let filter = get::<bool, R>(rt, reader, FILTER)?;
    let limits = get::<[u64; 4], R>(rt, reader, LIMITS)?;
    println!(rt; "rate {rate}, filter {filter}, limits {limits:?}")?;
    Ok(())
}

fn exchange<R: Wait + Print>(rt: &R, served: &Board, opened: &Board) -> Result<()> {
    let reader = opened.reader_builder()?.create(rt)?;
    let writer = served.writer_builder()?.create(rt)?;
    show(rt, &reader)?;
    set(rt, &writer, RATE, 100u64)?;
    set(rt, &writer, FILTER, true)?;
    show(rt, &reader)?;
    if let Err(why) = get::<u32, R>(rt, &reader, RATE) {
        println!(rt; "rate as u32: {why}")?;
    }
    writer.release(rt);
    reader.release(rt);
    Ok(())
}

fn main(rt: HostRuntime) -> Result<()> {
    let domain = Domain::new(rt.alloc())?;
    let served = serve(&rt, rt.alloc(), &domain)?;
    if let Err(why) = connect(&rt, rt.alloc(), &domain, "miles") {
        println!(rt; "with miles: {why}")?;
    }
    let opened = connect(&rt, rt.alloc(), &domain, "si")?;
    tell_keys(&rt, rt.alloc(), &opened)?;
    exchange(&rt, &served, &opened)?;
    opened.release(&rt);
    served.release(&rt);
    Ok(())
}
