//! A scheduler's state table: two workers write how much of their tasks is left, and a scheduler reads what changed.
//!
//! Each worker has a writer of its own, and notifies of the entry that changed by its id; the scheduler waits for an id
//! and gets the value behind it. In iceoryx2 one writer would write for all, and `entry_id` would tie two services; the
//! scheduler would see the same ids and values.
#![tactic(auto)]

use anyhow::Result;
use gullinsu::event::{
    EventListener, EventListenerBuilder, EventNotifier, EventNotifierBuilder, FileName, Listener,
    ListenerBuilder, NamedConcept, NamedConceptBuilder, Notifier, NotifierBuilder, QueueOfIds,
    QueueRegistry, TriggerId,
};
use gullinsu::port::reader::EntryHandle;
use gullinsu::port::writer::EntryHandleMut;
use gullinsu::prelude::{Domain, Node, NodeName, ServiceName, Shared};
use gullinsu::service::port_factory::blackboard::PortFactory;
use std::alloc::Global;
use std::sync::Wait;
use std::thread;

// How many steps each of the two tasks takes. Their keys are 1 and 2.
const STEPS: u64 = 5;

type Table = PortFactory<u64, Shared>;

fn make_table<R: Wait>(rt: &R, alloc: Global) -> Result<Table> {
    let domain = Domain::new(alloc)?;
    let node = Node::new(rt, &domain, NodeName::new("scheduler")?)?;
    let service = node.service_builder(&ServiceName::new("tasks")?)?;
    let creator = service.blackboard_creator::<u64, Shared>(alloc);
    let creator = creator.max_writers(2).add(1, STEPS)?.add(2, STEPS)?;
    Ok(creator.create(rt)?)
}

// Whoever works on a task has its entry, and the event that tells of a change.
#[derive(Drop)]
struct Worker {
    left: EntryHandleMut<u64, u64, Shared>,
    changed: EventNotifier<QueueOfIds>,
}

fn hire<R: Wait>(rt: &R, table: &Table, events: &QueueRegistry, task: u64) -> Result<Worker> {
    let writer = table.writer_builder()?.create(rt)?;
    let left = writer.entry::<u64, R>(rt, &task)?;
    writer.release(rt);
    let changed = EventNotifierBuilder::new(&FileName::new(b"changed")?, events)?.open(rt)?;
    Ok(Worker { left, changed })
}

// Does a task step by step. It tells whether the scheduler was notified of each.
fn work<R: Wait>(rt: &R, worker: Worker) -> bool {
    let Worker { mut left, changed } = worker;
    let id = TriggerId::new(left.entry_id().as_value());
    let mut told = true;
    for done in 1..=STEPS {
        // A publication asks for room for one more generation.
        if left.generation() < u64::MAX {
            left.update_with_copy(STEPS - done);
        }
        told = told && changed.notify(rt, id).is_ok();
    }
    left.release(rt);
    changed.release(rt);
    told
}

// A task as the scheduler knows it: how much is left by its entry, and by the last get.
#[derive(Drop)]
struct Row {
    entry: EntryHandle<u64, u64, Shared>,
    left: u64,
}

fn row_of<R: Wait>(rt: &R, table: &Table, task: u64) -> Result<Row> {
    let reader = table.reader_builder()?.create(rt)?;
    let entry = reader.entry::<u64, R>(rt, &task)?;
    reader.release(rt);
    Ok(Row { entry, left: STEPS })
}

// Takes an id for each step of each task, and gets the value behind the entry that changed.
fn schedule<R: Wait>(rt: &R, changes: EventListener<QueueOfIds>, rows: &mut [Row]) {
    for _ in 0..2 * STEPS {
        if let Ok(Some(changed)) = changes.blocking_wait_one(rt) {
            for row in rows.iter_mut() {
                if row.entry.entry_id().as_value() == changed.as_value() {
                    row.left = *row.entry.get(rt).get_ref();
                }
            }
        }
    }
    changes.release(rt);
}

fn main(rt: HostRuntime) -> Result<()> {
    let table = make_table(&rt, rt.alloc())?;
    let events = QueueRegistry::new(rt.alloc())?;
    let builder = EventListenerBuilder::new(&FileName::new(b"changed")?, &events)?;
    let changes = builder.create(&rt, rt.alloc())?;
    let mut rows = [row_of(&rt, &table, 1)?, row_of(&rt, &table, 2)?];
    let first = hire(&rt, &table, &events, 1)?;
    let second = hire(&rt, &table, &events, 2)?;
    let ((), (first, second)) = thread::join(
        &rt,
        || schedule(&rt, changes, &mut rows),
        || thread::join(&rt, || work(&rt, first), || work(&rt, second)),
    );
    for row in rows {
        println!(rt; "{} steps left", row.left)?;
        row.entry.release(&rt);
    }
    println!(rt; "each change was told: {}", first && second)?;
    table.release(&rt);
    Ok(())
}
