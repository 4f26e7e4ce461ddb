//! Round trips of an id between two threads, over two typed events.
ghost use Rattle.std.specs.Prelude.{◌≡◌, IfOk};
ghost use denote.Param.Send.{IsSync};

use crate::counts::{Echoes, Rounds};
use anyhow::Result;
use board_event::{
    EventListener, EventListenerBuilder, EventNotifier, EventNotifierBuilder, EventRegistry,
    KindOfEvents, ListenerBuilder, NotifierBuilder, TriggerId,
};
use board_names::{FileName, NamedConceptBuilder};
use std::alloc::Global;
use std::sync::Wait;
use std::thread;
use std::thread::Threads;

// So many ids are sent in turn.
const IDS: u64 = 64;

/// What two threads did: how many round trips the one made, and how many ids the other sent back.
#[derive(Drop)]
pub struct Trips<K> {
    /// How many round trips were made.
    pub made: Rounds<K>,
    /// How many ids were sent back.
    pub echoed: Echoes<K>,
}

/// A new event of its own registry: its listener, and a notifier.
///
/// # Errors
/// Where a call that makes the event or opens it is refused.
pub(crate) fn ends_of<K: KindOfEvents + Drop, R: Wait>(
    rt: &R,
    alloc: Global,
) -> Result<(EventListener<K>, EventNotifier<K>)>
    ensures name { IfOk result (λ ends. ends.0.place ≡ ends.1.place) }
{
    let name = FileName::new(b"bench")?;
    let registry = EventRegistry::<K>::new(alloc)?;
    let listener = EventListenerBuilder::<K>::new(&name, &registry)?.create(rt, alloc)?;
    let notifier = EventNotifierBuilder::<K>::new(&name, &registry)?.open(rt)?;
    Ok((listener, notifier))
}

/// Sends so many ids there, each once the one before came back, and tells how many came back as they were sent.
///
/// # Errors
/// Where a notify is refused, or what comes back is no id, or another.
pub(crate) fn send<K: KindOfEvents + Drop, R: Wait>(
    rt: &R,
    there: &EventNotifier<K>,
    back: &EventListener<K>,
    count: u64,
) -> Result<Rounds<K>>
    ensures { IfOk result (λ made. made ≡ count) }
{
    let mut made = Rounds::<K>::none();
    for i in 0..count {
        made.make(rt, there, back, TriggerId::new((i % IDS) as usize))?;
    }
    Ok(made)
}

/// Sends back each of so many ids that come, and tells how many it sent.
///
/// # Errors
/// Where a notify is refused, or what comes is no id.
pub(crate) fn echo<K: KindOfEvents + Drop, R: Wait>(
    rt: &R,
    there: &EventListener<K>,
    back: &EventNotifier<K>,
    count: u64,
) -> Result<Echoes<K>>
    ensures { IfOk result (λ echoes. echoes ≡ count) }
{
    let mut echoes = Echoes::<K>::none();
    for _ in 0..count {
        echoes.send_back(rt, there, back)?;
    }
    Ok(echoes)
}

/// This many round trips of an id between two threads, over two events.
///
/// # Errors
/// Where a call that makes an event or opens it is refused, or one of the threads is. A thread whose other one was refused
/// between two trips goes on waiting for its id, and then no answer comes.
pub fn run_trips<K: KindOfEvents + Drop + Send + Sync + 'static, R: Threads + Wait + Sync>(
    rt: &R,
    alloc: Global,
    count: u64,
) -> Result<Trips<K>>
    ensures made { IfOk result (λ trips. trips.made ≡ count) }
    ensures echoed { IfOk result (λ trips. trips.echoed ≡ count) }
{
    let (there, to_there) = ends_of::<K, R>(rt, alloc)?;
    let (back, to_back) = ends_of::<K, R>(rt, alloc)?;
    let (made, echoed) = thread::join(
        rt,
        move || -> Result<Rounds<K>>
            requires { IsSync R.row }
            ensures { IfOk result (λ made. made ≡ count) }
        { send(rt, &to_there, &back, count) },
        move || -> Result<Echoes<K>>
            requires { IsSync R.row }
            ensures { IfOk result (λ echoes. echoes ≡ count) }
        { echo(rt, &there, &to_back, count) },
    );
    let echoed = echoed?;
    Ok(Trips {
        made: made?,
        echoed,
    })
}
