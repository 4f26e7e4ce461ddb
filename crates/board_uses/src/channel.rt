//! Channels by the typed calls, of which their clauses say little, and once by the lent forms.
ghost use Rattle.std.specs.Prelude.{IsOkUnless, IsTrue};
ghost use Rattle.board_names.specs.declared.errors.communication_channel.CommunicationChannelCreateError.TheVariants.{OutOfMemory};

use crate::same::same;
use board_channel::{
    Channel, ChannelRegistry, Channels, CommunicationChannel, CommunicationChannelConnector,
    CommunicationChannelCreator, CommunicationChannelParticipant, CommunicationChannelReceiver,
    CommunicationChannelSender, Connector, Creator, Duplex, Queue, SharedQueue,
};
use board_names::{
    CommunicationChannelCreateError, CommunicationChannelOpenError, CommunicationChannelSendError,
    Configuration, FileName, FilePath, NameTable, NamedConcept, NamedConceptBuilder,
    NamedConceptConfiguration, NamedConceptMgmt,
};
use std::alloc::Global;
use std::process::Abort;
use std::sync::Wait;
use std::test::Fail;

fn creator(value: &[u8], registry: &ChannelRegistry) -> Result<Creator, Fail> {
    Ok(Creator::new(&FileName::new(value)?, registry)?)
}

fn connector(value: &[u8], registry: &ChannelRegistry) -> Result<Connector, Fail> {
    Ok(Connector::new(&FileName::new(value)?, registry)?)
}

fn channels() -> Configuration {
    Configuration::with_suffix(&Channel::default_suffix())
}

fn fills<R: Wait + Abort>(rt: &R, sender: &Duplex) {
    same(rt, &sender.send(rt, &1), &Ok(None));
    same(rt, &sender.try_send(rt, &2), &Ok(None));
}

// It has two numbers and no room for a third.
fn is_full<R: Wait + Abort>(rt: &R, sender: &Duplex, receiver: &Duplex) {
    same(
        rt,
        &sender.send(rt, &3),
        &Err(CommunicationChannelSendError::ReceiverCacheIsFull),
    );
    same(
        rt,
        &sender.try_send(rt, &3),
        &Err(CommunicationChannelSendError::ReceiverCacheIsFull),
    );
    same(rt, &receiver.receive(rt), &Ok(Some(1)));
    same(rt, &receiver.receive(rt), &Ok(Some(2)));
    same(rt, &receiver.receive(rt), &Ok(None));
}

fn refuses<R: Wait + Abort>(rt: &R, alloc: Global, registry: &ChannelRegistry) -> Result<(), Fail> {
    let creator = creator(b"c", registry)?.buffer_size(2);
    let receiver = creator.create_receiver(rt, alloc)?;
    assert!(rt; !receiver.does_enable_safe_overflow());
    let sender = connector(b"c", registry)?.open_sender(rt)?;
    fills(rt, &sender);
    is_full(rt, &sender, &receiver);
    Ok(())
}

// Nothing is opened under the name.
fn is_not_opened<R: Wait + Abort>(
    rt: &R,
    value: &[u8],
    registry: &ChannelRegistry,
) -> Result<(), Fail> {
    let opened = connector(value, registry)?.open_sender(rt);
    same(
        rt,
        &opened.err(),
        &Some(CommunicationChannelOpenError::DoesNotExist),
    );
    Ok(())
}

// It has two numbers, and a third takes the place of the first.
fn takes_more<R: Wait + Abort>(rt: &R, sender: &Duplex) {
    assert!(rt; sender.does_enable_safe_overflow());
    fills(rt, sender);
    same(rt, &sender.send(rt, &3), &Ok(Some(1)));
    assert!(rt; is_taken(rt, sender, 4));
    same(rt, &sender.try_send(rt, &5), &Ok(Some(3)));
}

// Both ends give the two numbers that it has, each once, and go on without the name.
fn both_receive<R: Wait + Abort>(rt: &R, sender: &Duplex, receiver: Duplex) {
    same(rt, &receiver.receive(rt), &Ok(Some(4)));
    receiver.release(rt);
    same(rt, &sender.receive(rt), &Ok(Some(5)));
    same(rt, &sender.receive(rt), &Ok(None));
}

fn overflows<R: Wait + Abort>(
    rt: &R,
    alloc: Global,
    registry: &ChannelRegistry,
) -> Result<(), Fail> {
    let creator = creator(b"d", registry)?.buffer_size(2);
    let receiver = creator.enable_safe_overflow().create_receiver(rt, alloc)?;
    let sender = connector(b"d", registry)?.try_open_sender(rt)?;
    takes_more(rt, &sender);
    both_receive(rt, &sender, receiver);
    is_not_opened(rt, b"d", registry)
}

// A caller's proof over the trait alone: a channel that overflows takes each number.
fn is_taken<R: Wait, S: CommunicationChannelSender>(rt: &R, sender: &S, value: u64) -> bool
    ensures { IsTrue (S.overflows sender.now) → IsTrue result }
{
    sender.send(rt, &value).is_ok()
}

fn is_not_made<R: Wait + Abort>(
    rt: &R,
    alloc: Global,
    value: &[u8],
    registry: &ChannelRegistry,
) -> Result<(), Fail> {
    let again = creator(value, registry)?.create_receiver(rt, alloc);
    same(
        rt,
        &again.err(),
        &Some(CommunicationChannelCreateError::AlreadyExists),
    );
    Ok(())
}

// What is opened under the name leads to this receiver.
fn leads_to<R: Wait + Abort>(
    rt: &R,
    value: &[u8],
    registry: &ChannelRegistry,
    receiver: &Duplex,
) -> Result<(), Fail> {
    let sender = connector(value, registry)?.open_sender(rt)?;
    same(rt, &sender.send(rt, &6), &Ok(None));
    same(rt, &receiver.receive(rt), &Ok(Some(6)));
    Ok(())
}

fn is_made_once<R: Wait + Abort>(
    rt: &R,
    alloc: Global,
    registry: &ChannelRegistry,
) -> Result<(), Fail> {
    let creator_of_one = creator(b"e", registry)?.buffer_size(0);
    let receiver = creator_of_one.create_receiver(rt, alloc)?;
    same(rt, &receiver.buffer_size(), &1);
    let shared = registry.share()?;
    is_not_made(rt, alloc, b"e", &shared)?;
    leads_to(rt, b"e", &shared, &receiver)?;
    is_not_opened(rt, b"f", &shared)
}

#[test]
fn channels_refuse_overflow_and_are_made_once(rt: HostRuntime) -> Result<(), Fail> {
    assert!(rt; Channel::does_support_safe_overflow());
    assert!(rt; Channel::has_configurable_buffer_size());
    let registry = ChannelRegistry::new(rt.alloc())?;
    refuses(&rt, rt.alloc(), &registry)?;
    overflows(&rt, rt.alloc(), &registry)?;
    is_made_once(&rt, rt.alloc(), &registry)
}

// It takes eight numbers and answers so to a ninth. Then it gives those that it kept, each once.
fn holds_eight<R: Wait + Abort>(
    rt: &R,
    (sender, receiver): (&Duplex, &Duplex),
    ninth: &Result<Option<u64>, CommunicationChannelSendError>,
    kept: [u64; 8],
) {
    for value in 0..8 {
        same(rt, &sender.send(rt, &value), &Ok(None));
    }
    same(rt, &sender.send(rt, &8), ninth);
    for value in kept {
        same(rt, &receiver.receive(rt), &Ok(Some(value)));
    }
    same(rt, &receiver.receive(rt), &Ok(None));
}

#[test]
fn a_channel_holds_eight_numbers_unless_told(rt: HostRuntime) -> Result<(), Fail> {
    let registry = ChannelRegistry::new(rt.alloc())?;
    let receiver = creator(b"c", &registry)?.create_receiver(&rt, rt.alloc())?;
    let sender = connector(b"c", &registry)?.open_sender(&rt)?;
    let refused = Err(CommunicationChannelSendError::ReceiverCacheIsFull);
    let kept = [0, 1, 2, 3, 4, 5, 6, 7];
    holds_eight(&rt, (&sender, &receiver), &refused, kept);
    Ok(())
}

#[test]
fn a_channel_that_overflows_holds_eight_numbers_too(rt: HostRuntime) -> Result<(), Fail> {
    let registry = ChannelRegistry::new(rt.alloc())?;
    let creator = creator(b"c", &registry)?.enable_safe_overflow();
    let receiver = creator.create_receiver(&rt, rt.alloc())?;
    let sender = connector(b"c", &registry)?.open_sender(&rt)?;
    let kept = [1, 2, 3, 4, 5, 6, 7, 8];
    holds_eight(&rt, (&sender, &receiver), &Ok(Some(0)), kept);
    Ok(())
}

#[test]
fn a_lent_queue_overflows(rt: HostRuntime) -> Result<(), Fail> {
    let registry = ChannelRegistry::new(rt.alloc())?;
    let mut state = Channels::new(rt.alloc());
    let end = creator(b"c", &registry)?.create_receiver_in(&mut state, rt.alloc())?;
    let mut queue = Queue::new(rt.alloc(), 1, true)?;
    assert!(rt; queue.overflows());
    same(&rt, &end.send_in(&mut queue, &1), &Ok(None));
    same(&rt, &end.try_send_in(&mut queue, &2), &Ok(Some(1)));
    same(&rt, &end.receive_in(&mut queue), &Ok(Some(2)));
    end.release_in(&mut state);
    Ok(())
}

fn lists_both<R: Wait + Abort>(
    rt: &R,
    alloc: Global,
    registry: &ChannelRegistry,
) -> Result<(), Fail> {
    let both = [FileName::new(b"c")?, FileName::new(b"d")?];
    let names = Channel::list_cfg(rt, alloc, registry, &channels())?;
    same(rt, &names.as_slice(), &both.as_slice());
    Ok(())
}

#[test]
fn channels_are_listed(rt: HostRuntime) -> Result<(), Fail> {
    let registry = ChannelRegistry::new(rt.alloc())?;
    let _second = creator(b"d", &registry)?.create_receiver(&rt, rt.alloc())?;
    let first = creator(b"c", &registry)?.create_receiver(&rt, rt.alloc())?;
    same(&rt, &first.buffer_size(), &8);
    lists_both(&rt, rt.alloc(), &registry)
}

// A caller's proof over channels that were lent, whoever made them: a removed name can be taken, want of memory aside.
fn takes_a_removed_name(
    state: &mut Channels,
    name: &FilePath,
) -> Result<SharedQueue, CommunicationChannelCreateError>
    ensures { IsOkUnless result OutOfMemory }
{
    state.remove(name);
    state.create(name, 1, false)
}

fn sent<T: Send>(value: T) -> T {
    value
}

fn is_sent(end: Duplex) -> Duplex {
    sent(end)
}
