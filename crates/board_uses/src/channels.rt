//! Channels: what is sent to one is received from it, and a name that only pretends to be gone is found.
use crate::apart::{goes_alone, others};
use crate::same::same;
use board_channel::{
    Channel, ChannelRegistry, Channels, CommunicationChannel, CommunicationChannelConnector,
    CommunicationChannelCreator, CommunicationChannelParticipant, CommunicationChannelReceiver,
    CommunicationChannelSender, Connector, Creator, Duplex,
};
use board_names::{
    CommunicationChannelOpenError, Configuration, FileName, NameTable, NamedConceptBuilder,
    NamedConceptConfiguration, NamedConceptDoesExistError, NamedConceptMgmt,
};
use std::alloc::Global;
use std::process::Abort;
use std::sync::Wait;
use std::test::Fail;

// What is sent in either way is received in its order, once.
fn carries<R: Wait + Abort, T: CommunicationChannelReceiver, S: CommunicationChannelSender>(
    rt: &R,
    receiver: &T,
    sender: &S,
    other: &S,
) {
    same(
        rt,
        &(sender.send(rt, &7), other.send(rt, &8)),
        &(Ok(None), Ok(None)),
    );
    let tried = (sender.try_send(rt, &9), other.try_send(rt, &10));
    same(rt, &tried, &(Ok(None), Ok(None)));
    for sent in [7, 8, 9, 10] {
        same(rt, &receiver.receive(rt), &Ok(Some(sent)));
    }
    same(rt, &receiver.receive(rt), &Ok(None));
}

// What senders of the name send goes to its receiver, and not to the stranger.
fn leads_to_its_channel<R: Wait + Abort, C: CommunicationChannel>(
    rt: &R,
    registry: &C::Registry,
    name: &FileName,
    (receiver, stranger): (&C::Receiver, &C::Receiver),
) -> Result<(), Fail>
where
    C::Sender: Drop,
{
    let sender = C::Connector::new(name, registry)?.open_sender(rt)?;
    let other = C::Connector::new(name, registry)?.try_open_sender(rt)?;
    carries(rt, receiver, &sender, &other);
    same(rt, &stranger.receive(rt), &Ok(None));
    Ok(())
}

// The senders of both channels are opened when both are there.
fn lead_to_their_channels<R: Wait + Abort, C: CommunicationChannel>(
    rt: &R,
    alloc: Global,
    registry: &C::Registry,
    (c, d): (&FileName, &FileName),
) -> Result<(), Fail>
where
    C::Receiver: Drop,
    C::Sender: Drop,
{
    let at_c = C::Creator::new(c, registry)?.create_receiver(rt, alloc)?;
    let at_d = C::Creator::new(d, registry)?.create_receiver(rt, alloc)?;
    leads_to_its_channel::<_, C>(rt, registry, c, (&at_c, &at_d))?;
    leads_to_its_channel::<_, C>(rt, registry, d, (&at_d, &at_c))
}

// A name is there until it is removed, once. Another name stays.
fn is_removed<R: Wait + Abort, C: CommunicationChannel>(
    rt: &R,
    registry: &C::Registry,
    (name, stranger): (&FileName, &FileName),
) {
    let config = Configuration::with_suffix(&C::default_suffix());
    let before = C::does_exist_cfg(rt, registry, name, &config);
    let first = C::remove_cfg(rt, registry, name, &config);
    let second = C::remove_cfg(rt, registry, name, &config);
    let after = C::does_exist_cfg(rt, registry, name, &config);
    same(rt, &(before, after), &(Ok(true), Ok(false)));
    same(rt, &(first, second), &(Ok(true), Ok(false)));
    let held = C::does_exist_cfg(rt, registry, stranger, &config);
    same(rt, &held, &Ok(true));
}

// No sender of the name is opened, in either way.
fn is_not_opened<R: Wait + Abort, C: CommunicationChannel>(
    rt: &R,
    registry: &C::Registry,
    name: &FileName,
) -> Result<(), Fail>
where
    C::Sender: Drop,
{
    let opened = C::Connector::new(name, registry)?.open_sender(rt);
    same(
        rt,
        &opened.err(),
        &Some(CommunicationChannelOpenError::DoesNotExist),
    );
    let tried = C::Connector::new(name, registry)?.try_open_sender(rt);
    same(
        rt,
        &tried.err(),
        &Some(CommunicationChannelOpenError::DoesNotExist),
    );
    Ok(())
}

#[test]
fn any_channel_is_used_by_the_traits(rt: HostRuntime) -> Result<(), Fail> {
    let registry = ChannelRegistry::new(rt.alloc())?;
    let (c, d) = (FileName::new(b"c")?, FileName::new(b"d")?);
    lead_to_their_channels::<_, Channel>(&rt, rt.alloc(), &registry, (&c, &d))?;
    is_removed::<_, Channel>(&rt, &registry, (&c, &d));
    is_not_opened::<_, Channel>(&rt, &registry, &c)
}

// What is sent under this configuration is received under it, and not by the stranger.
fn leads_apart<R: Wait + Abort, C: CommunicationChannel>(
    rt: &R,
    alloc: Global,
    registry: &C::Registry,
    (name, config): (&FileName, &Configuration),
    stranger: &C::Receiver,
) -> Result<(), Fail>
where
    C::Receiver: Drop,
    C::Sender: Drop,
{
    let creator = C::Creator::new(name, registry)?.config(config);
    let receiver = creator.create_receiver(rt, alloc)?;
    let connector = C::Connector::new(name, registry)?.config(config);
    let sender = connector.open_sender(rt)?;
    let connector = C::Connector::new(name, registry)?.config(config);
    let other = connector.try_open_sender(rt)?;
    carries(rt, &receiver, &sender, &other);
    same(rt, &stranger.receive(rt), &Ok(None));
    Ok(())
}

// A receiver that is released lets its name go under this configuration, and not under the usual one.
fn lets_go_apart<R: Wait + Abort>(
    rt: &R,
    alloc: Global,
    registry: &ChannelRegistry,
    name: &FileName,
    (usual, other): (&Configuration, &Configuration),
) -> Result<(), Fail> {
    let creator = Creator::new(name, registry)?.config(other);
    creator.create_receiver(rt, alloc)?.release(rt);
    let stays = Channel::does_exist_cfg(rt, registry, name, usual);
    let held = Channel::does_exist_cfg(rt, registry, name, other);
    same(rt, &(stays, held), &(Ok(true), Ok(false)));
    Ok(())
}

// The name has a channel of its own under each configuration.
fn are_apart<R: Wait + Abort>(
    rt: &R,
    alloc: Global,
    registry: &ChannelRegistry,
    (name, usual): (&FileName, &Configuration),
    stranger: &Duplex,
) -> Result<(), Fail> {
    for other in others(&Channel::default_suffix())? {
        leads_apart::<_, Channel>(rt, alloc, registry, (name, &other), stranger)?;
        goes_alone::<_, Channel>(rt, alloc, registry, name, (usual, &other))?;
        lets_go_apart(rt, alloc, registry, name, (usual, &other))?;
    }
    Ok(())
}

#[test]
fn channels_of_one_name_differ_by_their_configuration(rt: HostRuntime) -> Result<(), Fail> {
    let registry = ChannelRegistry::new(rt.alloc())?;
    let c = FileName::new(b"c")?;
    let usual = Configuration::with_suffix(&Channel::default_suffix());
    let creator = Creator::new(&c, &registry)?.config(&usual);
    let receiver = creator.create_receiver(&rt, rt.alloc())?;
    are_apart(&rt, rt.alloc(), &registry, (&c, &usual), &receiver)
}

// Which of the two names are there.
fn held<R: Wait>(
    rt: &R,
    registry: &ChannelRegistry,
    (name, stranger): (&FileName, &FileName),
) -> [Result<bool, NamedConceptDoesExistError>; 2] {
    let config = Configuration::with_suffix(&Channel::default_suffix());
    [name, stranger].map(|one| Channel::does_exist_cfg(rt, registry, one, &config))
}

// A sender is opened in each way, and both are let go.
fn senders_go<R: Wait>(rt: &R, registry: &ChannelRegistry, name: &FileName) -> Result<(), Fail> {
    let sender = Connector::new(name, registry)?.open_sender(rt)?;
    let other = Connector::new(name, registry)?.try_open_sender(rt)?;
    sender.release(rt);
    other.release(rt);
    Ok(())
}

#[test]
fn a_name_goes_with_its_receiver_alone(rt: HostRuntime) -> Result<(), Fail> {
    let registry = ChannelRegistry::new(rt.alloc())?;
    let (c, d) = (FileName::new(b"c")?, FileName::new(b"d")?);
    let receiver = Creator::new(&c, &registry)?.create_receiver(&rt, rt.alloc())?;
    let _stranger = Creator::new(&d, &registry)?.create_receiver(&rt, rt.alloc())?;
    senders_go(&rt, &registry, &c)?;
    same(&rt, &held(&rt, &registry, (&c, &d)), &[Ok(true), Ok(true)]);
    receiver.release(&rt);
    same(&rt, &held(&rt, &registry, (&c, &d)), &[Ok(false), Ok(true)]);
    Ok(())
}

#[test]
fn the_ends_of_a_lent_channel_share_its_queue(rt: HostRuntime) -> Result<(), Fail> {
    let registry = ChannelRegistry::new(rt.alloc())?;
    let mut state = Channels::new(rt.alloc());
    let c = FileName::new(b"c")?;
    let receiver = Creator::new(&c, &registry)?.create_receiver_in(&mut state, rt.alloc())?;
    let sender = Connector::new(&c, &registry)?.open_sender_in(&mut state)?;
    let other = Connector::new(&c, &registry)?.try_open_sender_in(&mut state)?;
    carries(&rt, &receiver, &sender, &other);
    Ok(())
}
