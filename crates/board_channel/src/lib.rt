//! Channels: numbers in order, from senders to a receiver.
//!
//! `Channels` is the table of names with capacity and overflow (`specs/Channels`); a channel's numbers stand in its
//! `Queue` (`specs/Queue`), behind a lock of its own.
//!
//! A typed call takes the lock of its registry or of its queue and calls its lent form, whose name ends in `_in` and
//! whose contract says the answers.
#![tactic(auto)]

mod channel;
mod channels;
pub mod communication_channel;
mod connector;
mod creator;
mod duplex;
mod kept_queues;
mod locked_queue;
mod queue;

pub use board_names::{
    CommunicationChannelCreateError, CommunicationChannelOpenError,
    CommunicationChannelReceiveError, CommunicationChannelSendError, Configuration, FileName,
    FilePath, NameTable, NamedConcept, NamedConceptBuilder, NamedConceptConfiguration,
    NamedConceptMgmt, Path, RegistryError,
};
pub use channel::Channel;
pub use channels::{ChannelRegistry, Channels, SharedQueue};
pub use communication_channel::{
    CommunicationChannel, CommunicationChannelConnector, CommunicationChannelCreator,
    CommunicationChannelParticipant, CommunicationChannelReceiver, CommunicationChannelSender,
    DEFAULT_RECEIVER_BUFFER_SIZE,
};
pub use connector::Connector;
pub use creator::Creator;
pub use duplex::Duplex;
pub use queue::Queue;
