//! Channels: numbers in order, from senders to a receiver.
pub use board_channel::communication_channel::Local;
pub use board_channel::{
    Channel, ChannelRegistry, Channels, CommunicationChannel, CommunicationChannelConnector,
    CommunicationChannelCreator, CommunicationChannelParticipant, CommunicationChannelReceiver,
    CommunicationChannelSender, Connector, Creator, DEFAULT_RECEIVER_BUFFER_SIZE, Duplex,
    NameTable, Queue, SharedQueue,
};
pub use board_names::{
    Configuration, FileName, FilePath, NamedConcept, NamedConceptBuilder,
    NamedConceptConfiguration, NamedConceptMgmt, Path, RegistryError,
};
