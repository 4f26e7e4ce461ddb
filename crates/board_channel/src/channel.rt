//! The channels of one process.
ghost use Rattle.std.specs.Prelude.{◌≡◌, ℕ, List, true, codes};

use crate::channels::{ChannelRegistry, Channels};
use crate::communication_channel::CommunicationChannel;
use crate::connector::Connector;
use crate::creator::Creator;
use crate::duplex::Duplex;
use board_names::{FileName, NamedConceptMgmt};
use std::sync::{MutexGuard, Wait};

/// The channels of one process.
#[derive(Clone, Copy, Debug, PartialEq, Eq)]
pub struct Channel;

impl NamedConceptMgmt for Channel {
    type Names = Channels;

    type Registry = ChannelRegistry;

    fn lock<'a, R: Wait>(rt: &R, registry: &'a ChannelRegistry) -> MutexGuard<'a, Channels> {
        registry.lock(rt)
    }
}

impl CommunicationChannel for Channel {
    type Sender = Duplex;

    type Receiver = Duplex;

    type Creator = Creator;

    type Connector = Connector;

    fn default_suffix() -> FileName {
        FileName::from_valid(b".com")
    }

    fn does_support_safe_overflow() -> bool
        ensures { result ≡ true }
    {
        true
    }

    fn has_configurable_buffer_size() -> bool
        ensures { result ≡ true }
    {
        true
    }
}
