//! How a sender is opened.
ghost use Rattle.std.specs.Prelude.{◌≡◌, ℕ, List, false, codes, IfOk};
ghost use Rattle.board_layout.specs.Answer.{Answers, Refuses};
ghost use Rattle.board_names.specs.Concept.{path_of, starting};
ghost use Rattle.board_names.specs.declared.errors.communication_channel.CommunicationChannelOpenError.TheVariants.{OutOfMemory};
ghost use Rattle.board_channel.specs.Channels.{sender_of, open_sender_answer};
ghost use Rattle.board_channel.specs.TypedCalls.{MayOpen};

use crate::channel::Channel;
use crate::channels::{ChannelRegistry, Channels, SharedQueue};
use crate::communication_channel::{CommunicationChannel, CommunicationChannelConnector};
use crate::duplex::Duplex;
use board_names::{
    CommunicationChannelOpenError, Configuration, FileName, NamePlace, NameRequest,
    NamedConceptBuilder, RegistryError,
};
use std::marker::Model;
use std::sync::Wait;

/// A builder of a sender. Clauses see the name and the configuration.
#[derive(Drop)]
pub struct Connector {
    request: NameRequest<Channels>,
}

impl Model for Connector {
    ghost use Rattle.board_names.specs.Concept.{Named};

    ghost Value = { Named };

    ghost view = { λ c. c.request };
}

impl Connector {
    /// `open_sender` over the channels themselves.
    ///
    /// # Errors
    /// `DoesNotExist` where the name isn't held; `OutOfMemory`.
    pub fn open_sender_in(
        self,
        state: &mut Channels,
    ) -> Result<Duplex, CommunicationChannelOpenError>
        ensures answer { Answers result OutOfMemory (open_sender_answer self state.old) }
        ensures refused { Refuses result (open_sender_answer self state.old) }
        ensures stays { state.new ≡ state.old }
    {
        let place = self.request.place();
        let shared = state.open(place.path())?;
        Ok(Duplex::at(place, false, shared))
    }

    /// `try_open_sender` over the channels themselves.
    ///
    /// # Errors
    /// `DoesNotExist` where the name isn't held; `OutOfMemory`.
    pub fn try_open_sender_in(
        self,
        state: &mut Channels,
    ) -> Result<Duplex, CommunicationChannelOpenError>
        ensures answer { Answers result OutOfMemory (open_sender_answer self state.old) }
        ensures refused { Refuses result (open_sender_answer self state.old) }
        ensures stays { state.new ≡ state.old }
    {
        self.open_sender_in(state)
    }
}

fn join<R: Wait>(
    rt: &R,
    place: &NamePlace<Channels>,
) -> Result<SharedQueue, CommunicationChannelOpenError>
    ensures { MayOpen result }
{
    let state = place.lock(rt);
    state.open(place.path())
}

impl NamedConceptBuilder for Connector {
    type Registry = ChannelRegistry;

    ghost named = { λ c. c };

    ghost told = { λ _. tt };

    ghost untold = { tt };

    fn new(name: &FileName, registry: &ChannelRegistry) -> Result<Connector, RegistryError>
        ensures { IfOk result (λ c. c ≡ starting name.now (codes ".com")) }
    {
        Ok(Connector {
            request: NameRequest::new(name, &Channel::default_suffix(), registry)?,
        })
    }

    fn config(mut self, config: &Configuration) -> Connector {
        self.request = self.request.with(config);
        self
    }
}

impl CommunicationChannelConnector for Connector {
    type Sender = Duplex;

    fn open_sender<R: Wait>(self, rt: &R) -> Result<Duplex, CommunicationChannelOpenError>
        ensures end { IfOk result (λ end. end ≡ sender_of self end.size) }
        ensures refused { MayOpen result }
    {
        let place = self.request.place();
        let shared = join(rt, &place)?;
        Ok(Duplex::at(place, false, shared))
    }

    fn try_open_sender<R: Wait>(self, rt: &R) -> Result<Duplex, CommunicationChannelOpenError>
        ensures end { IfOk result (λ end. end ≡ sender_of self end.size) }
        ensures refused { MayOpen result }
    {
        self.open_sender(rt)
    }
}
