//! How a channel is made.
ghost use Rattle.std.specs.Prelude.{◌≡◌, ℕ, List, true, false, IfOk, OnOk, OnErr};
ghost use Rattle.std.proofs.Common.{ap};
ghost use Rattle.board_layout.specs.Answer.{Answers, Refuses};
ghost use Rattle.board_names.specs.Concept.{path_of};
ghost use Rattle.board_names.specs.Table.{putting};
ghost use Rattle.board_names.specs.declared.errors.communication_channel.CommunicationChannelCreateError.TheVariants.{OutOfMemory};
ghost use Rattle.board_channel.specs.Channels.{Size, asked_size, asked_receiver, started_creator, create_receiver_answer};
ghost use Rattle.board_channel.specs.TypedCalls.{MayCreate};

use crate::channel::Channel;
use crate::channels::{ChannelRegistry, Channels, SharedQueue};
use crate::communication_channel::{
    CommunicationChannel, CommunicationChannelCreator, DEFAULT_RECEIVER_BUFFER_SIZE,
};
use crate::duplex::Duplex;
use board_names::{
    CommunicationChannelCreateError, Configuration, FileName, NameRequest, NamedConceptBuilder,
    RegistryError,
};
use std::alloc::Global;
use std::marker::Model;
use std::sync::Wait;

/// A builder of a channel and its receiver. Clauses see the name, the configuration, the capacity and whether the channel
/// overflows.
#[derive(Drop)]
pub struct Creator {
    request: NameRequest<Channels>,
    capacity: usize,
    overflow: bool,
}

impl Model for Creator {
    ghost use Rattle.board_channel.specs.Channels.{CreatorView};

    ghost Value = { CreatorView };

    ghost view = { λ c. record { named = c.request; capacity = c.capacity; overflow = c.overflow } };
}

impl Creator {
    /// `create_receiver` over the channels themselves.
    ///
    /// # Errors
    /// `AlreadyExists` where the name is held; `OutOfMemory`. The channels stay as they were.
    pub fn create_receiver_in(
        self,
        state: &mut Channels,
        alloc: Global,
    ) -> Result<Duplex, CommunicationChannelCreateError>
        ensures answer { Answers result OutOfMemory (create_receiver_answer self state.old) }
        ensures refused { Refuses result (create_receiver_answer self state.old) }
        ensures ok { let path = path_of self.named in
            OnOk result (state.new ≡ putting state.old path (asked_size self)) }
        ensures err { OnErr result (state.new ≡ state.old) }
    {
        let shared = state.create(&self.request.path(), self.capacity, self.overflow)?;
        Ok(Duplex::at(self.request.place(), true, shared))
    }

    fn make<R: Wait>(&self, rt: &R) -> Result<SharedQueue, CommunicationChannelCreateError>
        ensures size { IfOk result (λ shared. shared ≡ asked_size self.now) }
        ensures refused { MayCreate result }
    {
        let mut state = self.request.lock(rt);
        state.create(&self.request.path(), self.capacity, self.overflow)
    }
}

impl NamedConceptBuilder for Creator {
    type Registry = ChannelRegistry;

    ghost named = { λ c. c.named };

    ghost Told = { Size };

    ghost told = { λ c. record { capacity = c.capacity; overflow = c.overflow } };

    ghost untold = { record { capacity = 8; overflow = false } };

    fn new(name: &FileName, registry: &ChannelRegistry) -> Result<Creator, RegistryError>
        ensures { IfOk result (λ c. c ≡ started_creator name.now) }
    {
        Ok(Creator {
            request: NameRequest::new(name, &Channel::default_suffix(), registry)?,
            capacity: DEFAULT_RECEIVER_BUFFER_SIZE,
            overflow: false,
        })
    }

    fn config(mut self, config: &Configuration) -> Creator
        ensures { result ≡ record self { named = record self.named { config = config.now } } }
    {
        self.request = self.request.with(config);
        self
    }
}

impl CommunicationChannelCreator for Creator {
    type Receiver = Duplex;

    ghost asked_capacity = { λ c. c.capacity };

    ghost asked_overflow = { λ c. c.overflow };

    ghost capacity_as_told = { λ x y h. ap (λ (s : Size). s.capacity) h };

    ghost overflow_as_told = { λ x y h. ap (λ (s : Size). s.overflow) h };

    ghost capacity_untold = { λ x h. ap (λ (s : Size). s.capacity) h };

    ghost overflow_untold = { λ x h. ap (λ (s : Size). s.overflow) h };

    fn enable_safe_overflow(mut self) -> Creator
        ensures { result ≡ record self { overflow = true } }
    {
        self.overflow = true;
        self
    }

    fn buffer_size(mut self, value: usize) -> Creator
        ensures { result ≡ record self { capacity = value } }
    {
        self.capacity = value;
        self
    }

    fn create_receiver<R: Wait>(
        self,
        rt: &R,
        alloc: Global,
    ) -> Result<Duplex, CommunicationChannelCreateError>
        ensures end { IfOk result (λ end. end ≡ asked_receiver self) }
        ensures refused { MayCreate result }
    {
        let shared = self.make(rt)?;
        Ok(Duplex::at(self.request.place(), true, shared))
    }
}
