//! One end of a channel.
ghost use Rattle.std.specs.Prelude.{◌≡◌, ◌≤◌, ℕ, List, Bool, Ok, IsTrue, length, slice_get};
ghost use Rattle.board_names.specs.Table.{let_go, IsFree};
ghost use Rattle.board_channel.specs.Queue.{sent, send_answer, received};

use crate::channels::{Channels, SharedQueue};
use crate::communication_channel::{
    CommunicationChannelParticipant, CommunicationChannelReceiver, CommunicationChannelSender,
};
use crate::queue::Queue;
use board_names::{
    CommunicationChannelReceiveError, CommunicationChannelSendError, FileName, NamePlace,
    NamedConcept,
};
use std::marker::Model;
use std::sync::Wait;

/// One end of a channel. It shares the channel's queue, and goes on with it when the name is gone.
///
/// Clauses see the name, the full name, whether this end made the channel, and the channel's size.
#[derive(Drop)]
pub struct Duplex {
    place: NamePlace<Channels>,
    made: bool,
    shared: SharedQueue,
}

impl Model for Duplex {
    ghost use Rattle.board_channel.specs.Channels.{DuplexView};

    ghost Value = { DuplexView };

    ghost view = { λ d. record { place = d.place; made = d.made; size = d.shared } };
}

impl Duplex {
    pub(crate) fn at(place: NamePlace<Channels>, made: bool, shared: SharedQueue) -> Duplex
        ensures { result ≡ record { place = place; made = made; size = shared } }
    {
        Duplex {
            place,
            made,
            shared,
        }
    }

    /// `send` over the queue itself.
    ///
    /// # Errors
    /// `ReceiverCacheIsFull` where the queue is full and doesn't overflow. It stays as it was.
    pub fn send_in(
        &self,
        state: &mut Queue,
        value: &u64,
    ) -> Result<Option<u64>, CommunicationChannelSendError>
        ensures answer { result ≡ send_answer state.old }
        ensures after { state.new ≡ sent state.old value.now }
        ensures fits { length state.new.items ≤ state.new.capacity }
    {
        state.try_send(*value)
    }

    /// `try_send` over the queue itself.
    ///
    /// # Errors
    /// `ReceiverCacheIsFull` where the queue is full and doesn't overflow. It stays as it was.
    pub fn try_send_in(
        &self,
        state: &mut Queue,
        value: &u64,
    ) -> Result<Option<u64>, CommunicationChannelSendError>
        ensures answer { result ≡ send_answer state.old }
        ensures after { state.new ≡ sent state.old value.now }
        ensures fits { length state.new.items ≤ state.new.capacity }
    {
        self.send_in(state, value)
    }

    /// `receive` over the queue itself.
    ///
    /// # Errors
    /// None: it is never refused.
    pub fn receive_in(
        &self,
        state: &mut Queue,
    ) -> Result<Option<u64>, CommunicationChannelReceiveError>
        ensures answer { result ≡ Ok (slice_get state.old.items 0) }
        ensures after { state.new ≡ received state.old }
        ensures fits { length state.new.items ≤ state.new.capacity }
    {
        Ok(state.receive())
    }

    /// `release` over the channels themselves: those in which it was made or opened.
    pub fn release_in(self, state: &mut Channels)
        ensures after { state.new ≡ let_go state.old self.made self.place.path }
        ensures gone { IsTrue self.made → IsFree state.new self.place.path }
    {
        self.place.let_go(state, self.made);
    }
}

impl NamedConcept for Duplex {
    ghost name_of = { λ d. d.place.name };

    fn name(&self) -> &FileName {
        self.place.name()
    }
}

impl CommunicationChannelParticipant for Duplex {
    ghost overflows = { λ d. d.size.overflow };

    fn does_enable_safe_overflow(&self) -> bool {
        self.shared.overflows()
    }

    fn release<R: Wait>(self, rt: &R) {
        let mut state = self.place.lock(rt);
        self.place.let_go(&mut state, self.made);
    }
}

impl CommunicationChannelSender for Duplex {
    fn send<R: Wait>(
        &self,
        rt: &R,
        value: &u64,
    ) -> Result<Option<u64>, CommunicationChannelSendError> {
        self.shared.queue.send(rt, self, value)
    }
}

impl CommunicationChannelReceiver for Duplex {
    ghost holds = { λ d. d.size.capacity };

    fn buffer_size(&self) -> usize {
        self.shared.capacity()
    }

    fn receive<R: Wait>(&self, rt: &R) -> Result<Option<u64>, CommunicationChannelReceiveError> {
        self.shared.queue.receive(rt, self)
    }
}
