//! What a channel does: senders add numbers to a queue under a name, and a receiver takes them in their order.
ghost use Rattle.std.specs.Prelude.{◌≡◌, ℕ, ◌<◌, List, Bool, true, false, codes, max, IfOk, IsOk};
ghost use Rattle.board_channel.specs.TypedCalls.{MayCreate, MayOpen, MaySend};

use board_names::{
    CommunicationChannelCreateError, CommunicationChannelOpenError,
    CommunicationChannelReceiveError, CommunicationChannelSendError, FileName, NamedConcept,
    NamedConceptBuilder, NamedConceptMgmt,
};
use std::alloc::Global;
use std::sync::Wait;

/// How many numbers a channel holds, unless its creator is told otherwise.
pub const DEFAULT_RECEIVER_BUFFER_SIZE: usize = 8;

/// The channels of this process.
pub type Local = crate::channel::Channel;

/// Channels of one kind.
pub trait CommunicationChannel: NamedConceptMgmt + Sized {
    /// The end that sends.
    type Sender: CommunicationChannelSender;

    /// The end that receives.
    type Receiver: CommunicationChannelReceiver;

    /// What makes a receiver, and with it the channel.
    type Creator: CommunicationChannelCreator<Receiver = Self::Receiver, Registry = Self::Registry>;

    /// What opens a sender.
    type Connector: CommunicationChannelConnector<Sender = Self::Sender, Registry = Self::Registry>;

    /// The suffix that a builder starts with.
    fn default_suffix() -> FileName
        ensures { result ≡ codes ".com" };

    /// Whether a full channel can give its oldest number back in place of a refusal.
    fn does_support_safe_overflow() -> bool {
        false
    }

    /// Whether a creator can be told how many numbers the channel holds.
    fn has_configurable_buffer_size() -> bool {
        false
    }
}

/// One end of a channel.
pub trait CommunicationChannelParticipant: Sized {
    ghost overflows: { Self → Bool };

    /// Whether a full channel gives its oldest number back in place of a refusal.
    fn does_enable_safe_overflow(&self) -> bool
        ensures { result ≡ overflows self.now };

    /// Gives this end up, and the name where it made the channel.
    ///
    /// The name is that of its builder's registry. What a lent form made stands in the table that was lent, and is given
    /// up by `release_in` of that table.
    fn release<R: Wait>(self, rt: &R);
}

/// The end that sends.
pub trait CommunicationChannelSender: CommunicationChannelParticipant + NamedConcept {
    /// Adds a number. A full channel that overflows hands its oldest one back.
    ///
    /// # Errors
    /// `ReceiverCacheIsFull` where the channel is full and doesn't overflow. It stays as it was.
    fn send<R: Wait>(
        &self,
        rt: &R,
        value: &u64,
    ) -> Result<Option<u64>, CommunicationChannelSendError>
        ensures { MaySend (Self.overflows self.now) result };

    /// The same as `send`.
    ///
    /// # Errors
    /// `ReceiverCacheIsFull` where the channel is full and doesn't overflow. It stays as it was.
    fn try_send<R: Wait>(
        &self,
        rt: &R,
        value: &u64,
    ) -> Result<Option<u64>, CommunicationChannelSendError>
        ensures { MaySend (Self.overflows self.now) result }
    {
        self.send(rt, value)
    }
}

/// The end that receives.
pub trait CommunicationChannelReceiver: CommunicationChannelParticipant + NamedConcept {
    ghost holds: { Self → ℕ };

    /// How many numbers the channel holds, at least one.
    fn buffer_size(&self) -> usize
        ensures value { result ≡ holds self.now }
        ensures some { 0 < holds self.now };

    /// Takes the oldest number.
    ///
    /// # Errors
    /// None: it is never refused.
    fn receive<R: Wait>(&self, rt: &R) -> Result<Option<u64>, CommunicationChannelReceiveError>
        ensures { IsOk result };
}

/// A builder of a receiver and its channel.
pub trait CommunicationChannelCreator: NamedConceptBuilder {
    /// What it makes.
    type Receiver: CommunicationChannelReceiver;

    ghost asked_capacity: { Self → ℕ };

    ghost asked_overflow: { Self → Bool };

    /// A full channel gives its oldest number back in place of a refusal.
    fn enable_safe_overflow(self) -> Self
        ensures capacity { asked_capacity result ≡ asked_capacity self }
        ensures overflow { asked_overflow result ≡ true }
        ensures named { Self.named result ≡ Self.named self };

    /// How many numbers the channel holds; 0 counts as 1.
    fn buffer_size(self, value: usize) -> Self
        ensures capacity { asked_capacity result ≡ value }
        ensures overflow { asked_overflow result ≡ asked_overflow self }
        ensures named { Self.named result ≡ Self.named self };

    /// The channel, and its receiver.
    ///
    /// # Errors
    /// `AlreadyExists` where the name is held; `OutOfMemory`.
    fn create_receiver<R: Wait>(
        self,
        rt: &R,
        alloc: Global,
    ) -> Result<Self::Receiver, CommunicationChannelCreateError>
        ensures name { IfOk result (λ r. Self.Receiver.name_of r ≡ (Self.named self).name) }
        ensures capacity { IfOk result (λ r. Self.Receiver.holds r ≡ max 1 (asked_capacity self)) }
        ensures overflow { IfOk result (λ r. Self.Receiver.overflows r ≡ asked_overflow self) }
        ensures refused { MayCreate result };

    /// The size is part of what a creator was told.
    ghost capacity_as_told: { (x y : Self) → Self.told x ≡ Self.told y → asked_capacity x ≡ asked_capacity y };

    ghost overflow_as_told: { (x y : Self) → Self.told x ≡ Self.told y → asked_overflow x ≡ asked_overflow y };

    /// A creator that was told nothing makes a channel of 8 numbers, which doesn't overflow.
    ghost capacity_untold: { (x : Self) → Self.told x ≡ Self.untold → asked_capacity x ≡ 8 };

    ghost overflow_untold: { (x : Self) → Self.told x ≡ Self.untold → asked_overflow x ≡ false };
}

/// A builder of a sender.
pub trait CommunicationChannelConnector: NamedConceptBuilder {
    /// What it opens.
    type Sender: CommunicationChannelSender;

    /// A sender of the channel under the name.
    ///
    /// # Errors
    /// `DoesNotExist` where the name isn't held; `OutOfMemory`.
    fn open_sender<R: Wait>(self, rt: &R) -> Result<Self::Sender, CommunicationChannelOpenError>
        ensures name { IfOk result (λ s. Self.Sender.name_of s ≡ (Self.named self).name) }
        ensures refused { MayOpen result };

    /// The same as `open_sender`.
    ///
    /// # Errors
    /// `DoesNotExist` where the name isn't held; `OutOfMemory`.
    fn try_open_sender<R: Wait>(self, rt: &R) -> Result<Self::Sender, CommunicationChannelOpenError>
        ensures name { IfOk result (λ s. Self.Sender.name_of s ≡ (Self.named self).name) }
        ensures refused { MayOpen result };
}
