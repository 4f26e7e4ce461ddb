//! What a finished call on events is told.
use board_model::Words;
use board_names::NotifierNotifyError;

/// What a finished call on events is told.
#[derive(Drop, Debug)]
pub enum EventReply {
    /// It is done.
    Done,
    /// A wait for one took this id.
    Id(u64),
    /// A wait for all took these ids, in this order.
    Ids(Words),
    /// A wait took no id.
    Nothing,
    /// The name of a new event is held.
    AlreadyExists,
    /// The name of a notifier isn't that of an event with a listener.
    DoesNotExist,
    /// A notify was refused.
    NotNotified(NotifierNotifyError),
}
