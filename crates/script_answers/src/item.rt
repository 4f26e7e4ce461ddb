//! What a token may be, by itself.
ghost use Rattle.std.specs.Prelude.{◌≡◌, drop};
ghost use Rattle.std.specs.List.{list_all};
ghost use Rattle.script_answers.specs.AnswerReading as reading;
ghost use Rattle.script_answers.specs.AnswerReading.{are_four, are_two, begins_so, is_event, is_key, is_place, is_value};

use crate::bytes::{behind, is_among, is_event_name, is_name, is_number, is_visible, is_word};
use crate::tokens::Tokens;

/// What a token of an answer may be, by itself.
#[derive(Clone, Copy, Debug, PartialEq, Eq)]
pub enum Item {
    /// A number.
    Number,
    /// A number, or `none`.
    NumberOrNone,
    /// A board and a word of it.
    Place,
    /// `yes` or `no`.
    YesOrNo,
    /// An event whose ids are a set.
    BitsEvent,
    /// An event whose ids are a queue.
    QueueEvent,
    /// Why a line was refused.
    Reason,
    /// The name of a party.
    Name,
    /// The name of a board.
    BoardName,
    /// The type of keys.
    KeyType,
    /// A key.
    Key,
    /// A value.
    Value,
    /// A reply of one word, which says all.
    WholeReply,
}

// Whether the text is the prefix with the name of an event.
#[tactic(auto, unfolding(crate::specs::AnswerReading::is_event))]
fn is_event(text: &[u8], prefix: &[u8]) -> bool
    ensures { result ≡ is_event prefix.now text.now }
{
    match behind(text, prefix) {
        Some(name) => is_event_name(name),
        None => false,
    }
}

// Whether these are two numbers and no more.
#[tactic(auto, unfolding(crate::specs::AnswerReading::are_two))]
fn are_two(mut parts: Tokens) -> bool
    ensures { result ≡ are_two parts.entry }
{
    parts.take_number() && parts.take_number() && parts.is_end()
}

// Whether these are four numbers and no more.
#[tactic(auto, unfolding(crate::specs::AnswerReading::are_four))]
fn are_four(mut parts: Tokens) -> bool
    ensures { result ≡ are_four parts.entry }
{
    parts.take_number()
        && parts.take_number()
        && parts.take_number()
        && parts.take_number()
        && parts.is_end()
}

#[tactic(auto, unfolding(crate::specs::AnswerReading::is_place))]
fn is_place(text: &[u8]) -> bool
    ensures { result ≡ is_place text.now }
{
    are_two(Tokens::between(text, b':'))
}

#[tactic(auto, unfolding(crate::specs::AnswerReading::is_key, crate::specs::AnswerReading::is_key_behind))]
fn is_key(text: &[u8]) -> bool
    ensures { result ≡ is_key text.now }
{
    match behind(text, b"u64:") {
        Some(digits) => is_number(digits),
        None => match behind(text, b"f8:") {
            Some(bytes) => is_visible(bytes, 8),
            None => false,
        },
    }
}

#[tactic(auto, unfolding(crate::specs::AnswerReading::is_value, crate::specs::AnswerReading::is_value_behind))]
fn is_value(text: &[u8]) -> bool
    ensures { result ≡ is_value text.now }
{
    if is_word(text, b"bool:true") || is_word(text, b"bool:false") {
        return true;
    }
    match behind(text, b"u64:") {
        Some(digits) => is_number(digits),
        None => match behind(text, b"q4:") {
            Some(words) => are_four(Tokens::between(words, b',')),
            None => false,
        },
    }
}

#[tactic(auto, unfolding(crate::specs::AnswerReading::is_reason))]
fn is_reason(text: &[u8]) -> bool
    ensures { result ≡ reading.is_reason text.now }
{
    is_among(
        text,
        &[
            b"abandoned",
            b"busy",
            b"idle",
            b"unknown",
            b"taken",
            b"type",
            b"index",
            b"unfilled",
            b"notwaiting",
            b"noboard",
        ],
    )
}

#[tactic(auto, unfolding(crate::specs::AnswerReading::is_whole_reply))]
fn is_whole_reply(text: &[u8]) -> bool
    ensures { result ≡ reading.is_whole_reply text.now }
{
    is_among(
        text,
        &[
            b"true",
            b"false",
            b"none",
            b"BlackboardCreateError::AlreadyExists",
            b"BlackboardCreateError::NoEntriesProvided",
            b"BlackboardCreateError::ServiceInCorruptedState",
            b"BlackboardOpenError::DoesNotExist",
            b"BlackboardOpenError::IncompatibleKeys",
            b"BlackboardOpenError::IncompatibleAttributes",
            b"BlackboardOpenError::DoesNotSupportRequestedAmountOfReaders",
            b"BlackboardOpenError::DoesNotSupportRequestedAmountOfNodes",
            b"BlackboardOpenError::ExceedsMaxNumberOfNodes",
            b"ReaderCreateError::ExceedsMaxSupportedReaders",
            b"WriterCreateError::ExceedsMaxSupportedWriters",
            b"EntryHandleError::EntryDoesNotExist",
            b"EntryHandleMutError::EntryDoesNotExist",
            b"EntryHandleMutError::HandleAlreadyExists",
            b"ListenerCreateError::AlreadyExists",
            b"NotifierCreateError::DoesNotExist",
            b"NotifierNotifyError::FailedToDeliverSignal",
            b"NotifierNotifyError::TriggerIdOutOfBounds",
            b"NotifierNotifyError::Disconnected",
        ],
    )
}

// Whether the text is such a token.
pub(crate) fn is_item(item: Item, text: &[u8]) -> bool
    ensures { result ≡ reading.is_item item text.now }
{
    match item {
        Item::Number => is_number(text),
        Item::NumberOrNone => is_word(text, b"none") || is_number(text),
        Item::Place => is_place(text),
        Item::YesOrNo => is_word(text, b"yes") || is_word(text, b"no"),
        Item::BitsEvent => is_event(text, b"bits:"),
        Item::QueueEvent => is_event(text, b"queue:"),
        Item::Reason => is_reason(text),
        Item::Name => is_name(text),
        Item::BoardName => is_visible(text, 255),
        Item::KeyType => is_word(text, b"u64") || is_word(text, b"f8"),
        Item::Key => is_key(text),
        Item::Value => is_value(text),
        Item::WholeReply => is_whole_reply(text),
    }
}

impl<'a> Tokens<'a> {
    // Takes the first part, and tells whether it is such a token.
    pub(crate) fn take_item(&mut self, item: Item) -> bool
        ensures begins { result ≡ begins_so item self.old }
        ensures rest { self.new ≡ drop 1 self.old }
    {
        match self.next() {
            Some(token) => is_item(item, token),
            None => false,
        }
    }

    // Whether all parts are such tokens.
    pub(crate) fn are_all(&mut self, item: Item) -> bool
        ensures { result ≡ list_all (reading.is_item item) self.old }
    {
        while let Some(token) = self.next() {
            if !is_item(item, token) {
                return false;
            }
        }
        true
    }
}
