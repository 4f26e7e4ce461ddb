//! Lines of events, from their tokens.
ghost use Rattle.std.specs.Prelude.{◌≡◌, Some, IfErr, IfOk};
ghost use Rattle.std.specs.List.{list_all};
ghost use Rattle.board_model.specs.Requests.{and_then};
ghost use Rattle.script_grammar.specs.TokenReading.{first_by};
ghost use Rattle.script_grammar.specs.EventReading.{read_count, read_event_begin, read_event_line, read_event_name, read_expire, read_kind, read_listen, read_max, read_mode, read_notifier, read_notify, read_port, read_request, read_wait};
ghost use Rattle.script_parse.specs.Kept.{event_made, made_as, unkept_of};
ghost use Rattle.script_parse.specs.Tokens.{with_rest};
ghost use Rattle.script_model.specs.ScriptGrammar.{is_event_byte, is_event_name};

use crate::atoms::{is_visible, number_of};
use crate::bytes::{beside, is_word};
use crate::calls::one_name;
use crate::tokens::Tokens;
use crate::unkept::{Made, Unkept};
use board_event_model::{EventKind, WaitMode};
use board_layout::Text;
use board_model::{LongName, Name};
use script_model::{EventName, EventRequest, ScriptLine};
use std::alloc::{AllocError, Global};

// The ids of a set are at most this.
const MOST_ID: u64 = 65535;

// Whether no slash and no backslash is among these.
fn has_event_bytes(text: &[u8]) -> bool
    ensures { result ≡ list_all is_event_byte text.now }
{
    text.iter().all(|b| *b != b'/' && *b != b'\\')
}

fn is_event_name(text: &[u8]) -> bool
    ensures { result ≡ is_event_name text.now }
{
    is_visible(text, 255) && has_event_bytes(text) && !is_word(text, b".") && !is_word(text, b"..")
}

#[tactic(auto, unfolding(script_grammar::specs::EventReading::read_event_name))]
fn event_name_of(text: &[u8]) -> Option<Text<255>>
    ensures { result ≡ read_event_name text.now }
{
    if !is_event_name(text) {
        return None;
    }
    Some(Text::of(text))
}

#[tactic(auto, unfolding(script_grammar::specs::EventReading::read_kind))]
fn kind_of(text: &[u8]) -> Option<EventKind>
    ensures { result ≡ read_kind text.now }
{
    beside(
        text,
        &[(b"bits", EventKind::Bits), (b"queue", EventKind::Queue)],
    )
}

#[tactic(auto, unfolding(script_grammar::specs::EventReading::read_mode))]
pub(crate) fn mode_of(text: &[u8]) -> Option<WaitMode>
    ensures { result ≡ read_mode text.now }
{
    beside(
        text,
        &[
            (b"try", WaitMode::Try),
            (b"timed", WaitMode::Timed),
            (b"block", WaitMode::Block),
        ],
    )
}

// Whether a wait is for all ids.
#[tactic(auto, unfolding(script_grammar::specs::EventReading::read_count))]
pub(crate) fn count_of(text: &[u8]) -> Option<bool>
    ensures { result ≡ read_count text.now }
{
    beside(text, &[(b"all", true), (b"one", false)])
}

// The greatest id of a set.
#[tactic(auto, unfolding(script_grammar::specs::EventReading::read_max))]
fn max_of(text: &[u8]) -> Option<u64>
    ensures { result ≡ read_max text.now }
{
    let max = number_of(text)?;
    if max > MOST_ID {
        return None;
    }
    Some(max)
}

impl<'a> Tokens<'a> {
    fn event_name(&mut self) -> Option<Text<255>>
        ensures { with_rest result self.new ≡ first_by read_event_name self.old }
    {
        event_name_of(self.next()?)
    }

    fn kind(&mut self) -> Option<EventKind>
        ensures { with_rest result self.new ≡ first_by read_kind self.old }
    {
        kind_of(self.next()?)
    }

    fn mode(&mut self) -> Option<WaitMode>
        ensures { with_rest result self.new ≡ first_by read_mode self.old }
    {
        mode_of(self.next()?)
    }

    fn count(&mut self) -> Option<bool>
        ensures { with_rest result self.new ≡ first_by read_count self.old }
    {
        count_of(self.next()?)
    }

    fn max(&mut self) -> Option<u64>
        ensures { with_rest result self.new ≡ first_by read_max self.old }
    {
        max_of(self.next()?)
    }

    // What asks for a port: its name, and the kind and name of the event.
    #[tactic(auto, unfolding(script_grammar::specs::EventReading::read_port))]
    fn port(&mut self) -> Option<(Name, EventKind, Text<255>)>
        ensures { with_rest result self.new ≡ read_port self.old }
    {
        let port = self.name()?;
        let kind = self.kind()?;
        let event = self.event_name()?;
        Some((port, kind, event))
    }
}

// The name of an event, for which memory is taken. Where it is refused, what the call makes: a thing of this name.
fn event_name_in(alloc: Global, event: Text<255>, name: Name) -> Result<EventName, Made>
    ensures text { IfOk result (λ text. text ≡ event) }
    ensures memory { IfErr result (λ made. made ≡ made_as name) }
{
    match LongName::new(alloc, event) {
        Ok(event) => Ok(event),
        Err(AllocError) => Err(Made {
            name,
            is_typed: true,
        }),
    }
}

#[tactic(auto, unfolding(script_grammar::specs::EventReading::read_listen, script_grammar::specs::EventReading::read_listener))]
fn listen_of(alloc: Global, tokens: &mut Tokens) -> Result<Option<EventRequest>, Made>
    ensures read { IfOk result (λ o. o ≡ read_listen tokens.old) }
    ensures memory { IfErr result (λ made. and_then (read_listen tokens.old) event_made ≡ Some made) }
{
    let Some((listener, kind, event)) = tokens.port() else {
        return Ok(None);
    };
    match kind {
        EventKind::Bits => {
            let Some(max) = tokens.max() else {
                return Ok(None);
            };
            if !tokens.is_end() {
                return Ok(None);
            }
            Ok(Some(EventRequest::ListenBits {
                listener,
                event: event_name_in(alloc, event, listener)?,
                max,
            }))
        }
        EventKind::Queue => {
            if !tokens.is_end() {
                return Ok(None);
            }
            Ok(Some(EventRequest::ListenQueue {
                listener,
                event: event_name_in(alloc, event, listener)?,
            }))
        }
    }
}

#[tactic(auto, unfolding(script_grammar::specs::EventReading::read_notifier))]
fn notifier_of(alloc: Global, tokens: &mut Tokens) -> Result<Option<EventRequest>, Made>
    ensures read { IfOk result (λ o. o ≡ read_notifier tokens.old) }
    ensures memory { IfErr result (λ made. and_then (read_notifier tokens.old) event_made ≡ Some made) }
{
    let Some((notifier, kind, event)) = tokens.port() else {
        return Ok(None);
    };
    if !tokens.is_end() {
        return Ok(None);
    }
    Ok(Some(EventRequest::Notifier {
        notifier,
        kind,
        event: event_name_in(alloc, event, notifier)?,
    }))
}

#[tactic(auto, unfolding(script_grammar::specs::EventReading::read_notify))]
fn notify_of(tokens: &mut Tokens) -> Option<EventRequest>
    ensures { result ≡ read_notify tokens.old }
{
    let notifier = tokens.name()?;
    let id = tokens.number()?;
    tokens.end()?;
    Some(EventRequest::Notify { notifier, id })
}

#[tactic(auto, unfolding(script_grammar::specs::EventReading::read_wait))]
fn wait_of(tokens: &mut Tokens) -> Option<EventRequest>
    ensures { result ≡ read_wait tokens.old }
{
    let listener = tokens.name()?;
    let many = tokens.count()?;
    let mode = tokens.mode()?;
    tokens.end()?;
    Some(EventRequest::Wait {
        listener,
        many,
        mode,
    })
}

#[tactic(auto, unfolding(script_grammar::specs::EventReading::read_request))]
fn request_of(alloc: Global, tokens: &mut Tokens) -> Result<Option<EventRequest>, Made>
    ensures read { IfOk result (λ o. o ≡ read_request tokens.old) }
    ensures memory { IfErr result (λ made. and_then (read_request tokens.old) event_made ≡ Some made) }
{
    let Some(word) = tokens.next() else {
        return Ok(None);
    };
    if is_word(word, b"listen") {
        return listen_of(alloc, tokens);
    }
    if is_word(word, b"notifier") {
        return notifier_of(alloc, tokens);
    }
    if is_word(word, b"notify") {
        return Ok(notify_of(tokens));
    }
    if is_word(word, b"wait") {
        return Ok(wait_of(tokens));
    }
    Ok(None)
}

#[tactic(auto, unfolding(script_grammar::specs::EventReading::read_event_begin))]
fn event_begin_of(alloc: Global, tokens: &mut Tokens) -> Result<Option<ScriptLine>, Unkept>
    ensures read { IfOk result (λ o. o ≡ read_event_begin tokens.old) }
    ensures memory { IfErr result (λ line. and_then (read_event_begin tokens.old) unkept_of
        ≡ Some line) }
{
    let Some(party) = tokens.name() else {
        return Ok(None);
    };
    match request_of(alloc, tokens) {
        Ok(Some(request)) => Ok(Some(ScriptLine::Event { party, request })),
        Ok(None) => Ok(None),
        Err(made) => Err(Unkept { party, made }),
    }
}

#[tactic(auto, unfolding(script_grammar::specs::EventReading::read_expire))]
fn expire_of(tokens: &mut Tokens) -> Option<ScriptLine>
    ensures { result ≡ read_expire tokens.old }
{
    let party = one_name(tokens)?;
    Some(ScriptLine::Expire { party })
}

// The line of events that these tokens make.
#[tactic(auto, unfolding(script_grammar::specs::EventReading::read_event_line))]
#[inline(never)]
pub(crate) fn event_line_of(
    alloc: Global,
    tokens: &mut Tokens,
) -> Result<Option<ScriptLine>, Unkept>
    ensures read { IfOk result (λ o. o ≡ read_event_line tokens.old) }
    ensures memory { IfErr result (λ line. and_then (read_event_line tokens.old) unkept_of
        ≡ Some line) }
{
    let Some(word) = tokens.next() else {
        return Ok(None);
    };
    if is_word(word, b"begin") {
        return event_begin_of(alloc, tokens);
    }
    if is_word(word, b"expire") {
        return Ok(expire_of(tokens));
    }
    Ok(None)
}
