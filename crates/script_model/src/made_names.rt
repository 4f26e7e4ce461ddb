//! The names of the things that calls make. A party holds no two things under one name, be they of boards or of events.
ghost use Rattle.std.specs.Prelude.{◌≡◌};
ghost use Rattle.board_model.specs.Requests as requests;
ghost use Rattle.script_model.specs.ScriptEvents as events;

use crate::line::EventRequest;
use board_model::{Call, Name};

/// The name of the thing that a call on boards makes, or turns another one into, where there is one.
pub fn new_name(call: &Call) -> Option<Name>
    ensures { result ≡ requests.new_name call.now }
{
    match call {
        Call::Create { factory, .. } => Some(*factory),
        Call::Open { factory, .. } => Some(*factory),
        Call::Reader { reader, .. } => Some(*reader),
        Call::Writer { writer, .. } => Some(*writer),
        Call::Entry { handle, .. } => Some(*handle),
        Call::EntryMut { handle, .. } => Some(*handle),
        Call::Get { value, .. } => *value,
        Call::Loan { loan, .. } => Some(*loan),
        Call::Discard { handle, .. } => Some(*handle),
        Call::Publish { handle, .. } => Some(*handle),
        Call::Fill { handle, .. } => Some(*handle),
        _ => None,
    }
}

/// The name of the listener or notifier that a call on events makes, where it makes one.
pub fn name_made(request: &EventRequest) -> Option<Name>
    ensures { result ≡ events.name_made request.now }
{
    match request {
        EventRequest::ListenBits { listener, .. } => Some(*listener),
        EventRequest::ListenQueue { listener, .. } => Some(*listener),
        EventRequest::Notifier { notifier, .. } => Some(*notifier),
        _ => None,
    }
}
