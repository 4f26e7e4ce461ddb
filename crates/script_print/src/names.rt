//! The lines of refusals, and the words of types and errors.
ghost use Rattle.std.specs.Prelude.{◌≡◌, ◌++◌, codes};
ghost use Rattle.board_model.specs.declared.answer.Answer.TheVariants as answer;
ghost use Rattle.board_model.specs.AnswerGrammar.{answer_line, create_error_text, entry_error_text, entry_mut_error_text, open_error_text, reader_error_text, writer_error_text};
ghost use Rattle.board_model.specs.LineGrammar.{key_type_text};
ghost use Rattle.script_model.specs.ScriptAnswers.{notify_error_text};

use board_model::{KeyType, Reason};
use board_names::{
    BlackboardCreateError, BlackboardOpenError, EntryHandleError, EntryHandleMutError,
    NotifierNotifyError, ReaderCreateError, WriterCreateError,
};

/// The line that refuses a line for this reason.
pub(crate) fn refusal_line(reason: Reason) -> &'static [u8]
    ensures { result.now ≡ answer_line (answer.Refused reason) }
{
    match reason {
        Reason::Abandoned => b"refused abandoned\n",
        Reason::Busy => b"refused busy\n",
        Reason::Idle => b"refused idle\n",
        Reason::Unknown => b"refused unknown\n",
        Reason::Taken => b"refused taken\n",
        Reason::Type => b"refused type\n",
        Reason::Index => b"refused index\n",
        Reason::Unfilled => b"refused unfilled\n",
        Reason::NotWaiting => b"refused notwaiting\n",
        Reason::NoBoard => b"refused noboard\n",
    }
}

pub(crate) fn key_type_name(key_type: KeyType) -> &'static [u8]
    ensures { result.now ≡ key_type_text key_type }
{
    match key_type {
        KeyType::U64 => b"u64",
        KeyType::F8 => b"f8",
    }
}

// The path of an error, as `EntryHandleError::EntryDoesNotExist`.
macro_rules! error_path {
    ($error:expr, $enum:ident { $($case:ident $(($field:tt))?),* $(,)? }) => {
        match $error {
            $($enum::$case $(($field))? => concat!(stringify!($enum), "::", stringify!($case)).as_bytes(),)*
        }
    };
}

pub(crate) fn create_error_path(error: BlackboardCreateError) -> &'static [u8]
    ensures { result.now ≡ codes "BlackboardCreateError::" ++ create_error_text error }
{
    error_path!(
        error,
        BlackboardCreateError {
            AlreadyExists,
            IsBeingCreatedByAnotherInstance,
            InternalFailure,
            InsufficientPermissions,
            ServiceInCorruptedState,
            HangsInCreation,
            NoEntriesProvided,
            NumbersSpent,
            OutOfMemory,
        }
    )
}

pub(crate) fn open_error_path(error: BlackboardOpenError) -> &'static [u8]
    ensures { result.now ≡ codes "BlackboardOpenError::" ++ open_error_text error }
{
    error_path!(
        error,
        BlackboardOpenError {
            DoesNotExist,
            ServiceInCorruptedState,
            IncompatibleKeys,
            InternalFailure,
            IncompatibleAttributes,
            IncompatibleMessagingPattern,
            DoesNotSupportRequestedAmountOfReaders,
            InsufficientPermissions,
            HangsInCreation,
            IsMarkedForDestruction,
            ExceedsMaxNumberOfNodes,
            DoesNotSupportRequestedAmountOfNodes,
            NumbersSpent,
            OutOfMemory,
        }
    )
}

pub(crate) fn reader_error_path(error: ReaderCreateError) -> &'static [u8]
    ensures { result.now ≡ codes "ReaderCreateError::" ++ reader_error_text error }
{
    error_path!(error, ReaderCreateError {
        ExceedsMaxSupportedReaders, FailedToDeployThreadsafetyPolicy, UnableToCreatePortTag,
        ThingUnknown(_), NumbersSpent, OutOfMemory,
    })
}

pub(crate) fn writer_error_path(error: WriterCreateError) -> &'static [u8]
    ensures { result.now ≡ codes "WriterCreateError::" ++ writer_error_text error }
{
    error_path!(error, WriterCreateError {
        ExceedsMaxSupportedWriters, InternalFailure, FailedToDeployThreadsafetyPolicy,
        UnableToCreatePortTag, ThingUnknown(_), NumbersSpent, OutOfMemory,
    })
}

pub(crate) fn entry_error_path(error: EntryHandleError) -> &'static [u8]
    ensures { result.now ≡ codes "EntryHandleError::" ++ entry_error_text error }
{
    error_path!(error, EntryHandleError {
        EntryDoesNotExist, ThingUnknown(_), NumbersSpent, OutOfMemory,
    })
}

pub(crate) fn entry_mut_error_path(error: EntryHandleMutError) -> &'static [u8]
    ensures { result.now ≡ codes "EntryHandleMutError::" ++ entry_mut_error_text error }
{
    error_path!(error, EntryHandleMutError {
        EntryDoesNotExist, HandleAlreadyExists, ThingUnknown(_), NumbersSpent, OutOfMemory,
    })
}

pub(crate) fn notify_error_path(error: NotifierNotifyError) -> &'static [u8]
    ensures { result.now ≡ codes "NotifierNotifyError::" ++ notify_error_text error }
{
    error_path!(
        error,
        NotifierNotifyError {
            Interrupt,
            FailedToDeliverSignal,
            TriggerIdOutOfBounds,
            Disconnected,
            InternalFailure,
        }
    )
}
