//! What a party knows of its waits by the answers to its own lines. The function's contract is a theorem over the definitions alone.
ghost use Rattle.script_moments.specs.LawsOfWaits.{WaitsTellTruth};

use script_model::event_laws::{expiries_are_true, printed_steps_are_taken, replies_are_true};

/// A party that is told an id took that id itself, and a wait that expired missed none: by the laws of printed steps, of replies and of expiries.
pub fn waits_tell_truth()
    ensures { WaitsTellTruth }
{
    printed_steps_are_taken();
    replies_are_true();
    expiries_are_true();
}
