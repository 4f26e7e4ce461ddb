//! The facts on events that each line of a script keeps. Each function's contract is a theorem over the definitions alone.
ghost use Rattle.script_model.specs.LawsOfSound.{NamesAgree, SessionsAreSound, StaysSound};

/// A line with a right answer keeps the facts of a script.
pub fn stays_sound()
    ensures { StaysSound }
{}

/// What holds after a lawful session speaks of no more than its lines.
pub fn sessions_are_sound()
    ensures { SessionsAreSound }
{}

/// Who holds a name and the names agree, both ways, and an event counts exactly the notifiers that parties have.
pub fn names_agree()
    ensures { NamesAgree }
{}
