//! The law of soundness. Its contract is a theorem over the definitions alone.
ghost use Rattle.board_model.specs.LawOfSoundness.{StaysSound};

/// A lawful session keeps its state sound.
pub fn stays_sound()
    ensures { StaysSound }
{}
