//! Laws of what a `get` and a `fresh` have read. Each function's contract is a theorem over the definitions alone.
ghost use Rattle.board_model.specs.LawsOfReads.{GetsReadTheLastValue, ReadsAreReplies, RepliesAreRead, RepliesComeWithTheLastWord};

/// The words of a get's last try are the last that were published, and its counter is how many there are.
pub fn gets_read_the_last_value()
    ensures { GetsReadTheLastValue }
{}

/// The reply that the words read give, of a get or a look, is that of the board asked one call at a time.
pub fn reads_are_replies()
    ensures { ReadsAreReplies }
{}

/// The words read give a reply exactly where they are all of the call's.
pub fn replies_come_with_the_last_word()
    ensures { RepliesComeWithTheLastWord }
{}

/// What a get or a look is told is what it has read.
pub fn replies_are_read()
    ensures { RepliesAreRead }
{}
