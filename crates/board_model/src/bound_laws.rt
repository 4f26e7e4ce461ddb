//! Laws of bounds: owed words lie in their boards, and what a session draws and writes are numbers of 64 bits. Each function's contract is a theorem over the definitions alone.
ghost use Rattle.board_model.specs.LawsOfBounds.{BeginsBounded, LinesDrawOne, LinesKeepNumbers, OwedReadsAreInside, OwedWritesAreInside, OwedWritesAreNumbers, SessionsDrawTheirLength, SessionsKeepNumbers};

/// The word that a running call is to read is one of its board's, and these are few.
pub fn owed_reads_are_inside()
    ensures { OwedReadsAreInside }
{}

/// The word that a running call is to write is one of its board's, and these are few.
pub fn owed_writes_are_inside()
    ensures { OwedWritesAreInside }
{}

/// A line draws at most one board number and one port number, and makes no list longer by more than one.
pub fn lines_draw_one()
    ensures { LinesDrawOne }
{}

/// A session draws no more numbers than it has lines, and no entry has more values.
pub fn sessions_draw_their_length()
    ensures { SessionsDrawTheirLength }
{}

/// The word that is owed to be written is below 2^64, in a session of fewer than 2^63 lines.
pub fn owed_writes_are_numbers()
    ensures { OwedWritesAreNumbers }
{}

/// A right line keeps the words of the memory, and those of the calls that run, below 2^64.
pub fn lines_keep_numbers()
    ensures { LinesKeepNumbers }
{}

/// Before the first line nothing was drawn or written.
pub fn begins_bounded()
    ensures { BeginsBounded }
{}

/// After a session of fewer than 2^63 lines every word of the memory is below 2^64.
pub fn sessions_keep_numbers()
    ensures { SessionsKeepNumbers }
{}
