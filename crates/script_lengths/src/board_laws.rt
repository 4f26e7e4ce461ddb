//! Laws of the sizes of boards, and of the answers that tell of them. Each function's contract is a theorem over the definitions alone.
ghost use Rattle.script_lengths.specs.BoardSizes.{BoardsStaySmall, CreatesAreSmall, RightAnswersAreShort, RightAnswersAreSized};

/// A line of at most 4096 bytes adds few entries, and these ask for few bytes.
pub fn creates_are_small()
    ensures { CreatesAreSmall }
{}

/// After a session of lines of at most 4096 bytes each board has few entries and words.
pub fn boards_stay_small()
    ensures { BoardsStaySmall }
{}

/// A right answer tells as few words, keys and nodes.
pub fn right_answers_are_sized()
    ensures { RightAnswersAreSized }
{}

/// The text of a right answer is short.
pub fn right_answers_are_short()
    ensures { RightAnswersAreShort }
{}
