//! Laws of what a line leaves. Each function's contract is a theorem over the definitions alone.
ghost use Rattle.board_model.specs.LawsOfOthers.{BoardsStay, LinesLeaveOthers, NamesAreOfOneBoard, NumbersAreNeverUsedAgain, NumbersAreOfOneBoard};

/// A party that a line doesn't name holds what it held, and its call runs on.
pub fn lines_leave_others()
    ensures { LinesLeaveOthers }
{}

/// A board that stands is the same after a right line, if it still stands.
pub fn boards_stay()
    ensures { BoardsStay }
{}

/// After a lawful session a board that stood is the same, if it still stands: no other board ever gets its number.
pub fn numbers_are_of_one_board()
    ensures { NumbersAreOfOneBoard }
{}

/// A number that was drawn and that no board has stays without one: what goes doesn't come back.
pub fn numbers_are_never_used_again()
    ensures { NumbersAreNeverUsedAgain }
{}

/// After a lawful session the boards that stand have different names.
pub fn names_are_of_one_board()
    ensures { NamesAreOfOneBoard }
{}
