//! Laws for programs that stand on scripts. Each function's contract is a theorem over the definitions alone.
ghost use Rattle.script_model.specs.LawsOfLines.{BoardStepsAreAlone, LinesLeaveParties, LinesLengthenLists, NewBoardsHaveOneValueEach, PairsAreOfBoards, PartsJoin, PublicationsAreOfBoards, SessionsLengthenLists};

/// A party that a line doesn't name holds what it held, and what it runs is where it was.
pub fn lines_leave_parties()
    ensures { LinesLeaveParties }
{}

/// A line makes a published list longer by one exactly where it ends a publication of the entry, and leaves what stands in it.
pub fn lines_lengthen_lists()
    ensures { LinesLengthenLists }
{}

/// A board that wasn't drawn before a line has no list after it; or the line made it, and each of its entries has one value.
pub fn new_boards_have_one_value_each()
    ensures { NewBoardsHaveOneValueEach }
{}

/// The boards' part of two sessions, one after the other, is that of both.
pub fn parts_join()
    ensures { PartsJoin }
{}

/// A step of a party whose call on boards runs is the boards' alone.
pub fn board_steps_are_alone()
    ensures { BoardStepsAreAlone }
{}

/// Two pairs of boards in a script are two pairs of a lawful session of boards, with the boards' part of what came before and between, so that session's laws hold of them.
pub fn pairs_are_of_boards()
    ensures { PairsAreOfBoards }
{}

/// After a session a published list is longer by as many items as publications of the entry ended in it.
pub fn sessions_lengthen_lists()
    ensures { SessionsLengthenLists }
{}

/// A session publishes as many values of an entry as its boards' part.
pub fn publications_are_of_boards()
    ensures { PublicationsAreOfBoards }
{}
