//! Laws of entry ids. Each function's contract is a theorem over the definitions alone.
ghost use Rattle.board_model.specs.LawsOfIds.{EntriesHaveOtherPlaces, HandlesTellAlike, HandlesTellNoOtherIds, HandlesTellTheirIds};
ghost use Rattle.board_model.specs.LawsOfIds.{LaterHandlesTellAlike, LaterHandlesTellOtherIds, OneKeyOneId, OtherEntriesOtherIds, OtherEntriesTellOtherIds};

/// Two entries of a board have two places.
pub fn entries_have_other_places()
    ensures { EntriesHaveOtherPlaces }
{}

/// The entry and its id of a key are the same for read and write handle, at any two moments of a session.
pub fn one_key_one_id()
    ensures { OneKeyOneId }
{}

/// The ids of two entries of a board differ.
pub fn other_entries_other_ids()
    ensures { OtherEntriesOtherIds }
{}

/// A handle that is asked for its id tells the one that was told when a handle of its entry was made.
pub fn handles_tell_their_ids()
    ensures { HandlesTellTheirIds }
{}

/// Two handles of one entry tell the same id, at any two moments of a session.
pub fn handles_tell_alike()
    ensures { HandlesTellAlike }
{}

/// A handle that is made later tells the id that an earlier one of its entry told.
pub fn later_handles_tell_alike()
    ensures { LaterHandlesTellAlike }
{}

/// Handles of two entries of a board tell two ids, at any two moments of a session.
pub fn other_entries_tell_other_ids()
    ensures { OtherEntriesTellOtherIds }
{}

/// A handle that is asked for its id tells another one than was told when a handle of another entry of the board was made.
pub fn handles_tell_no_other_ids()
    ensures { HandlesTellNoOtherIds }
{}

/// A handle that is made later tells another id than an earlier one of another entry of the board told.
pub fn later_handles_tell_other_ids()
    ensures { LaterHandlesTellOtherIds }
{}
