//! Sessions that were worked out by hand, and whether they are lawful.
ghost use Rattle.board_model.specs.LawfulSession.{IsLawful, Session};
ghost use Rattle.board_model.specs.WorkedSessions.{a_get_that_meets_one_update, a_get_that_meets_two_updates, a_loan_forgets_its_words, a_stale_value, a_writer_abandoned_in_an_update, an_update_in_place, no_second_look, the_first_run};

/// One party makes a board of two numbers, and updates one.
pub fn the_first_run_is_lawful()
    ensures { IsLawful the_first_run }
{}

/// A get that meets one update reads both copies, and gives the later value.
pub fn a_get_may_meet_one_update()
    ensures { IsLawful a_get_that_meets_one_update }
{}

/// A get may meet two updates of four words.
pub fn a_get_may_meet_two_updates()
    ensures { IsLawful a_get_that_meets_two_updates }
{}

/// After an update that was given up in the middle the value before it stands, and so does the writer.
pub fn a_writer_may_be_abandoned()
    ensures { IsLawful a_writer_abandoned_in_an_update }
{}

/// A loan that is given back and taken anew has no words.
pub fn a_loan_may_forget_its_words()
    ensures { IsLawful a_loan_forgets_its_words }
{}

/// A get may not give the value before the last update.
pub fn a_stale_value_is_wrong()
    ensures { IsLawful a_stale_value → ⊥ }
{}

/// A get may not end without a second look at the counter.
pub fn no_second_look_is_wrong()
    ensures { IsLawful no_second_look → ⊥ }
{}

/// An update may not write into the current copy.
pub fn an_update_in_place_is_wrong()
    ensures { IsLawful an_update_in_place → ⊥ }
{}
