//! An update that was worked out by hand: each of its steps writes one word, and none is written before its step.
ghost use Rattle.board_model.specs.LawfulSession.{IsLawful};
ghost use Rattle.board_model.specs.WorkedUpdates.{after_all_words, after_one_word, updated};

/// An update of four words writes one of them in each of its first four steps.
pub fn an_update_writes_a_word_a_step()
    ensures { IsLawful (updated after_one_word) }
{}

/// The same update is wrong where all four words stand after its first step, though its steps are answered as before.
pub fn an_update_at_once_is_wrong()
    ensures { IsLawful (updated after_all_words) → ⊥ }
{}
