//! Runs that were worked out by hand, and whether they are runs.
ghost use Rattle.board_event_model.specs.WorkedRuns.{RunsOnBits, RunsOnQueue, RunsOnTwoWords, a_look_before_the_post, a_made_up_id, a_post_before_the_set, a_wait_between_words, an_expire_after_a_look, an_expire_after_a_pop, an_expire_after_a_signal, an_expire_after_an_id, an_expire_after_the_drain, an_expire_between_words, an_expire_for_all_after_a_pop, an_expire_of_a_blocking_wait, an_expire_of_a_wait_for_all, an_expire_that_drops_an_id, an_expire_that_leaves_an_id, an_expire_that_misses_an_id};

/// A waiting look may miss an id that was set and whose signal wasn't posted yet.
pub fn a_look_may_come_before_the_post()
    ensures { RunsOnBits a_look_before_the_post }
{}

/// A timed wait may expire after a waiting look that found nothing: on bits one for one and one for all, and on a queue either after a pop.
pub fn a_timed_wait_may_expire()
    ensures one { RunsOnBits an_expire_after_a_look }
    ensures all { RunsOnBits an_expire_of_a_wait_for_all }
    ensures queue { RunsOnQueue an_expire_after_a_pop }
    ensures queue_all { RunsOnQueue an_expire_for_all_after_a_pop }
{}

/// A notify may not post before it has set.
pub fn a_post_before_the_set_is_wrong()
    ensures { RunsOnBits a_post_before_the_set → ⊥ }
{}

/// A wait may not find an id that isn't pending.
pub fn a_made_up_id_is_wrong()
    ensures { RunsOnBits a_made_up_id → ⊥ }
{}

/// A wait that hasn't made its waiting look doesn't expire, nor one whose look found a signal, and a blocking one never does.
/// So a wait for all doesn't expire while an id is left that was pending at its first step, nor once it has taken one, on bits or
/// on a queue.
pub fn an_early_expire_is_wrong()
    ensures timed { RunsOnBits an_expire_after_the_drain → ⊥ }
    ensures signal { RunsOnBits an_expire_after_a_signal → ⊥ }
    ensures blocking { RunsOnBits an_expire_of_a_blocking_wait → ⊥ }
    ensures all { RunsOnBits an_expire_that_leaves_an_id → ⊥ }
    ensures taken { RunsOnBits an_expire_that_drops_an_id → ⊥ }
    ensures popped { RunsOnQueue an_expire_after_an_id → ⊥ }
{}

/// A wait for all doesn't expire with an id left that was pending at its first step: it can't be told that the id's word is
/// empty, and it doesn't expire before it has taken that word.
pub fn an_expire_with_an_id_left_is_wrong()
    ensures missed { RunsOnBits an_expire_that_misses_an_id → ⊥ }
    ensures between { RunsOnTwoWords a_wait_between_words }
    ensures early { RunsOnTwoWords an_expire_between_words → ⊥ }
{}
