//! A wait as a step machine.
ghost use Rattle.std.specs.Prelude.{◌≡◌, ◌≢◌, ◌≤◌, ◌<◌, ◌^◌, IsTrue, ◌↔◌};
ghost use Rattle.board_event_model.specs.NotifyCalls.{is_yes};
ghost use Rattle.board_event_model.specs.WaitCalls.{word_in, wait_bits, wait_queue, wait_owed, wait_turn, nothing, scanned, swapped, popped, least_id, first_word};
ghost use Rattle.board_event_core.specs.Passing.{GoesOnTo, word_at, word_of};
ghost use Rattle.board_event_core.specs.Turns.{wait_went_on};

use board_event_model::{EventAccess, EventAnswer, EventProgress, WaitMode, WaitStage};
use std::marker::Model;

/// A wait, one access after another. Clauses see where it stands; `wait_owed` and `wait_turn` say what it owes there and what an answer leads to.
#[derive(Drop, Debug)]
pub struct WaitCall {
    words: u64,
    many: bool,
    mode: WaitMode,
    stage: WaitStage,
}

impl Model for WaitCall {
    ghost use Rattle.board_event_model.specs.WaitCalls.{Wait, wait_of};
    ghost use Rattle.board_event_core.specs.Waits.{IsWait};

    ghost Value = { Wait };

    ghost view = { λ c. wait_of c.words c.many c.mode c.stage };

    ghost invariant = { λ c. IsWait (wait_of c.words c.many c.mode c.stage) };
}

impl WaitCall {
    /// A wait on bits, of a set of so many words, for one id or for all.
    pub fn bits(words: u64, many: bool, mode: WaitMode) -> WaitCall
        requires some { 1 ≤ words }
        requires few { words ≤ 2 ^ 58 }
        ensures { result ≡ wait_bits words many mode }
    {
        WaitCall {
            words,
            many,
            mode,
            stage: WaitStage::Drain,
        }
    }

    /// A wait on a queue, for one id or for all.
    pub fn queue(many: bool, mode: WaitMode) -> WaitCall
        ensures { result ≡ wait_queue many mode }
    {
        WaitCall {
            words: 1,
            many,
            mode,
            stage: WaitStage::Pop { taken: 0 },
        }
    }

    /// Whether it waits for all ids.
    pub fn is_many(&self) -> bool
        ensures { result ≡ self.now.many }
    {
        self.many
    }

    /// How long it goes on.
    pub fn mode(&self) -> WaitMode
        ensures { result ≡ self.now.mode }
    {
        self.mode
    }

    /// Whether no access is owed.
    pub fn is_done(&self) -> bool
        ensures { IsTrue result ↔ (self.now.stage ≡ WaitStage.Finished) }
    {
        self.stage == WaitStage::Finished
    }

    /// The word that it is to look at, where it is to look at one.
    pub fn word(&self) -> Option<u64>
        ensures { result ≡ word_of self.now.stage }
    {
        match self.stage {
            WaitStage::Scan { word } => Some(word),
            WaitStage::Swap { word, some: _ } => Some(word),
            _ => None,
        }
    }

    /// Goes on as it would with answers that words have no ids, to this word or to its last.
    pub(crate) fn go_on_to(&mut self, other: u64)
        requires { word_at self.old.stage ≤ other }
        ensures to { GoesOnTo other self.old self.new }
        ensures on { self.old.stage ≢ WaitStage.Finished → self.new.stage ≢ WaitStage.Finished }
    {
        let word = other.min(self.words - 1);
        match self.stage {
            WaitStage::Scan { word: _ } => self.stage = WaitStage::Scan { word },
            WaitStage::Swap { word: _, some } => self.stage = WaitStage::Swap { word, some },
            _ => {}
        }
    }

    /// The access that is owed.
    pub fn next(&self) -> EventAccess
        requires { self.now.stage ≢ WaitStage.Finished }
        ensures { result ≡ wait_owed self.now.stage }
    {
        match self.stage {
            WaitStage::Drain => EventAccess::Signal,
            WaitStage::Scan { word } => EventAccess::Scan(word),
            WaitStage::Clear { id } => EventAccess::Clear(id),
            WaitStage::Swap { word, some: _ } => EventAccess::Swap(word),
            WaitStage::Look => EventAccess::Signal,
            WaitStage::Pop { taken: _ } => EventAccess::Pop,
            WaitStage::Finished => EventAccess::Listener,
        }
    }

    /// Takes the answer to the access that was owed, and tells what the call has come to.
    pub fn took(&mut self, answer: EventAnswer) -> EventProgress
        requires { self.old.stage ≢ WaitStage.Finished }
        ensures progress { result ≡ (wait_turn self.old self.old.stage answer).0 }
        ensures after { self.new ≡ wait_went_on self.old answer }
    {
        let (progress, stage) = self.turn(answer);
        self.stage = stage;
        progress
    }

    /// What an answer leads to.
    fn turn(&self, answer: EventAnswer) -> (EventProgress, WaitStage)
        ensures { result ≡ wait_turn self.now self.now.stage answer }
    {
        match self.stage {
            WaitStage::Drain => {
                let stage = if is_yes(answer) {
                    WaitStage::Drain
                } else {
                    first_word(self.many)
                };
                (EventProgress::More, stage)
            }
            WaitStage::Scan { word } => self.scanned(word, word_in(answer)),
            WaitStage::Clear { id } => (EventProgress::Id { id, last: true }, WaitStage::Finished),
            WaitStage::Swap { word, some } => self.swapped(word, some, word_in(answer)),
            WaitStage::Look => {
                if is_yes(answer) {
                    (EventProgress::More, WaitStage::Drain)
                } else {
                    (EventProgress::Waiting, WaitStage::Look)
                }
            }
            WaitStage::Pop { taken } => self.popped(taken, answer),
            WaitStage::Finished => (EventProgress::More, WaitStage::Finished),
        }
    }

    /// All words were empty.
    fn nothing(&self) -> (EventProgress, WaitStage)
        ensures { result ≡ nothing self.now }
    {
        match self.mode {
            WaitMode::Try => (EventProgress::Nothing, WaitStage::Finished),
            _ => (EventProgress::More, WaitStage::Look),
        }
    }

    /// A word was read.
    fn scanned(&self, word: u64, bits: u64) -> (EventProgress, WaitStage)
        requires within { word < self.now.words }
        requires few { self.now.words ≤ 2 ^ 58 }
        ensures { result ≡ scanned self.now word bits }
    {
        if bits != 0 {
            return (
                EventProgress::More,
                WaitStage::Clear {
                    id: 64 * word + u64::from(bits.trailing_zeros()),
                },
            );
        }
        if word + 1 == self.words {
            self.nothing()
        } else {
            (EventProgress::More, WaitStage::Scan { word: word + 1 })
        }
    }

    /// A word was taken.
    fn swapped(&self, word: u64, some: bool, bits: u64) -> (EventProgress, WaitStage)
        requires within { word < self.now.words }
        requires few { self.now.words ≤ 2 ^ 58 }
        ensures { result ≡ swapped self.now word some bits }
    {
        if word + 1 == self.words {
            if some || bits != 0 {
                (
                    EventProgress::Took {
                        base: 64 * word,
                        bits,
                        last: true,
                    },
                    WaitStage::Finished,
                )
            } else {
                self.nothing()
            }
        } else if bits == 0 {
            (
                EventProgress::More,
                WaitStage::Swap {
                    word: word + 1,
                    some,
                },
            )
        } else {
            (
                EventProgress::Took {
                    base: 64 * word,
                    bits,
                    last: false,
                },
                WaitStage::Swap {
                    word: word + 1,
                    some: true,
                },
            )
        }
    }

    /// A pop was answered.
    fn popped(&self, taken: u64, answer: EventAnswer) -> (EventProgress, WaitStage)
        requires few { taken < 513 }
        ensures { result ≡ popped self.now taken answer }
    {
        match answer {
            EventAnswer::Id(id) => {
                if self.many && taken + 1 != 513 {
                    (
                        EventProgress::Id { id, last: false },
                        WaitStage::Pop { taken: taken + 1 },
                    )
                } else {
                    (EventProgress::Id { id, last: true }, WaitStage::Finished)
                }
            }
            _ => self.found_none(taken),
        }
    }

    /// A pop found nothing.
    fn found_none(&self, taken: u64) -> (EventProgress, WaitStage)
        ensures { result ≡ popped self.now taken EventAnswer.Empty }
    {
        if taken != 0 {
            return (
                EventProgress::Took {
                    base: 0,
                    bits: 0,
                    last: true,
                },
                WaitStage::Finished,
            );
        }
        match self.mode {
            WaitMode::Try => (EventProgress::Nothing, WaitStage::Finished),
            _ => (EventProgress::Waiting, WaitStage::Pop { taken: 0 }),
        }
    }
}

/// Whether a look was answered yes.
fn is_yes(answer: EventAnswer) -> bool
    ensures { result ≡ is_yes answer }
{
    matches!(answer, EventAnswer::Yes)
}

/// The word that an answer gives.
fn word_in(answer: EventAnswer) -> u64
    ensures { result ≡ word_in answer }
{
    match answer {
        EventAnswer::Word(bits) => bits,
        _ => 0,
    }
}

/// Where a wait goes on after its drain.
fn first_word(many: bool) -> WaitStage
    ensures { result ≡ first_word many }
{
    if many {
        WaitStage::Swap {
            word: 0,
            some: false,
        }
    } else {
        WaitStage::Scan { word: 0 }
    }
}
