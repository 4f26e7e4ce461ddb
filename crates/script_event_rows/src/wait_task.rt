//! A wait: which access it owes, and what an answer leads to.
ghost use Rattle.std.specs.Prelude.{◌≡◌, ◌≤◌, ◌<◌, ◌^◌};
ghost use Rattle.board_event_model.specs.EventCalls as calls;
ghost use Rattle.board_event_model.specs.NotifyCalls.{is_yes};
ghost use Rattle.board_event_model.specs.WaitCalls as wait;
ghost use Rattle.script_model.specs.Reports.{StartsWord};
ghost use Rattle.script_event_rows.specs.Tasks.{wait_went_on};

use board_event_model::{EventAccess, EventAnswer, EventProgress, WaitMode, WaitStage};
use std::marker::Model;

// A wait for all on a queue takes at most so many ids.
const MOST_TAKEN: u64 = 513;

// A wait for one id or for all. Contracts see the definitions' wait.
#[derive(Drop, Debug)]
pub(crate) struct WaitTask {
    words: u64,
    many: bool,
    mode: WaitMode,
    stage: WaitStage,
}

impl Model for WaitTask {
    ghost use Rattle.board_event_model.specs.WaitCalls.{Wait, wait_of};
    ghost use Rattle.script_event_rows.specs.Tasks.{IsFormedWait};

    ghost Value = { Wait };

    ghost view = { λ w. wait_of w.words w.many w.mode w.stage };

    ghost invariant = { λ w. IsFormedWait (wait_of w.words w.many w.mode w.stage) };
}

fn is_yes(answer: EventAnswer) -> bool
    ensures { result ≡ is_yes answer }
{
    matches!(answer, EventAnswer::Yes)
}

fn word_in(answer: EventAnswer) -> u64
    ensures { result ≡ wait.word_in answer }
{
    match answer {
        EventAnswer::Word(bits) => bits,
        _ => 0,
    }
}

// Where a wait goes on after its drain.
fn first_word(many: bool) -> WaitStage
    ensures { result ≡ wait.first_word many }
{
    if many {
        WaitStage::Swap {
            word: 0,
            some: false,
        }
    } else {
        WaitStage::Scan { word: 0 }
    }
}

impl WaitTask {
    // On a set of so many words.
    pub(crate) fn on_set(words: u64, many: bool, mode: WaitMode) -> WaitTask
        requires some { 1 ≤ words }
        requires few { words ≤ 2 ^ 58 }
        ensures { result ≡ wait.wait_bits words many mode }
    {
        WaitTask {
            words,
            many,
            mode,
            stage: WaitStage::Drain,
        }
    }

    // On a queue.
    pub(crate) fn on_queue(many: bool, mode: WaitMode) -> WaitTask
        ensures { result ≡ wait.wait_queue many mode }
    {
        WaitTask {
            words: 1,
            many,
            mode,
            stage: WaitStage::Pop { taken: 0 },
        }
    }

    // Whether it waits for all ids.
    pub(crate) fn is_for_all(&self) -> bool
        ensures { result ≡ self.now.many }
    {
        self.many
    }

    // Whether it may be let expire at all.
    pub(crate) fn is_timed(&self) -> bool
        ensures { result ≡ calls.is_timed (calls.a_wait self.now) }
    {
        match self.mode {
            WaitMode::Timed => true,
            WaitMode::Try => false,
            WaitMode::Block => false,
        }
    }

    // The access that is owed.
    pub(crate) fn owed(&self) -> EventAccess
        ensures { result ≡ wait.wait_owed self.now.stage }
    {
        match self.stage {
            WaitStage::Drain => EventAccess::Signal,
            WaitStage::Scan { word } => EventAccess::Scan(word),
            WaitStage::Clear { id } => EventAccess::Clear(id),
            WaitStage::Swap { word, some: _ } => EventAccess::Swap(word),
            WaitStage::Look => EventAccess::Signal,
            WaitStage::Pop { taken: _ } => EventAccess::Pop,
            WaitStage::Finished => EventAccess::Listener,
        }
    }

    // Goes on with the answer to the access that was owed, and tells what it has come to.
    pub(crate) fn took(&mut self, answer: EventAnswer) -> EventProgress
        ensures progress { result ≡ (wait.wait_turn self.old self.old.stage answer).0 }
        ensures after { self.new ≡ wait_went_on self.old answer }
        ensures word { StartsWord result }
    {
        let (progress, stage) = self.turn(answer);
        self.stage = stage;
        progress
    }

    fn turn(&self, answer: EventAnswer) -> (EventProgress, WaitStage)
        ensures turn { result ≡ wait.wait_turn self.now self.now.stage answer }
        ensures word { StartsWord result.0 }
    {
        match self.stage {
            WaitStage::Drain => {
                let stage = if is_yes(answer) {
                    WaitStage::Drain
                } else {
                    first_word(self.many)
                };
                (EventProgress::More, stage)
            }
            WaitStage::Scan { word } => self.scanned(word, word_in(answer)),
            WaitStage::Clear { id } => (EventProgress::Id { id, last: true }, WaitStage::Finished),
            WaitStage::Swap { word, some } => self.swapped(word, some, word_in(answer)),
            WaitStage::Look => {
                if is_yes(answer) {
                    (EventProgress::More, WaitStage::Drain)
                } else {
                    (EventProgress::Waiting, WaitStage::Look)
                }
            }
            WaitStage::Pop { taken } => self.popped(taken, answer),
            WaitStage::Finished => (EventProgress::More, WaitStage::Finished),
        }
    }

    // All words were empty.
    fn nothing(&self) -> (EventProgress, WaitStage)
        ensures turn { result ≡ wait.nothing self.now }
        ensures word { StartsWord result.0 }
    {
        match self.mode {
            WaitMode::Try => (EventProgress::Nothing, WaitStage::Finished),
            _ => (EventProgress::More, WaitStage::Look),
        }
    }

    // A word was read.
    fn scanned(&self, word: u64, bits: u64) -> (EventProgress, WaitStage)
        requires within { word < self.now.words }
        requires few { self.now.words ≤ 2 ^ 58 }
        ensures turn { result ≡ wait.scanned self.now word bits }
        ensures word { StartsWord result.0 }
    {
        if bits != 0 {
            let id = 64 * word + u64::from(bits.trailing_zeros());
            return (EventProgress::More, WaitStage::Clear { id });
        }
        if word + 1 == self.words {
            self.nothing()
        } else {
            (EventProgress::More, WaitStage::Scan { word: word + 1 })
        }
    }

    // A word was taken.
    fn swapped(&self, word: u64, some: bool, bits: u64) -> (EventProgress, WaitStage)
        requires within { word < self.now.words }
        requires few { self.now.words ≤ 2 ^ 58 }
        ensures turn { result ≡ wait.swapped self.now word some bits }
        ensures word { StartsWord result.0 }
    {
        let base = 64 * word;
        if word + 1 == self.words {
            if some || bits != 0 {
                let took = EventProgress::Took {
                    base,
                    bits,
                    last: true,
                };
                (took, WaitStage::Finished)
            } else {
                self.nothing()
            }
        } else if bits == 0 {
            let stage = WaitStage::Swap {
                word: word + 1,
                some,
            };
            (EventProgress::More, stage)
        } else {
            let took = EventProgress::Took {
                base,
                bits,
                last: false,
            };
            let stage = WaitStage::Swap {
                word: word + 1,
                some: true,
            };
            (took, stage)
        }
    }

    // A pop was answered.
    fn popped(&self, taken: u64, answer: EventAnswer) -> (EventProgress, WaitStage)
        requires few { taken < 513 }
        ensures turn { result ≡ wait.popped self.now taken answer }
        ensures word { StartsWord result.0 }
    {
        match answer {
            EventAnswer::Id(id) => {
                if self.many && taken + 1 != MOST_TAKEN {
                    let stage = WaitStage::Pop { taken: taken + 1 };
                    (EventProgress::Id { id, last: false }, stage)
                } else {
                    (EventProgress::Id { id, last: true }, WaitStage::Finished)
                }
            }
            _ => self.found_none(taken),
        }
    }

    // A pop found nothing.
    fn found_none(&self, taken: u64) -> (EventProgress, WaitStage)
        ensures turn { result ≡ wait.popped self.now taken EventAnswer.Empty }
        ensures word { StartsWord result.0 }
    {
        if taken != 0 {
            let took = EventProgress::Took {
                base: 0,
                bits: 0,
                last: true,
            };
            return (took, WaitStage::Finished);
        }
        match self.mode {
            WaitMode::Try => (EventProgress::Nothing, WaitStage::Finished),
            _ => (EventProgress::Waiting, WaitStage::Pop { taken: 0 }),
        }
    }
}
