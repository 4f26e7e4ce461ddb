//! A notify as a step machine.
ghost use Rattle.std.specs.Prelude.{◌≡◌, ◌≢◌, IsTrue, ◌↔◌};
ghost use Rattle.board_event_model.specs.NotifyCalls.{notify_bits, notify_owed, notify_queue, notify_turn, pushed};
ghost use Rattle.board_event_core.specs.Turns.{notify_went_on};

use board_event_model::{EventAccess, EventAnswer, EventProgress, NotifyStage};
use board_names::NotifierNotifyError;
use std::marker::Model;

/// A notify, one access after another. Clauses see where it stands; `notify_owed` and `notify_turn` say what it owes there and what an answer leads to.
#[derive(Drop, Debug)]
pub struct NotifyCall {
    id: u64,
    max: u64,
    stage: NotifyStage,
}

impl Model for NotifyCall {
    ghost use Rattle.board_event_model.specs.NotifyCalls.{Notify};

    ghost Value = { Notify };

    ghost view = { λ c. record { id = c.id; max = c.max; stage = c.stage } };
}

impl NotifyCall {
    /// A notify of an id on bits, of an event with this greatest id.
    pub fn bits(id: u64, max: u64) -> NotifyCall
        ensures { result ≡ notify_bits id max }
    {
        NotifyCall {
            id,
            max,
            stage: NotifyStage::Look,
        }
    }

    /// A notify of an id on a queue.
    pub fn queue(id: u64) -> NotifyCall
        ensures { result ≡ notify_queue id }
    {
        NotifyCall {
            id,
            max: 0,
            stage: NotifyStage::Push,
        }
    }

    /// Whether no access is owed.
    pub fn is_done(&self) -> bool
        ensures { IsTrue result ↔ (self.now.stage ≡ NotifyStage.Finished) }
    {
        self.stage == NotifyStage::Finished
    }

    /// The access that is owed.
    pub fn next(&self) -> EventAccess
        requires { self.now.stage ≢ NotifyStage.Finished }
        ensures { result ≡ notify_owed self.now.id self.now.stage }
    {
        match self.stage {
            NotifyStage::Look => EventAccess::Listener,
            NotifyStage::Set => EventAccess::Set(self.id),
            NotifyStage::Post => EventAccess::Post,
            NotifyStage::Push => EventAccess::Push(self.id),
            NotifyStage::Finished => EventAccess::Listener,
        }
    }

    /// Takes the answer to the access that was owed, and tells what the call has come to.
    pub fn took(&mut self, answer: EventAnswer) -> EventProgress
        requires { self.old.stage ≢ NotifyStage.Finished }
        ensures progress { result ≡ (notify_turn self.old self.old.stage answer).0 }
        ensures after { self.new ≡ notify_went_on self.old answer }
    {
        let (progress, stage) = self.turn(answer);
        self.stage = stage;
        progress
    }

    /// What an answer leads to.
    fn turn(&self, answer: EventAnswer) -> (EventProgress, NotifyStage)
        ensures { result ≡ notify_turn self.now self.now.stage answer }
    {
        match self.stage {
            NotifyStage::Look => match answer {
                EventAnswer::Yes if self.id > self.max => (
                    EventProgress::Refused(NotifierNotifyError::TriggerIdOutOfBounds),
                    NotifyStage::Finished,
                ),
                EventAnswer::Yes => (EventProgress::More, NotifyStage::Set),
                _ => (
                    EventProgress::Refused(NotifierNotifyError::Disconnected),
                    NotifyStage::Finished,
                ),
            },
            NotifyStage::Set => (EventProgress::More, NotifyStage::Post),
            NotifyStage::Post => (EventProgress::Notified, NotifyStage::Finished),
            NotifyStage::Push => (pushed(answer), NotifyStage::Finished),
            NotifyStage::Finished => (EventProgress::More, NotifyStage::Finished),
        }
    }
}

/// What a push comes to.
fn pushed(answer: EventAnswer) -> EventProgress
    ensures { result ≡ pushed answer }
{
    match answer {
        EventAnswer::Done => EventProgress::Notified,
        EventAnswer::Full => { EventProgress::Refused(NotifierNotifyError::FailedToDeliverSignal) }
        _ => EventProgress::Refused(NotifierNotifyError::Disconnected),
    }
}
