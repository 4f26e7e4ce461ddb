//! A notify: which access it owes, and what an answer leads to.
ghost use Rattle.std.specs.Prelude.{◌≡◌};
ghost use Rattle.board_event_model.specs.NotifyCalls as notify;
ghost use Rattle.script_event_rows.specs.Tasks.{notify_went_on};

use board_event_model::{EventAccess, EventAnswer, EventProgress, NotifyStage};
use board_names::NotifierNotifyError;
use std::marker::Model;

// A notify of an id. Contracts see the definitions' notify.
#[derive(Drop, Debug)]
pub(crate) struct NotifyTask {
    id: u64,
    max: u64,
    stage: NotifyStage,
}

impl Model for NotifyTask {
    ghost use Rattle.board_event_model.specs.NotifyCalls.{Notify};

    ghost Value = { Notify };

    ghost view = { λ n. record { id = n.id; max = n.max; stage = n.stage } };
}

// What the only access on a queue leads to.
fn pushed(answer: EventAnswer) -> EventProgress
    ensures { result ≡ notify.pushed answer }
{
    match answer {
        EventAnswer::Done => EventProgress::Notified,
        EventAnswer::Full => EventProgress::Refused(NotifierNotifyError::FailedToDeliverSignal),
        _ => EventProgress::Refused(NotifierNotifyError::Disconnected),
    }
}

impl NotifyTask {
    // On a set with this greatest id.
    pub(crate) fn on_set(id: u64, max: u64) -> NotifyTask
        ensures { result ≡ notify.notify_bits id max }
    {
        NotifyTask {
            id,
            max,
            stage: NotifyStage::Look,
        }
    }

    // On a queue.
    pub(crate) fn on_queue(id: u64) -> NotifyTask
        ensures { result ≡ notify.notify_queue id }
    {
        NotifyTask {
            id,
            max: 0,
            stage: NotifyStage::Push,
        }
    }

    // The access that is owed.
    pub(crate) fn owed(&self) -> EventAccess
        ensures { result ≡ notify.notify_owed self.now.id self.now.stage }
    {
        match self.stage {
            NotifyStage::Look => EventAccess::Listener,
            NotifyStage::Set => EventAccess::Set(self.id),
            NotifyStage::Post => EventAccess::Post,
            NotifyStage::Push => EventAccess::Push(self.id),
            NotifyStage::Finished => EventAccess::Listener,
        }
    }

    // What the look at the listener leads to.
    fn looked(&self, answer: EventAnswer) -> (EventProgress, NotifyStage)
        ensures { result ≡ notify.notify_turn self.now NotifyStage.Look answer }
    {
        match answer {
            EventAnswer::Yes => {
                if self.id > self.max {
                    let why = NotifierNotifyError::TriggerIdOutOfBounds;
                    (EventProgress::Refused(why), NotifyStage::Finished)
                } else {
                    (EventProgress::More, NotifyStage::Set)
                }
            }
            _ => {
                let why = NotifierNotifyError::Disconnected;
                (EventProgress::Refused(why), NotifyStage::Finished)
            }
        }
    }

    fn turn(&self, answer: EventAnswer) -> (EventProgress, NotifyStage)
        ensures { result ≡ notify.notify_turn self.now self.now.stage answer }
    {
        match self.stage {
            NotifyStage::Look => self.looked(answer),
            NotifyStage::Set => (EventProgress::More, NotifyStage::Post),
            NotifyStage::Post => (EventProgress::Notified, NotifyStage::Finished),
            NotifyStage::Push => (pushed(answer), NotifyStage::Finished),
            NotifyStage::Finished => (EventProgress::More, NotifyStage::Finished),
        }
    }

    // Goes on with the answer to the access that was owed, and tells what it has come to.
    pub(crate) fn took(&mut self, answer: EventAnswer) -> EventProgress
        ensures progress { result ≡ (notify.notify_turn self.old self.old.stage answer).0 }
        ensures after { self.new ≡ notify_went_on self.old answer }
    {
        let (progress, stage) = self.turn(answer);
        self.stage = stage;
        progress
    }
}
