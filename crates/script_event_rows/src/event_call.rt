//! A call on an event that runs: which access is owed, and what the call comes to with an answer.
ghost use Rattle.std.specs.Prelude.{◌≡◌, ◌&&◌, IfOk, [], false};
ghost use Rattle.board_event_model.specs.EventCalls as calls;
ghost use Rattle.board_event_model.specs.EventCalls.{RunningCall, call_of};
ghost use Rattle.script_model.specs.Reports.{StartsWord};
ghost use Rattle.script_model.specs.ScriptEvents as script;
ghost use Rattle.script_event_rows.specs.EventCalls.{HasTaken, IsKeptOf, IsNewOn, IsOfCall, call_in};

use crate::event_row::EventRow;
use crate::notify_task::NotifyTask;
use crate::wait_task::WaitTask;
use board_event_model::{EventAccess, EventAnswer, EventKind, EventProgress, WaitMode};
use script_model::{EventReply, end_told, is_last, is_waiting, report};
use std::alloc::{AllocError, Global};

// What a call has still to do.
#[derive(Drop, Debug)]
pub(crate) enum EventTask {
    Notify(NotifyTask),
    Wait(WaitTask),
}

/// A notify or a wait that runs. Contracts say of which running call of the definitions it is kept.
#[derive(Drop, Debug)]
pub struct EventCall {
    task: EventTask,
    // the ids that it has reported
    told: Vec<u64>,
    // its last access was a waiting look that found nothing
    waited: bool,
}

/// What a call came to with an answer.
#[derive(Drop, Debug)]
pub enum Took {
    /// It goes on.
    GoesOn(EventCall),
    /// It ended, and is told this.
    Ended(EventReply),
}

impl EventTask {
    // Whether it is a wait for all.
    fn is_for_all(&self) -> bool
        ensures { result ≡ script.is_for_all (call_in self.now) }
    {
        match self {
            EventTask::Notify(_) => false,
            EventTask::Wait(wait) => wait.is_for_all(),
        }
    }

    // Whether it is a timed wait.
    fn is_timed(&self) -> bool
        ensures { result ≡ calls.is_timed (call_in self.now) }
    {
        match self {
            EventTask::Notify(_) => false,
            EventTask::Wait(wait) => wait.is_timed(),
        }
    }

    // The access that is owed.
    fn owed(&self) -> EventAccess
        ensures { result ≡ calls.owed (call_in self.now) }
    {
        match self {
            EventTask::Notify(notify) => notify.owed(),
            EventTask::Wait(wait) => wait.owed(),
        }
    }

    // Goes on with the answer to the access that was owed.
    fn took(&mut self, answer: EventAnswer) -> EventProgress
        ensures progress { result ≡ (calls.turn (call_in self.old) answer).0 }
        ensures after { call_in self.new ≡ (calls.turn (call_in self.old) answer).1 }
        ensures word { StartsWord result }
    {
        match self {
            EventTask::Notify(notify) => notify.took(answer),
            EventTask::Wait(wait) => wait.took(answer),
        }
    }
}

impl EventCall {
    // Nothing was done yet.
    fn new(alloc: Global, task: EventTask) -> EventCall
        ensures task { result.task ≡ task }
        ensures told { result.told.items ≡ [] }
        ensures waited { result.waited ≡ false }
    {
        EventCall {
            task,
            told: Vec::new(alloc),
            waited: false,
        }
    }

    /// A notify of an id, on the event of this row.
    pub fn notify(alloc: Global, event: &EventRow, id: u64) -> EventCall
        ensures { IsNewOn event.now (λ e. script.notify_call e id) result }
    {
        let task = match event.kind() {
            EventKind::Bits => NotifyTask::on_set(id, event.max()),
            EventKind::Queue => NotifyTask::on_queue(id),
        };
        EventCall::new(alloc, EventTask::Notify(task))
    }

    /// A wait for one id or for all, on the event of this row.
    pub fn wait(alloc: Global, event: &EventRow, many: bool, mode: WaitMode) -> EventCall
        ensures { IsNewOn event.now (λ e. script.wait_call e many mode) result }
    {
        let task = match event.kind() {
            EventKind::Bits => WaitTask::on_set(event.max() / 64 + 1, many, mode),
            EventKind::Queue => WaitTask::on_queue(many, mode),
        };
        EventCall::new(alloc, EventTask::Wait(task))
    }

    /// The access that is owed.
    pub fn owed(&self) -> EventAccess
        ensures { IsOfCall self.now (λ r. calls.owed (call_of r)) result }
    {
        self.task.owed()
    }

    /// Whether it may be let expire: a timed wait whose last access was a waiting look that found nothing.
    pub fn may_expire(&self) -> bool
        ensures { IsOfCall self.now (λ r. calls.is_timed (call_of r) && r.waited) result }
    {
        self.task.is_timed() && self.waited
    }

    /// Goes on with the answer to the access that was owed.
    ///
    /// # Errors
    /// `AllocError` where memory is refused for the ids that it has taken.
    pub fn took(self, answer: EventAnswer) -> Result<Took, AllocError>
        ensures { IfOk result (λ took. (r : RunningCall) → IsKeptOf self r
            → HasTaken answer r took) }
    {
        let EventCall {
            mut task,
            mut told,
            waited: _,
        } = self;
        let many = task.is_for_all();
        let progress = task.took(answer);
        report(progress, &mut told)?;
        if is_last(progress) {
            return Ok(Took::Ended(end_told(many, progress, told)));
        }
        Ok(Took::GoesOn(EventCall {
            task,
            told,
            waited: is_waiting(progress),
        }))
    }
}
