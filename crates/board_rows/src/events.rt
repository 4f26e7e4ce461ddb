//! Events.
use crate::openings::{A_QUEUE, A_SET_OF_64, A_SET_OF_128};
use crate::row::{PLAIN, Part, Row, Script, all_hold, joined};
use std::alloc::{AllocError, Global};
use std::test::Fail;

pub(crate) const ROWS: [Row; 8] = [
    Row {
        name: "a blocking wait on bits",
        opening: &[A_SET_OF_64],
        lines: "
            begin e wait e one block | ok
            step e                   | signal bits:ev no
            step e                   | scan bits:ev 0 0
            step e                   | signal bits:ev no
            begin n notify n 32      | ok
            step n                   | listener bits:ev yes
            step n                   | set bits:ev 32
            step e                   | signal bits:ev no
            step n                   | post bits:ev = ok
            step e                   | signal bits:ev yes
            step e                   | signal bits:ev no
            step e                   | scan bits:ev 0 4294967296
            step e                   | clear bits:ev 32 = id 32
        ",
        ..PLAIN
    },
    Row {
        name: "expiry and a dropped listener",
        opening: &[A_SET_OF_64],
        lines: "
            begin e wait e one timed    | ok
            step e                      | signal bits:ev no
            step e                      | scan bits:ev 0 0
            step e                      | signal bits:ev no
            expire e                    | = none
            begin n notify n 5          | ok
            step n                      | listener bits:ev yes
            step n                      | set bits:ev 5
            step n                      | post bits:ev = ok
            begin e wait e one try      | ok
            step e                      | signal bits:ev yes
            step e                      | signal bits:ev no
            step e                      | scan bits:ev 0 32
            step e                      | clear bits:ev 5 = id 5
            begin e wait e one timed    | ok
            step e                      | signal bits:ev no
            expire e                    | refused notwaiting
            step e                      | scan bits:ev 0 0
            step e                      | signal bits:ev no
            expire e                    | = none
            begin n notify n 64         | ok
            step n                      | listener bits:ev yes = NotifierNotifyError::TriggerIdOutOfBounds
            drop e e                    | table = ok
            begin n notify n 5          | ok
            step n                      | listener bits:ev no = NotifierNotifyError::Disconnected
            begin e listen e bits ev 63 | ok
            step e                      | table = ListenerCreateError::AlreadyExists
            begin m notifier x bits ev  | ok
            step m                      | table = NotifierCreateError::DoesNotExist
        ",
        ..PLAIN
    },
    Row {
        name: "expiry of a wait for all",
        opening: &[A_SET_OF_128],
        lines: "
            begin e wait e all timed | ok
            step e                   | signal bits:ev no
            step e                   | swap bits:ev 0 0
            step e                   | swap bits:ev 1 0
            expire e                 | refused notwaiting
            step e                   | signal bits:ev no
            expire e                 | = none
            expire e                 | refused idle
            begin n notify n 70      | ok
            step n                   | listener bits:ev yes
            step n                   | set bits:ev 70
            step n                   | post bits:ev = ok
            begin e wait e all timed | ok
            step e                   | signal bits:ev yes
            step e                   | signal bits:ev no
            step e                   | swap bits:ev 0 0
            step e                   | swap bits:ev 1 64 = ids 70
        ",
        ..PLAIN
    },
    Row {
        name: "expiry of a wait on a queue",
        opening: &[A_QUEUE],
        lines: "
            begin e wait e one timed | ok
            expire e                 | refused notwaiting
            step e                   | pop queue:q none
            expire e                 | = none
            begin e wait e all timed | ok
            step e                   | pop queue:q none
            begin n notify n 5       | ok
            step n                   | push queue:q = ok
            step e                   | pop queue:q 5
            expire e                 | refused notwaiting
            step e                   | pop queue:q none = ids 5
            begin e wait e all timed | ok
            step e                   | pop queue:q none
            expire e                 | = none
        ",
        ..PLAIN
    },
    Row {
        name: "ids taken by an abandoned wait",
        opening: &[A_SET_OF_128],
        lines: "
            begin n notify n 1     | ok
            step n                 | listener bits:ev yes
            step n                 | set bits:ev 1
            step n                 | post bits:ev = ok
            begin e wait e all try | ok
            step e                 | signal bits:ev yes
            step e                 | signal bits:ev no
            step e                 | swap bits:ev 0 2
            abandon e              | gone
            begin n notify n 1     | ok
            step n                 | listener bits:ev yes
            step n                 | set bits:ev 1
            step n                 | post bits:ev = ok
        ",
        ..PLAIN
    },
    Row {
        name: "an abandoned queue listener",
        opening: &[A_QUEUE],
        lines: "
            abandon e                | gone
            begin n notify n 1       | ok
            step n                   | push queue:q = NotifierNotifyError::Disconnected
            begin m listen x queue q | ok
            step m                   | table = ListenerCreateError::AlreadyExists
        ",
        ..PLAIN
    },
    Row {
        name: "a vehicle board",
        lines: "
            begin car create f vehicle/state f8 readers 4 attr unit si add f8:speed u64:0 add f8:brake bool:false add f8:pose q4:0,0,0,0 | ok
            step car                                      | table = ok 1
            begin car writer w f                          | ok
            step car                                      | table = ok 1
            begin car entrymut m w f8:Pose q4             | ok
            step car                                      | table = ok 64
            begin ui open f vehicle/state f8 need unit si | ok
            step ui                                       | table = ok 1
            begin ui reader r f                           | ok
            step ui                                       | table = ok 2
            begin ui entry h r f8:pose q4                 | ok
            step ui                                       | table = ok 64
            begin ui listen e bits chg 1023               | ok
            step ui                                       | table = ok
            begin car notifier n bits chg                 | ok
            step car                                      | table = ok
            begin car update m q4:1,2,3,4                 | ok
            step car                                      | write 1:14 1
            step car                                      | write 1:15 2
            step car                                      | write 1:16 3
            step car                                      | write 1:17 4
            step car                                      | write 1:8 2 = ok
            begin car notify n 64                         | ok
            step car                                      | listener bits:chg yes
            step car                                      | set bits:chg 64
            step car                                      | post bits:chg = ok
            begin ui wait e one try                       | ok
            step ui                                       | signal bits:chg yes
            step ui                                       | signal bits:chg no
            step ui                                       | scan bits:chg 0 0
            step ui                                       | scan bits:chg 1 1
            step ui                                       | clear bits:chg 64 = id 64
            begin ui get h                                | ok
            step ui                                       | read 1:8 2
            step ui                                       | read 1:14 1
            step ui                                       | read 1:15 2
            step ui                                       | read 1:16 3
            step ui                                       | read 1:17 4
            step ui                                       | read 1:8 2 = q4:1,2,3,4 gen 2
        ",
        ..PLAIN
    },
    // What a party holds of boards and of events has one set of names, and of its calls one runs.
    Row {
        name: "names and calls of boards and events",
        lines: "
            begin a create f b u64 add u64:1 u64:7 | ok
            step a                                 | table = ok 1
            begin a listen f bits ev 1             | refused taken
            begin a listen e bits ev 1             | ok
            begin a writer w f                     | refused busy
            drop a f                               | refused busy
            begin a listen w queue q               | refused busy
            expire a                               | refused notwaiting
            step a                                 | table = ok
            begin a writer e f                     | refused taken
            begin a writer e z                     | refused unknown
            begin a notifier e bits ev             | refused taken
            begin a notifier w bits ev             | ok
            step a                                 | table = ok
            begin a reader w f                     | refused taken
            begin a notify e 1                     | refused unknown
            begin a wait w one try                 | refused unknown
            expire a                               | refused idle
            begin a reader r f                     | ok
            begin a notify w 1                     | refused busy
            expire a                               | refused notwaiting
            step a                                 | table = ok 1
            drop a e                               | table = ok
            begin a reader e f                     | ok
            step a                                 | table = ok 2
            abandon a                              | gone
            begin a notify w 1                     | refused abandoned
            expire a                               | refused abandoned
        ",
        ..PLAIN
    },
];

#[test]
fn events_of_parties(rt: HostRuntime) -> Result<(), Fail> {
    all_hold(&rt, rt.alloc(), &ROWS)
}

// What the steps of a wait for 513 ids answer, from the second on.
fn taken(alloc: Global) -> Result<Vec<String>, AllocError> {
    let mut answers = Vec::new(alloc);
    let mut last = String::from_str(alloc, "pop queue:q 513 = ids 1")?;
    for id in 2..=512 {
        answers.push(format!(in alloc; "pop queue:q {id}")?)?;
        last.push_str(&format!(in alloc; " {id}")?)?;
    }
    last.push_str(" 513")?;
    answers.push(last)?;
    Ok(answers)
}

// There is no room for the 513th id before the first was taken.
const THE_LAST_ID: Part = "
    begin n notify n 513   | ok
    step n                 | push queue:q = NotifierNotifyError::FailedToDeliverSignal
    begin e wait e all try | ok
    step e                 | pop queue:q 1
    begin n notify n 513   | ok
    step n                 | push queue:q = ok
";

fn push_pair(
    alloc: Global,
    line: &str,
    answer: &str,
    lines: &mut Vec<(String, String)>,
) -> Result<(), AllocError> {
    let pair = (
        String::from_str(alloc, line)?,
        String::from_str(alloc, answer)?,
    );
    lines.push(pair)?;
    Ok(())
}

// 513 ids are notified, one more than the queue takes, and all are waited for.
fn full_queue(alloc: Global) -> Result<Vec<(String, String)>, AllocError> {
    let mut lines = Vec::new(alloc);
    for (line, answer) in &joined(alloc, &[A_QUEUE])? {
        push_pair(alloc, line, answer, &mut lines)?;
    }
    for id in 1..=512 {
        let line = format!(in alloc; "begin n notify n {id}")?;
        push_pair(alloc, &line, "ok", &mut lines)?;
        push_pair(alloc, "step n", "push queue:q = ok", &mut lines)?;
    }
    for (line, answer) in &joined(alloc, &[THE_LAST_ID])? {
        push_pair(alloc, line, answer, &mut lines)?;
    }
    for answer in &taken(alloc)? {
        push_pair(alloc, "step e", answer, &mut lines)?;
    }
    Ok(lines)
}

#[test]
fn a_queue_is_filled(rt: HostRuntime) -> Result<(), Fail> {
    let texts = full_queue(rt.alloc())?;
    let mut lines = Vec::new(rt.alloc());
    for (line, answer) in &texts {
        lines.push((line.as_str(), answer.as_str()))?;
    }
    Script {
        name: "a full queue",
        lines: &lines,
        status: 0,
        note: "",
    }
    .holds(&rt, rt.alloc())
}
