//! Sessions of few pairs, sessions with a wrong pair, and faults of source and sink.
use crate::same::same;
use board_check::{CheckError, Rule, Verdict, check, check_words};
use board_script::{MemorySink, MemorySource};
use std::alloc::Global;
use std::test::Fail;

// Lines and answers in turn, and the program's status, output and note on them, with the read that fails and the sink's room.
#[derive(Clone, Copy)]
struct Trial {
    lines: &'static [u8],
    fails: u64,
    room: usize,
    status: u8,
    output: &'static [u8],
    note: &'static [u8],
}

fn is_so(alloc: Global, trial: &Trial) -> Result<bool, Fail> {
    let lines = Vec::from_slice(alloc, trial.lines)?;
    let fails = Vec::from_array(alloc, [trial.fails])?;
    let mut source = MemorySource::new(lines, 7, fails);
    let mut sink = MemorySink::new(alloc, trial.room, 0, Vec::new(alloc))?;
    let mut notes = MemorySink::new(alloc, 100, 0, Vec::new(alloc))?;
    let words = Vec::new(alloc);
    let status = check_words(alloc, &words, &mut source, &mut sink, &mut notes);
    Ok(status == trial.status && sink.held() == trial.output && notes.held() == trial.note)
}

const PLAIN: Trial = Trial {
    lines: b"",
    fails: 99,
    room: 100,
    status: 0,
    output: b"lawful 0\n",
    note: b"",
};

// A board with an entry of one word, and its first pairs.
const MADE: &[u8] = b"begin a create f b u64 add u64:1 u64:7\nok\nstep a\ntable = ok 1\n";

#[test]
fn faults_are_noted(rt: HostRuntime) -> Result<(), Fail> {
    let trials = [
        Trial {
            lines: b"abandon a\ngone\n",
            fails: 2,
            status: 3,
            output: b"",
            note: b"read fault\n",
            ..PLAIN
        },
        Trial {
            lines: b"abandon a\ngone\n",
            room: 4,
            status: 4,
            output: b"lawf",
            note: b"write fault\n",
            ..PLAIN
        },
    ];
    for trial in &trials {
        assert!(rt; is_so(rt.alloc(), trial)?);
    }
    Ok(())
}

#[test]
fn no_verdict_is_reached_where_a_read_fails(rt: HostRuntime) -> Result<(), Fail> {
    let alloc = rt.alloc();
    let fails = Vec::from_array(alloc, [1])?;
    let mut source = MemorySource::new(Vec::from_slice(alloc, MADE)?, 0, fails);
    same(
        &rt,
        &check(alloc, &mut source),
        &Err(CheckError::ReadFault),
        "",
    );
    Ok(())
}

#[test]
fn sessions_of_few_pairs(rt: HostRuntime) -> Result<(), Fail> {
    let trials = [
        PLAIN,
        Trial {
            lines: b"abandon a\ngone\n",
            output: b"lawful 1\n",
            ..PLAIN
        },
        Trial {
            lines: b"abandon a\ngone\nstep a\nrefused idle\n",
            status: 1,
            output: b"line 2: reason\n",
            ..PLAIN
        },
        Trial {
            lines: b"abandon a\n",
            status: 1,
            output: b"line 1: answer\n",
            ..PLAIN
        },
        Trial {
            lines: b"abandon\ngone\n",
            status: 1,
            output: b"line 1: line\n",
            ..PLAIN
        },
        Trial {
            lines: MADE,
            output: b"lawful 2\n",
            ..PLAIN
        },
    ];
    for trial in &trials {
        assert!(rt; is_so(rt.alloc(), trial)?);
    }
    Ok(())
}

fn with_more(alloc: Global, more: &[u8]) -> Result<Vec<u8>, Fail> {
    let mut lines = Vec::from_slice(alloc, MADE)?;
    lines.extend_from_slice(more)?;
    Ok(lines)
}

#[test]
fn the_rule_is_that_of_the_first_wrong_part(rt: HostRuntime) -> Result<(), Fail> {
    let alloc = rt.alloc();
    let cases: [(&'static [u8], u64, Rule); 4] = [
        (b"step a\ntable = ok 2\n", 3, Rule::Reason),
        (b"words 1\nwords 1 0 8 0\n", 3, Rule::Word),
        (
            b"begin a writer w f\nok\nstep a\ntable = ok 1\n\
            begin a entrymut m w u64:1 u64\nok\nstep a\ntable = ok 0\n\
            begin a update m u64:9\nok\nstep a\nwrite 1:2 9\n",
            8,
            Rule::Owed,
        ),
        (
            b"begin e listen e bits ev 63\nok\nstep e\ntable = ok\n\
            begin n notifier n bits ev\nok\nstep n\ntable = ok\n\
            begin n notify n 32\nok\nstep n\nlistener bits:ev no\n",
            8,
            Rule::Event,
        ),
    ];
    for (more, pair, rule) in cases {
        let mut source = MemorySource::new(with_more(alloc, more)?, 0, Vec::new(alloc));
        same(
            &rt,
            &check(alloc, &mut source),
            &Ok(Verdict::No { pair, rule }),
            "",
        );
    }
    let wrong = Vec::from_slice(
        alloc,
        b"begin a create f b u64 add u64:1 u64:7\nok\nstep a\ntable = ok 2\n",
    )?;
    let mut source = MemorySource::new(wrong, 0, Vec::new(alloc));
    let pair = 2;
    let rule = Rule::Reply;
    same(
        &rt,
        &check(alloc, &mut source),
        &Ok(Verdict::No { pair, rule }),
        "",
    );
    Ok(())
}
