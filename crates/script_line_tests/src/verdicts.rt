//! A right pair, and wrong ones by the rule that each breaks, behind pairs that are lawful.
use script_judge::Judge;
use script_loop::MemorySource;
use script_pairs::{Verdict, check_pairs};
use script_rules::Rule;
use std::alloc::Global;
use std::test::Fail;

// Lawful pairs, and how many they are.
#[derive(Clone, Copy)]
struct Begun {
    pairs: u64,
    lines: &'static [u8],
}

// A pair behind lawful ones, with the rule that it breaks. A right one breaks none.
#[derive(Clone, Copy)]
struct Case {
    begun: Begun,
    pair: &'static [u8],
    broken: Option<Rule>,
}

const fn right(begun: Begun, pair: &'static [u8]) -> Case {
    Case {
        begun,
        pair,
        broken: None,
    }
}

const fn wrong(begun: Begun, pair: &'static [u8], rule: Rule) -> Case {
    Case {
        begun,
        pair,
        broken: Some(rule),
    }
}

// Whether the verdict on the lawful pairs and the pair behind them is that of the case.
fn is_judged_so(alloc: Global, case: &Case) -> Result<bool, Fail> {
    let mut lines = Vec::from_slice(alloc, case.begun.lines)?;
    lines.extend_from_slice(case.pair)?;
    let mut source = MemorySource::new(lines, 0, Vec::new(alloc));
    let result = check_pairs(alloc, 99, &mut Judge::new(alloc), &mut source);
    let pair = case.begun.pairs.saturating_add(1);
    let verdict = match case.broken {
        None => Verdict::Lawful { pairs: pair },
        Some(rule) => Verdict::No { pair, rule },
    };
    Ok(result == Ok(verdict))
}

const NONE: Begun = Begun {
    pairs: 0,
    lines: b"",
};

// An update of a board's second entry, of which no word is written yet.
const UPDATE: Begun = Begun {
    pairs: 7,
    lines: b"begin a create f b u64 add u64:1 u64:5 add u64:2 u64:7\nok\nstep a\ntable = ok 1\n\
        begin a writer w f\nok\nstep a\ntable = ok 1\n\
        begin a entrymut m w u64:2 u64\nok\nstep a\ntable = ok 32\n\
        begin a update m u64:9\nok\n",
};

// The same, with the word written and the counter owed.
const WRITTEN: Begun = Begun {
    pairs: 8,
    lines: b"begin a create f b u64 add u64:1 u64:5 add u64:2 u64:7\nok\nstep a\ntable = ok 1\n\
        begin a writer w f\nok\nstep a\ntable = ok 1\n\
        begin a entrymut m w u64:2 u64\nok\nstep a\ntable = ok 32\n\
        begin a update m u64:9\nok\nstep a\nwrite 1:7 9\n",
};

// A get of an entry of four words, begun by another party than the one that made the board.
const GET: Begun = Begun {
    pairs: 11,
    lines: b"begin a create f b u64 add u64:1 q4:1,2,3,4\nok\nstep a\ntable = ok 1\n\
        begin a writer w f\nok\nstep a\ntable = ok 1\n\
        begin b open f b u64\nok\nstep b\ntable = ok 1\n\
        begin b reader r f\nok\nstep b\ntable = ok 2\n\
        begin b entry h r u64:1 q4\nok\nstep b\ntable = ok 0\n\
        begin b get h\nok\n",
};

// A notify of a set of ids that looks for the listener next.
const NOTIFY: Begun = Begun {
    pairs: 5,
    lines: b"begin e listen e bits ev 63\nok\nstep e\ntable = ok\n\
        begin n notifier n bits ev\nok\nstep n\ntable = ok\n\
        begin n notify n 32\nok\n",
};

// A wait that scans next, behind that notify.
const SCAN: Begun = Begun {
    pairs: 11,
    lines: b"begin e listen e bits ev 63\nok\nstep e\ntable = ok\n\
        begin n notifier n bits ev\nok\nstep n\ntable = ok\n\
        begin n notify n 32\nok\nstep n\nlistener bits:ev yes\nstep n\nset bits:ev 32\n\
        step n\npost bits:ev = ok\n\
        begin e wait e one try\nok\nstep e\nsignal bits:ev yes\nstep e\nsignal bits:ev no\n",
};

// A wait on a queue of one id.
const POP: Begun = Begun {
    pairs: 7,
    lines: b"begin q listen q queue ev\nok\nstep q\ntable = ok\n\
        begin n notifier n queue ev\nok\nstep n\ntable = ok\n\
        begin n notify n 7\nok\nstep n\npush queue:ev = ok\n\
        begin q wait q one try\nok\n",
};

// A timed wait that has scanned and found nothing, and looks next.
const LOOKS: Begun = Begun {
    pairs: 5,
    lines: b"begin e listen e bits ev 63\nok\nstep e\ntable = ok\n\
        begin e wait e one timed\nok\nstep e\nsignal bits:ev no\nstep e\nscan bits:ev 0 0\n",
};

// The same, behind its waiting look.
const LOOKED: Begun = Begun {
    pairs: 6,
    lines: b"begin e listen e bits ev 63\nok\nstep e\ntable = ok\n\
        begin e wait e one timed\nok\nstep e\nsignal bits:ev no\nstep e\nscan bits:ev 0 0\n\
        step e\nsignal bits:ev no\n",
};

#[test]
fn lines_and_answers_are_of_their_grammars(rt: HostRuntime) -> Result<(), Fail> {
    let cases = [
        right(NONE, b"abandon a\ngone\n"),
        right(NONE, b"abandon a\ngone"),
        wrong(NONE, b"abandon  a\ngone\n", Rule::Line),
        wrong(NONE, b"abandon A\ngone\n", Rule::Line),
        wrong(NONE, b"abandon a\n", Rule::Answer),
        wrong(NONE, b"abandon a\ngone \n", Rule::Answer),
        wrong(UPDATE, b"step a\nwrite 1:7\n", Rule::Answer),
        wrong(UPDATE, b"step a\nwrite 1:7 09\n", Rule::Answer),
        wrong(NOTIFY, b"step n\nlistener ev yes\n", Rule::Answer),
    ];
    for case in &cases {
        assert!(rt; is_judged_so(rt.alloc(), case)?);
    }
    Ok(())
}

#[test]
fn a_line_is_refused_for_its_reason_alone(rt: HostRuntime) -> Result<(), Fail> {
    let cases = [
        right(NONE, b"step a\nrefused idle\n"),
        wrong(NONE, b"step a\nrefused busy\n", Rule::Reason),
        wrong(NONE, b"step a\ntable = ok\n", Rule::Reason),
        wrong(NONE, b"abandon a\nrefused idle\n", Rule::Reason),
        right(NONE, b"words 1\nrefused noboard\n"),
        wrong(NONE, b"words 1\nwords\n", Rule::Reason),
        right(UPDATE, b"drop a f\nrefused busy\n"),
        wrong(UPDATE, b"drop a f\ntable = ok\n", Rule::Reason),
        right(UPDATE, b"begin b writer w f\nrefused unknown\n"),
        wrong(UPDATE, b"begin b writer w f\nok\n", Rule::Reason),
        right(NOTIFY, b"begin e notifier e bits ev\nrefused taken\n"),
        wrong(
            NOTIFY,
            b"begin e notifier e bits ev\nrefused unknown\n",
            Rule::Reason,
        ),
        right(LOOKS, b"expire e\nrefused notwaiting\n"),
        wrong(LOOKS, b"expire e\n= none\n", Rule::Reason),
        wrong(LOOKED, b"expire e\nrefused notwaiting\n", Rule::Reason),
    ];
    for case in &cases {
        assert!(rt; is_judged_so(rt.alloc(), case)?);
    }
    Ok(())
}

#[test]
fn a_step_makes_the_access_that_is_owed(rt: HostRuntime) -> Result<(), Fail> {
    let cases = [
        right(UPDATE, b"step a\nwrite 1:7 9\n"),
        wrong(UPDATE, b"step a\nwrite 1:6 9\n", Rule::Owed),
        wrong(UPDATE, b"step a\nwrite 2:7 9\n", Rule::Owed),
        wrong(UPDATE, b"step a\nwrite 1:7 8\n", Rule::Owed),
        wrong(UPDATE, b"step a\nread 1:7 9\n", Rule::Owed),
        wrong(UPDATE, b"step a\ngone\n", Rule::Owed),
        right(GET, b"step b\nread 1:0 1\n"),
        wrong(GET, b"step b\nread 1:2 1\n", Rule::Owed),
        right(NOTIFY, b"step n\nlistener bits:ev yes\n"),
        wrong(NOTIFY, b"step n\nlistener bits:eu yes\n", Rule::Owed),
        wrong(NOTIFY, b"step n\nsignal bits:ev yes\n", Rule::Owed),
        right(SCAN, b"step e\nscan bits:ev 0 4294967296\n"),
        wrong(SCAN, b"step e\nscan bits:ev 1 4294967296\n", Rule::Owed),
        wrong(SCAN, b"step e\nswap bits:ev 0 4294967296\n", Rule::Owed),
        right(POP, b"step q\npop queue:ev 7 = id 7\n"),
        wrong(POP, b"step q\npop queue:eu 7 = id 7\n", Rule::Owed),
        right(LOOKED, b"expire e\n= none\n"),
        wrong(LOOKED, b"expire e\ngone\n", Rule::Owed),
    ];
    for case in &cases {
        assert!(rt; is_judged_so(rt.alloc(), case)?);
    }
    Ok(())
}

#[test]
fn words_are_those_that_stand(rt: HostRuntime) -> Result<(), Fail> {
    let cases = [
        right(UPDATE, b"words 1\nwords 1 0 5 0 1 0 7 0\n"),
        wrong(UPDATE, b"words 1\nwords 1 0 5 0 1 0 7 9\n", Rule::Word),
        wrong(UPDATE, b"words 1\nwords 1 0 5 0 1 0 7\n", Rule::Word),
        right(WRITTEN, b"words 1\nwords 1 0 5 0 1 0 7 9\n"),
        wrong(WRITTEN, b"words 1\nwords 1 0 5 0 1 0 7 0\n", Rule::Word),
        wrong(GET, b"step b\nread 1:0 2\n", Rule::Word),
    ];
    for case in &cases {
        assert!(rt; is_judged_so(rt.alloc(), case)?);
    }
    Ok(())
}

#[test]
fn events_answer_what_they_hold(rt: HostRuntime) -> Result<(), Fail> {
    let cases = [
        wrong(NOTIFY, b"step n\nlistener bits:ev no\n", Rule::Event),
        wrong(SCAN, b"step e\nscan bits:ev 0 0\n", Rule::Event),
        wrong(SCAN, b"step e\nscan bits:ev 0 32\n", Rule::Event),
        wrong(POP, b"step q\npop queue:ev 8 = id 8\n", Rule::Event),
        wrong(POP, b"step q\npop queue:ev none = none\n", Rule::Event),
        right(LOOKS, b"step e\nsignal bits:ev no\n"),
        wrong(LOOKS, b"step e\nsignal bits:ev yes\n", Rule::Event),
    ];
    for case in &cases {
        assert!(rt; is_judged_so(rt.alloc(), case)?);
    }
    Ok(())
}

#[test]
fn a_reply_stands_where_it_is_due(rt: HostRuntime) -> Result<(), Fail> {
    let cases = [
        right(WRITTEN, b"step a\nwrite 1:4 2 = ok\n"),
        wrong(WRITTEN, b"step a\nwrite 1:4 2\n", Rule::Reply),
        wrong(WRITTEN, b"step a\nwrite 1:4 2 = ok 1\n", Rule::Reply),
        wrong(UPDATE, b"step a\nwrite 1:7 9 = ok\n", Rule::Reply),
        wrong(POP, b"step q\npop queue:ev 7\n", Rule::Reply),
        wrong(POP, b"step q\npop queue:ev 7 = id 8\n", Rule::Reply),
        wrong(
            SCAN,
            b"step e\nscan bits:ev 0 4294967296 = id 32\n",
            Rule::Reply,
        ),
    ];
    for case in &cases {
        assert!(rt; is_judged_so(rt.alloc(), case)?);
    }
    Ok(())
}
