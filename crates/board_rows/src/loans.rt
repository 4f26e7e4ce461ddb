//! Loans.
use crate::openings::{A_LOAN, FOUR_WORDS, FOURTH_WORD_PUT, THREE_WORDS_PUT};
use crate::row::{PLAIN, Row, all_hold};
use std::test::Fail;

pub(crate) const ROWS: [Row; 3] = [
    Row {
        name: "a loan forgets its words",
        opening: &[FOUR_WORDS, A_LOAN, THREE_WORDS_PUT],
        lines: "
            begin a publish l m         | refused unfilled
            begin a discard l m         | ok
            step a                      | table = ok
            begin a loan l m            | ok
            step a                      | table = ok
            begin a put l 3 8           | ok
            step a                      | write 1:9 8 = ok
            begin a publish l m         | refused unfilled
            begin a put l 4 0           | refused index
            begin a fill l m q4:5,6,7,8 | ok
            step a                      | write 1:6 5
            step a                      | write 1:7 6
            step a                      | write 1:8 7
            step a                      | write 1:9 8
            step a                      | write 1:0 2 = ok
        ",
        ..PLAIN
    },
    // A loan is no write handle, and a write handle no loan.
    Row {
        name: "names of loans",
        opening: &[FOUR_WORDS],
        lines: "
            begin a discard m l         | refused unknown
            begin a put m 0 5           | refused unknown
            begin a publish m l         | refused unknown
            begin a fill m l q4:5,6,7,8 | refused unknown
            begin a loan m m            | refused taken
            begin a loan w m            | refused taken
            begin a loan l m            | ok
            step a                      | table = ok
            begin a loan k l            | refused unknown
            begin a loan k m            | refused unknown
            begin a gen l               | refused unknown
            begin a id l                | refused unknown
            begin a update l q4:5,6,7,8 | refused unknown
            begin a discard l l         | refused taken
            begin a publish l w         | refused taken
            begin a fill l w u64:5      | refused taken
            begin a fill l m u64:5      | refused type
            begin a put l 4 5           | refused index
            begin b discard l m         | refused unknown
            begin a discard l m         | ok
            step a                      | table = ok
            begin a gen m               | ok
            step a                      | table = gen 1
        ",
        ..PLAIN
    },
    // A loan whose words were all put is dropped: the next one has none of them.
    Row {
        name: "a dropped loan forgets its words",
        opening: &[FOUR_WORDS, A_LOAN, THREE_WORDS_PUT, FOURTH_WORD_PUT],
        lines: "
            drop a l                      | table = ok
            begin a publish l m           | refused unknown
            begin a entrymut m w u64:1 q4 | ok
            step a                        | table = ok 0
            begin a loan l m              | ok
            step a                        | table = ok
            begin a publish l m           | refused unfilled
        ",
        ..PLAIN
    },
];

#[test]
fn loans_of_a_writer(rt: HostRuntime) -> Result<(), Fail> {
    all_hold(&rt, rt.alloc(), &ROWS)
}
