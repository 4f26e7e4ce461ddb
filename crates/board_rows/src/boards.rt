//! Boards, and a writer without readers.
use crate::row::{PLAIN, Row, all_hold};
use std::test::Fail;

/// `a` makes a board, updates its second entry, and is told how far that one is.
pub(crate) const FIRST_RUN: Row = Row {
    name: "the first run",
    lines: "
        begin a create f b u64 add u64:1 u64:5 add u64:2 u64:7 | ok
        step a                                                 | table = ok 1
        begin a writer w f                                     | ok
        step a                                                 | table = ok 1
        begin a entrymut m w u64:2 u64                         | ok
        step a                                                 | table = ok 32
        begin a update m u64:9                                 | ok
        step a                                                 | write 1:7 9
        words 1                                                | words 1 0 5 0 1 0 7 9
        step a                                                 | write 1:4 2 = ok
        begin a gen m                                          | ok
        step a                                                 | table = gen 2
        step a                                                 | refused idle
        words 2                                                | refused noboard
    ",
    ..PLAIN
};

const ROWS: [Row; 4] = [
    FIRST_RUN,
    Row {
        name: "the empty script",
        lines: "",
        ..PLAIN
    },
    Row {
        name: "a board without entries",
        lines: "
            begin a create f b u64 | ok
            step a                 | table = BlackboardCreateError::NoEntriesProvided
        ",
        ..PLAIN
    },
    Row {
        name: "two equal number keys",
        lines: "
            begin a create f b u64 add u64:1 u64:5 add u64:1 u64:6 | ok
            step a                                                 | table = BlackboardCreateError::ServiceInCorruptedState
        ",
        ..PLAIN
    },
];

#[test]
fn boards_without_readers(rt: HostRuntime) -> Result<(), Fail> {
    all_hold(&rt, rt.alloc(), &ROWS)
}
