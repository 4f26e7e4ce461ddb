//! Readers beside a writer.
use crate::openings::{
    FOUR_WORDS, FOUR_WORDS_GOT, IT_IS_THE_WRITER, IT_WRITES, ONE_NUMBER, ONE_PARTY_READS,
    WRITTEN_AND_READ,
};
use crate::row::{PLAIN, Part, Row, all_hold};
use std::test::Fail;

// `a` is abandoned when it has written half of an update.
const AN_UPDATE_LEFT: Part = "
    begin a update m q4:5,6,7,8 | ok
    step a                      | write 1:6 5
    step a                      | write 1:7 6
    abandon a                   | gone
";

pub(crate) const ROWS: [Row; 8] = [
    Row {
        name: "a board of a bool and a number",
        lines: "
            begin a create f b u64 add u64:1 bool:true add u64:2 u64:7 | ok
            step a                                                     | table = ok 1
            words 1                                                    | words 1 0 1 0 1 0 7 0
        ",
        ..PLAIN
    },
    Row {
        name: "two parties one u64 entry",
        opening: &[ONE_NUMBER, WRITTEN_AND_READ],
        ..PLAIN
    },
    Row {
        name: "two parties one four word entry",
        opening: &[FOUR_WORDS],
        ..PLAIN
    },
    Row {
        name: "a get that meets one update",
        opening: &[ONE_NUMBER, WRITTEN_AND_READ],
        lines: "
            begin b get h v        | ok
            step b                 | read 1:0 1
            begin a update m u64:9 | ok
            step a                 | write 1:3 9
            step a                 | write 1:0 2 = ok
            step b                 | read 1:2 7
            step b                 | read 1:0 2
            step b                 | read 1:3 9
            step b                 | read 1:0 2 = u64:9 gen 2
            begin b fresh h v      | ok
            step b                 | read 1:0 2 = true
        ",
        ..PLAIN
    },
    Row {
        name: "a get that meets two updates",
        opening: &[FOUR_WORDS],
        lines: "
            begin b get h               | ok
            step b                      | read 1:0 1
            step b                      | read 1:2 1
            step b                      | read 1:3 2
            begin a update m q4:5,6,7,8 | ok
            step a                      | write 1:6 5
            step a                      | write 1:7 6
            step a                      | write 1:8 7
            step a                      | write 1:9 8
            step a                      | write 1:0 2 = ok
            begin a update m q4:9,9,9,9 | ok
            step a                      | write 1:2 9
            step a                      | write 1:3 9
            step a                      | write 1:4 9
            step a                      | write 1:5 9
            step a                      | write 1:0 3 = ok
            step b                      | read 1:4 9
            step b                      | read 1:5 9
            step b                      | read 1:0 3
            step b                      | read 1:2 9
            step b                      | read 1:3 9
            step b                      | read 1:4 9
            step b                      | read 1:5 9
            step b                      | read 1:0 3 = q4:9,9,9,9 gen 3
        ",
        ..PLAIN
    },
    Row {
        name: "an equal value is a new generation",
        opening: &[ONE_NUMBER, WRITTEN_AND_READ],
        lines: "
            begin b get h v        | ok
            step b                 | read 1:0 1
            step b                 | read 1:2 7
            step b                 | read 1:0 1 = u64:7 gen 1
            begin a update m u64:7 | ok
            step a                 | write 1:3 7
            step a                 | write 1:0 2 = ok
            begin b fresh h v      | ok
            step b                 | read 1:0 2 = false
        ",
        ..PLAIN
    },
    Row {
        name: "a kept value is fresh until an update",
        opening: &[ONE_PARTY_READS, IT_IS_THE_WRITER, IT_WRITES],
        lines: "
            begin b fresh h v      | ok
            step b                 | read 1:0 1 = true
            begin b update m u64:5 | ok
            step b                 | write 1:3 5
            step b                 | write 1:0 2 = ok
            begin b fresh h v      | ok
            step b                 | read 1:0 2 = false
            begin b get h v        | refused taken
            begin b fresh h x      | refused unknown
        ",
        ..PLAIN
    },
    Row {
        name: "a writer abandoned in an update",
        opening: &[FOUR_WORDS, AN_UPDATE_LEFT, FOUR_WORDS_GOT],
        lines: "
            begin b writer w f | ok
            step b             | table = WriterCreateError::ExceedsMaxSupportedWriters
            step a             | refused abandoned
            abandon a          | refused abandoned
        ",
        ..PLAIN
    },
];

#[test]
fn readers_beside_a_writer(rt: HostRuntime) -> Result<(), Fail> {
    all_hold(&rt, rt.alloc(), &ROWS)
}
