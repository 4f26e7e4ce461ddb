//! The tables of boards: who may make, open and hold what, and how long it stands.
use crate::openings::{ONE_NUMBER, WRITTEN_AND_READ};
use crate::row::{PLAIN, Part, Row, all_hold};
use std::test::Fail;

// A board with two keys that differ only in case isn't made.
const KEYS_UP_TO_CASE: Part = "
    begin a create f b f8 add f8:Temp u64:1 add f8:temp u64:2 | ok
    step a                                                    | table = BlackboardCreateError::ServiceInCorruptedState
    begin a create f b f8 add f8:Temp u64:1                   | ok
    step a                                                    | table = ok 1
";

// Nor is one with sixteen keys of which two differ only in case; with sixteen others it is, and a key finds its entry in any case.
const SIXTEEN_KEYS: Part = "
    begin a create f b f8 add f8:a bool:true add f8:b bool:true add f8:c bool:true add f8:d bool:true add f8:e bool:true add f8:f bool:true add f8:g bool:true add f8:h bool:true add f8:i bool:true add f8:j bool:true add f8:k bool:true add f8:l bool:true add f8:m bool:true add f8:n bool:true add f8:o bool:true add f8:C bool:true | ok
    step a                      | table = BlackboardCreateError::ServiceInCorruptedState
    begin a create f b f8 add f8:a bool:true add f8:b bool:true add f8:c bool:true add f8:d bool:true add f8:e bool:true add f8:f bool:true add f8:g bool:true add f8:h bool:true add f8:i bool:true add f8:j bool:true add f8:k bool:true add f8:l bool:true add f8:m bool:true add f8:n bool:true add f8:o bool:true add f8:P bool:true | ok
    step a                      | table = ok 1
    begin a reader r f          | ok
    step a                      | table = ok 1
    begin a entry h r f8:p bool | ok
    step a                      | table = ok 480
";

// The place of the only writer is free once its last handle was dropped.
const A_FREED_WRITER: Part = "
    drop a w                       | table = ok
    begin a writer x f             | ok
    step a                         | table = WriterCreateError::ExceedsMaxSupportedWriters
    drop a m                       | table = ok
    begin a writer x f             | ok
    step a                         | table = ok 3
    begin a entrymut m x u64:1 u64 | ok
    step a                         | table = ok 0
";

// `a` is a writer of a board of two numbers, which has two.
const TWO_SLOTS: Part = "
    begin a create f b u64 writers 2 add u64:1 u64:7 add u64:2 u64:8 | ok
    step a                                                           | table = ok 1
    begin a writer w f                                               | ok
    step a                                                           | table = ok 1
";

const ROWS: [Row; 13] = [
    Row {
        name: "a name that stands",
        opening: &[ONE_NUMBER, WRITTEN_AND_READ],
        lines: "
            begin c create g b f8 | ok
            step c                | table = BlackboardCreateError::AlreadyExists
        ",
        ..PLAIN
    },
    Row {
        name: "keys equal up to case without keys",
        opening: &[KEYS_UP_TO_CASE],
        ..PLAIN
    },
    Row {
        name: "keys equal up to case among sixteen",
        opening: &[SIXTEEN_KEYS],
        ..PLAIN
    },
    Row {
        name: "keys equal up to case",
        opening: &[KEYS_UP_TO_CASE],
        lines: "
            begin a keys f | ok
            step a         | table = keys f8:Temp
        ",
        ..PLAIN
    },
    Row {
        name: "refusals of open",
        lines: "
            begin a create f b u64 readers 2 nodes 2 attr k v add u64:1 u64:7 | ok
            step a                                   | table = ok 1
            begin b open g x u64                     | ok
            step b                                   | table = BlackboardOpenError::DoesNotExist
            begin b open g b f8                      | ok
            step b                                   | table = BlackboardOpenError::IncompatibleKeys
            begin b open g b u64 readers 3 needkey z | ok
            step b                                   | table = BlackboardOpenError::IncompatibleAttributes
            begin b open g b u64 readers 3           | ok
            step b                                   | table = BlackboardOpenError::DoesNotSupportRequestedAmountOfReaders
            begin b open g b u64 nodes 3             | ok
            step b                                   | table = BlackboardOpenError::DoesNotSupportRequestedAmountOfNodes
            begin b open g b u64 need k v            | ok
            step b                                   | table = ok 1
            begin b open j b u64                     | ok
            step b                                   | table = ok 1
            begin c open g b u64                     | ok
            step c                                   | table = BlackboardOpenError::ExceedsMaxNumberOfNodes
        ",
        ..PLAIN
    },
    Row {
        name: "a board goes with its last thing",
        lines: "
            begin a create f b u64 add u64:1 u64:7 | ok
            step a                                 | table = ok 1
            drop a f                               | table = ok
            words 1                                | refused noboard
            begin a create f b u64 add u64:1 u64:7 | ok
            step a                                 | table = ok 2
        ",
        ..PLAIN
    },
    Row {
        name: "a reader slot is freed by its reader",
        lines: "
            begin a create f b u64 readers 0 add u64:1 u64:7 | ok
            step a                                           | table = ok 1
            begin a reader r f                               | ok
            step a                                           | table = ok 1
            begin a reader s f                               | ok
            step a                                           | table = ReaderCreateError::ExceedsMaxSupportedReaders
            begin a entry h r u64:1 u64                      | ok
            step a                                           | table = ok 0
            drop a r                                         | table = ok
            begin a reader s f                               | ok
            step a                                           | table = ok 2
            begin a get h                                    | ok
            step a                                           | read 1:0 1
            step a                                           | read 1:2 7
            step a                                           | read 1:0 1 = u64:7 gen 1
        ",
        ..PLAIN
    },
    Row {
        name: "the writer slot without loans",
        opening: &[ONE_NUMBER, WRITTEN_AND_READ, A_FREED_WRITER],
        ..PLAIN
    },
    Row {
        name: "the writer slot",
        opening: &[ONE_NUMBER, WRITTEN_AND_READ, A_FREED_WRITER],
        lines: "
            begin a loan l m                | ok
            step a                          | table = ok
            begin a entrymut n x u64:1 u64  | ok
            step a                          | table = EntryHandleMutError::HandleAlreadyExists
            begin a entrymut n x u64:1 bool | ok
            step a                          | table = EntryHandleMutError::EntryDoesNotExist
            begin b entry k r u64:2 u64     | ok
            step b                          | table = EntryHandleError::EntryDoesNotExist
        ",
        ..PLAIN
    },
    Row {
        name: "the tables told",
        opening: &[ONE_NUMBER, WRITTEN_AND_READ],
        lines: "
            begin b info f             | ok
            step b                     | table = info b u64 readers 8 nodes 20 writers 1 entries 1 attrs 0 taken 1 1 2
            begin b nodes f            | ok
            step b                     | table = nodes a b
            begin b id h               | ok
            step b                     | table = id 0
            begin b id r               | ok
            step b                     | table = id 2
            begin b get z              | refused unknown
            begin b reader r f         | refused taken
            begin b entry k r f8:x u64 | refused type
        ",
        ..PLAIN
    },
    Row {
        name: "two writers of one board",
        opening: &[TWO_SLOTS],
        lines: "
            begin b open f b u64           | ok
            step b                         | table = ok 1
            begin b writer x f             | ok
            step b                         | table = ok 2
            begin b writer y f             | ok
            step b                         | table = WriterCreateError::ExceedsMaxSupportedWriters
            begin a entrymut m w u64:1 u64 | ok
            step a                         | table = ok 0
            begin b entrymut n x u64:1 u64 | ok
            step b                         | table = EntryHandleMutError::HandleAlreadyExists
            begin b entrymut n x u64:2 u64 | ok
            step b                         | table = ok 32
            begin a update m u64:9         | ok
            begin b update n u64:10        | ok
            step a                         | write 1:3 9
            step b                         | write 1:7 10
            step a                         | write 1:0 2 = ok
            step b                         | write 1:4 2 = ok
            words 1                        | words 2 0 7 9 2 0 8 10
            drop a w                       | table = ok
            drop a m                       | table = ok
            begin b writer y f             | ok
            step b                         | table = ok 3
        ",
        ..PLAIN
    },
    Row {
        name: "limits of writers",
        lines: "
            begin a create f b u64 readers 3 nodes 4 writers 5 attr k v add u64:1 u64:7 | ok
            step a                                           | table = ok 1
            begin a info f                                   | ok
            step a                                           | table = info b u64 readers 3 nodes 4 writers 5 entries 1 attrs 1 taken 0 0 1
            begin a create g c u64 writers 0 add u64:1 u64:7 | ok
            step a                                           | table = ok 2
            begin a info g                                   | ok
            step a                                           | table = info c u64 readers 8 nodes 20 writers 1 entries 1 attrs 0 taken 0 0 1
            begin a writer w g                               | ok
            step a                                           | table = ok 1
            begin a writer x g                               | ok
            step a                                           | table = WriterCreateError::ExceedsMaxSupportedWriters
        ",
        ..PLAIN
    },
    Row {
        name: "slots of two writers",
        opening: &[TWO_SLOTS],
        lines: "
            begin a writer x f             | ok
            step a                         | table = ok 2
            begin a entrymut m w u64:1 u64 | ok
            step a                         | table = ok 0
            begin a entrymut n w u64:2 u64 | ok
            step a                         | table = ok 32
            begin a info f                 | ok
            step a                         | table = info b u64 readers 8 nodes 20 writers 2 entries 2 attrs 0 taken 0 2 1
            drop a w                       | table = ok
            drop a m                       | table = ok
            begin a writer y f             | ok
            step a                         | table = WriterCreateError::ExceedsMaxSupportedWriters
            begin a loan l n               | ok
            step a                         | table = ok
            drop a x                       | table = ok
            begin a writer y f             | ok
            step a                         | table = ok 3
            begin a writer z f             | ok
            step a                         | table = WriterCreateError::ExceedsMaxSupportedWriters
            begin a discard l n            | ok
            step a                         | table = ok
            drop a n                       | table = ok
            begin a info f                 | ok
            step a                         | table = info b u64 readers 8 nodes 20 writers 2 entries 2 attrs 0 taken 0 1 1
            begin a writer z f             | ok
            step a                         | table = ok 4
        ",
        ..PLAIN
    },
];

#[test]
fn tables_of_boards(rt: HostRuntime) -> Result<(), Fail> {
    all_hold(&rt, rt.alloc(), &ROWS)
}
