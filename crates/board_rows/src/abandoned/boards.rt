//! What stands after calls on boards were abandoned; what a single thing of an abandoned party holds; and whole scripts, abandoned at each line.
use super::loans::STILL_HELD;
use crate::openings::{A_LOAN, FOUR_WORDS};
use crate::readers;
use crate::row::{PLAIN, Part, Row, Script, all_hold, push_part};
use std::alloc::Global;
use std::process::Abort;
use std::test::Fail;

/// Its call runs no more, and its things stand.
pub(super) const B_LEFT: Part = "
    abandon b          | gone
    step b             | refused abandoned
    abandon b          | refused abandoned
    begin b get h      | refused abandoned
    drop b m           | refused abandoned
    drop b w           | refused abandoned
    begin a writer w f | ok
    step a             | table = WriterCreateError::ExceedsMaxSupportedWriters
";

/// Its call runs no more.
pub(super) const B_GONE: Part = "
    abandon b | gone
    step b    | refused abandoned
    abandon b | refused abandoned
";

/// The place of the writer is free.
pub(super) const A_BECOMES_THE_WRITER: Part = "
    begin a writer w f | ok
    step a             | table = ok 2
";

/// The entry is free to be written.
pub(super) const A_GETS_THE_HANDLE: Part = "
    begin a entrymut m w u64:1 u64 | ok
    step a                         | table = ok 0
";

/// The entry's write handle is held.
pub(super) const A_GETS_NO_HANDLE: Part = "
    begin a entrymut m w u64:1 u64 | ok
    step a                         | table = EntryHandleMutError::HandleAlreadyExists
";

/// `a` publishes another value.
pub(super) const A_UPDATES: Part = "
    begin a update m u64:6 | ok
    step a                 | write 1:3 6
    step a                 | write 1:0 2 = ok
    words 1                | words 2 0 7 6
";

// Another party makes a board.
const C_MAKES_BOARD_2: Part = "
    begin c create g d u64 add u64:1 u64:5 | ok
    step c                                 | table = ok 2
";

const C_MAKES_BOARD_3: Part = "
    begin c create g d u64 add u64:1 u64:5 | ok
    step c                                 | table = ok 3
";

const C_MAKES_THE_FIRST: Part = "
    begin c create g c u64 add u64:1 u64:5 | ok
    step c                                 | table = ok 1
    begin c reader r g                     | ok
    step c                                 | table = ok 1
";

const C_MAKES_THE_SECOND: Part = "
    begin c create g c u64 add u64:1 u64:5 | ok
    step c                                 | table = ok 2
    begin c reader r g                     | ok
    step c                                 | table = ok 3
";

// It opens the one that stands, as a reader of this number.
const C_IS_READER_3: Part = "
    begin c open f b u64 | ok
    step c               | table = ok 1
    begin c reader r f   | ok
    step c               | table = ok 3
";

const C_IS_READER_4: Part = "
    begin c open f b u64 | ok
    step c               | table = ok 1
    begin c reader r f   | ok
    step c               | table = ok 4
";

// It gets the first value of board 1, or the one that was published, or the first of board 2.
const C_HAS_THE_ENTRY: Part = "
    begin c entry h r u64:1 u64 | ok
    step c                      | table = ok 0
    begin c get h               | ok
";

const C_GETS_THE_FIRST: Part = "
    step c | read 1:0 1
    step c | read 1:2 5
    step c | read 1:0 1 = u64:5 gen 1
";

const C_GETS_THE_SECOND: Part = "
    step c | read 1:0 2
    step c | read 1:3 6
    step c | read 1:0 2 = u64:6 gen 2
";

const C_GETS_FROM_BOARD_2: Part = "
    step c | read 2:0 1
    step c | read 2:2 5
    step c | read 2:0 1 = u64:5 gen 1
";

// What stands in a board that was just made.
const BOARD_2_IS_NEW: Part = "words 2 | words 1 0 5 0";

const BOARD_3_IS_NEW: Part = "words 3 | words 1 0 5 0";

// The board that the abandoned call made has its name.
const THE_NAME_IS_TAKEN: Part = "
    begin c create k c u64 add u64:1 u64:5 | ok
    step c                                 | table = BlackboardCreateError::AlreadyExists
";

// It listens and waits.
const C_WAITS: Part = "
    begin c listen l bits other 0 | ok
    step c                        | table = ok
    begin c wait l all try        | ok
    step c                        | signal bits:other no
    step c                        | swap bits:other 0 0 = none
";

/// Another party makes the first board, reads it, and listens and waits.
pub(super) const C_IS_FIRST: &[Part] = &[
    C_MAKES_THE_FIRST,
    C_HAS_THE_ENTRY,
    C_GETS_THE_FIRST,
    AS_IT_WAS,
    C_WAITS,
];

/// The same with the second board, where two ports were made.
pub(super) const C_IS_SECOND: &[Part] = &[
    C_MAKES_THE_SECOND,
    C_HAS_THE_ENTRY,
    C_GETS_FROM_BOARD_2,
    BOARD_2_IS_NEW,
    C_WAITS,
];

/// Another party makes a board, reads the one that stands, and listens and waits. The things of abandoned parties count.
pub(super) const C_GOES_ON: &[Part] = &[
    C_MAKES_BOARD_2,
    C_IS_READER_3,
    C_HAS_THE_ENTRY,
    C_GETS_THE_FIRST,
    BOARD_2_IS_NEW,
    C_WAITS,
    TWO_READERS_COUNT,
];

/// The same, where a board was made, which stands.
pub(super) const C_GOES_ON_AFTER_A_BOARD: &[Part] = &[
    C_MAKES_BOARD_3,
    C_IS_READER_3,
    C_HAS_THE_ENTRY,
    C_GETS_THE_FIRST,
    BOARD_3_IS_NEW,
    BOARD_2_IS_NEW,
    THE_NAME_IS_TAKEN,
    C_WAITS,
    TWO_READERS_COUNT,
];

/// The same, where a port was made.
pub(super) const C_GOES_ON_AFTER_A_PORT: &[Part] = &[
    C_MAKES_BOARD_2,
    C_IS_READER_4,
    C_HAS_THE_ENTRY,
    C_GETS_THE_FIRST,
    BOARD_2_IS_NEW,
    C_WAITS,
    THREE_READERS_COUNT,
];

/// The same, where the value was published.
pub(super) const C_GETS_THE_UPDATE: &[Part] = &[
    C_MAKES_BOARD_2,
    C_IS_READER_3,
    C_HAS_THE_ENTRY,
    C_GETS_THE_SECOND,
    BOARD_2_IS_NEW,
    C_WAITS,
    TWO_READERS_COUNT,
];

/// The same, where both parties are writers.
pub(super) const C_GOES_ON_BESIDE_TWO_WRITERS: &[Part] = &[
    C_MAKES_BOARD_2,
    C_IS_READER_3,
    C_HAS_THE_ENTRY,
    C_GETS_THE_FIRST,
    BOARD_2_IS_NEW,
    C_WAITS,
    TWO_WRITERS_COUNT,
];

// Things of abandoned parties count: `c` is told of two readers, a writer and three parties.
const TWO_READERS_COUNT: Part = "
    begin c info f | ok
    step c         | table = info b u64 readers 8 nodes 20 writers 1 entries 1 attrs 0 taken 2 1 3
";

// The same, where one more reader was made.
const THREE_READERS_COUNT: Part = "
    begin c info f | ok
    step c         | table = info b u64 readers 8 nodes 20 writers 1 entries 1 attrs 0 taken 3 1 3
";

// The same, where both parties are writers, and `c` is the only reader.
const TWO_WRITERS_COUNT: Part = "
    begin c info f | ok
    step c         | table = info b u64 readers 8 nodes 20 writers 2 entries 1 attrs 0 taken 1 2 3
";

/// What then stands in the board.
pub(super) const AS_IT_WAS: Part = "words 1 | words 1 0 5 0";

/// The value was written and not published.
pub(super) const A_WORD_WRITTEN: Part = "words 1 | words 1 0 5 6";

/// It was published.
pub(super) const UPDATED: Part = "words 1 | words 2 0 5 6";

// `a` drops its writer, and is abandoned.
const THE_WRITER_LEFT: Part = "
    drop a w  | table = ok
    abandon a | gone
";

const ROWS: [Row; 2] = [
    Row {
        name: "an abandoned loan holds the place of the writer",
        opening: &[FOUR_WORDS, A_LOAN, THE_WRITER_LEFT, STILL_HELD],
        ..PLAIN
    },
    Row {
        name: "an abandoned read handle holds the board",
        lines: "
            begin a create f b u64 add u64:1 u64:5 | ok
            step a                                 | table = ok 1
            begin a reader r f                     | ok
            step a                                 | table = ok 1
            begin a entry h r u64:1 u64            | ok
            step a                                 | table = ok 0
            drop a f                               | table = ok
            drop a r                               | table = ok
            abandon a                              | gone
            words 1                                | words 1 0 5 0
            begin c create g b u64 add u64:1 u64:5 | ok
            step c                                 | table = BlackboardCreateError::AlreadyExists
            begin c open g b u64                   | ok
            step c                                 | table = ok 1
            begin c nodes g                        | ok
            step c                                 | table = nodes a c
        ",
        ..PLAIN
    },
];

#[test]
fn a_single_thing_of_an_abandoned_party_holds(rt: HostRuntime) -> Result<(), Fail> {
    all_hold(&rt, rt.alloc(), &ROWS)
}

// `a` was abandoned, and `b` is now.
const BOTH_LEFT: Part = "
    abandon b          | gone
    step a             | refused abandoned
    step b             | refused abandoned
    begin a reader z f | refused abandoned
    abandon b          | refused abandoned
";

// After these lines both parties are abandoned, and do nothing more.
fn leaves_both(
    rt: &impl Abort,
    alloc: Global,
    name: &str,
    begun: &[(&'static str, &'static str)],
) -> Result<(), Fail> {
    let was_left = begun.contains(&("abandon a", "gone"));
    let first = if was_left {
        "refused abandoned"
    } else {
        "gone"
    };
    let mut lines = begun.to_vec(alloc)?;
    lines.push(("abandon a", first))?;
    push_part(BOTH_LEFT, &mut lines)?;
    Script {
        name,
        lines: &lines,
        status: 0,
        note: "",
    }
    .holds(rt, alloc)
}

#[test]
fn each_row_of_readers_is_abandoned_at_every_line(rt: HostRuntime) -> Result<(), Fail> {
    let alloc = rt.alloc();
    for row in &readers::ROWS {
        let mut begun = Vec::new(alloc);
        leaves_both(&rt, alloc, row.name, &begun)?;
        for line in &row.all_lines(alloc)? {
            begun.push(*line)?;
            leaves_both(&rt, alloc, row.name, &begun)?;
        }
    }
    Ok(())
}
