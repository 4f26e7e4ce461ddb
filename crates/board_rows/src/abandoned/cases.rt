//! The tables of calls whose parties are abandoned. Each call of a script begins and makes its steps, and ends, or goes on where it waits or reads without end.
use super::Abandoned;
use super::boards::{
    A_BECOMES_THE_WRITER, A_GETS_NO_HANDLE, A_GETS_THE_HANDLE, A_UPDATES, A_WORD_WRITTEN,
    AS_IT_WAS, B_GONE, B_LEFT, C_GETS_THE_UPDATE, C_GOES_ON, C_GOES_ON_AFTER_A_BOARD,
    C_GOES_ON_AFTER_A_PORT, C_GOES_ON_BESIDE_TWO_WRITERS, C_IS_FIRST, C_IS_SECOND, UPDATED,
};
use super::events::{
    A_SIGNALLED_ID_IS_FOUND, AN_ID_CLEARED, AN_ID_IS_FOUND, ANOTHER_NOTIFIER, ANOTHER_OF_THE_QUEUE,
    E_DROPS_IT, E_LEFT, N_LEFT, NO_SIGNAL, NOTHING_IS_FOUND, NOTHING_POPPED, NOTHING_SCANNED,
    NOTHING_SWAPPED, STILL_A_QUEUE, STILL_A_SET, THE_QUEUE_IS_FREE, THE_QUEUE_IS_GONE,
    THE_QUEUE_IS_HELD, THE_SET_IS_FREE, THE_SET_IS_HELD, THE_SET_STANDS, TWO_OF_THE_QUEUE,
    TWO_OF_THE_SET, TWO_SIGNALS,
};
use super::loans::{
    A_LEFT, ALL_WORDS, GETTER_LEFT, NO_WORD, ONE_WORD, OTHER_WORDS_GOT, PUBLISHED, STILL_HELD,
    THIRD_WORD, THREE_WORDS, TWO_WORDS,
};
use crate::openings::{
    A_LOAN, A_QUEUE, A_SET_OF_128, FOUR_WORDS, FOUR_WORDS_GOT, FOUR_WORDS_WRITTEN, FOURTH_WORD_PUT,
    IT_IS_THE_WRITER, IT_WRITES, ONE_NUMBER, ONE_PARTY_READS, THREE_WORDS_PUT, TWO_WRITERS,
    WRITTEN_AND_READ,
};
use crate::row::Part;

const B_READS_AND_WRITES: &[Part] = &[ONE_PARTY_READS, IT_IS_THE_WRITER, IT_WRITES];

/// A call of `b`, who reads a board of one number and writes it. The board stays as it was.
const OF_ONE_NUMBER: Abandoned = Abandoned {
    opening: B_READS_AND_WRITES,
    call: "",
    steps: &[],
    after: &[&[B_LEFT, AS_IT_WAS]],
    other: &[C_GOES_ON],
};

/// A call of `a` or `b`, of whom `a` writes an entry of four words and `b` reads it.
const OF_FOUR_WORDS: Abandoned = Abandoned {
    opening: &[FOUR_WORDS],
    call: "",
    steps: &[],
    after: &[&[A_LEFT, FOUR_WORDS_GOT, NO_WORD, STILL_HELD]],
    other: &[C_IS_SECOND],
};

/// A call that makes an event.
const OF_NO_EVENT: Abandoned = Abandoned {
    opening: &[],
    call: "",
    steps: &[],
    after: &[],
    other: &[C_IS_FIRST],
};

/// A wait of `e`, who listens on a set.
const OF_A_SET: Abandoned = Abandoned {
    opening: &[A_SET_OF_128, ANOTHER_NOTIFIER],
    call: "",
    steps: &[],
    after: &[&[E_LEFT, THE_SET_STANDS]],
    other: &[C_IS_FIRST],
};

/// The same of a queue.
const OF_A_QUEUE: Abandoned = Abandoned {
    opening: &[A_QUEUE, ANOTHER_OF_THE_QUEUE],
    call: "",
    steps: &[],
    after: &[&[E_LEFT, THE_QUEUE_IS_GONE]],
    other: &[C_IS_FIRST],
};

/// What stands before the first of four words is written, after each of them, and after the last step.
const WORD_BY_WORD: &[&[Part]] = &[
    &[A_LEFT, FOUR_WORDS_GOT, NO_WORD, STILL_HELD],
    &[A_LEFT, FOUR_WORDS_GOT, ONE_WORD, STILL_HELD],
    &[A_LEFT, FOUR_WORDS_GOT, TWO_WORDS, STILL_HELD],
    &[A_LEFT, FOUR_WORDS_GOT, THREE_WORDS, STILL_HELD],
    &[A_LEFT, FOUR_WORDS_GOT, ALL_WORDS, STILL_HELD],
    &[A_LEFT, OTHER_WORDS_GOT, PUBLISHED, STILL_HELD],
];

/// Calls that make boards of one number, and their ports and handles.
pub(super) const ON_BOARDS: [Abandoned; 8] = [
    // The board stands with the step, since `b` still holds its factory.
    Abandoned {
        call: "
            begin b create g c u64 add u64:1 u64:5 | ok
            step b                                 | table = ok 2
        ",
        other: &[C_GOES_ON, C_GOES_ON_AFTER_A_BOARD],
        ..OF_ONE_NUMBER
    },
    Abandoned {
        call: "
            begin b open g b u64 | ok
            step b               | table = ok 1
        ",
        ..OF_ONE_NUMBER
    },
    Abandoned {
        call: "
            begin b reader s f | ok
            step b             | table = ok 3
        ",
        other: &[C_GOES_ON, C_GOES_ON_AFTER_A_PORT],
        ..OF_ONE_NUMBER
    },
    Abandoned {
        call: "
            begin b writer x f | ok
            step b             | table = WriterCreateError::ExceedsMaxSupportedWriters
        ",
        ..OF_ONE_NUMBER
    },
    // The place of the writer is taken with the step.
    Abandoned {
        opening: &[ONE_PARTY_READS],
        call: "
            begin b writer w f | ok
            step b             | table = ok 2
        ",
        after: &[
            &[B_GONE, A_BECOMES_THE_WRITER, AS_IT_WAS],
            &[B_LEFT, AS_IT_WAS],
        ],
        ..OF_ONE_NUMBER
    },
    Abandoned {
        call: "
            begin b entry i r u64:1 u64 | ok
            step b                      | table = ok 0
        ",
        ..OF_ONE_NUMBER
    },
    Abandoned {
        call: "
            begin b entrymut n w u64:1 u64 | ok
            step b                         | table = EntryHandleMutError::HandleAlreadyExists
        ",
        ..OF_ONE_NUMBER
    },
    // The write handle is held with the step, and another writer doesn't get it.
    Abandoned {
        opening: &[TWO_WRITERS],
        call: "
            begin b entrymut m w u64:1 u64 | ok
            step b                         | table = ok 0
        ",
        after: &[
            &[B_GONE, A_GETS_THE_HANDLE, AS_IT_WAS],
            &[B_GONE, A_GETS_NO_HANDLE, AS_IT_WAS],
        ],
        other: &[C_GOES_ON_BESIDE_TWO_WRITERS],
        ..OF_ONE_NUMBER
    },
];

/// Calls that ask of such boards.
pub(super) const ON_INFO: [Abandoned; 5] = [
    Abandoned {
        call: "
            begin b gen m | ok
            step b        | table = gen 1
        ",
        ..OF_ONE_NUMBER
    },
    Abandoned {
        call: "
            begin b id h | ok
            step b       | table = id 0
        ",
        ..OF_ONE_NUMBER
    },
    Abandoned {
        call: "
            begin b info f | ok
            step b         | table = info b u64 readers 8 nodes 20 writers 1 entries 1 attrs 0 taken 1 1 2
        ",
        ..OF_ONE_NUMBER
    },
    Abandoned {
        call: "
            begin b nodes f | ok
            step b          | table = nodes a b
        ",
        ..OF_ONE_NUMBER
    },
    Abandoned {
        call: "
            begin b keys f | ok
            step b         | table = keys u64:1
        ",
        ..OF_ONE_NUMBER
    },
];

/// Calls on their numbers.
pub(super) const ON_ONE_NUMBER: [Abandoned; 4] = [
    Abandoned {
        call: "
            begin b fresh h v | ok
            step b            | read 1:0 1 = true
        ",
        ..OF_ONE_NUMBER
    },
    Abandoned {
        call: "
            begin b get h x | ok
            step b          | read 1:0 1
            step b          | read 1:2 5
            step b          | read 1:0 1 = u64:5 gen 1
        ",
        ..OF_ONE_NUMBER
    },
    // A get that was abandoned keeps nobody from publishing a value, or from reading it.
    Abandoned {
        opening: &[ONE_NUMBER, WRITTEN_AND_READ],
        call: "
            begin b get h | ok
            step b        | read 1:0 1
            step b        | read 1:2 7
            step b        | read 1:0 1 = u64:7 gen 1
        ",
        after: &[&[GETTER_LEFT, A_UPDATES]],
        other: &[C_GETS_THE_UPDATE],
        ..OF_ONE_NUMBER
    },
    // The value is published with the last step.
    Abandoned {
        call: "
            begin b update m u64:6 | ok
            step b                 | write 1:3 6
            step b                 | write 1:0 2 = ok
        ",
        after: &[
            &[B_LEFT, AS_IT_WAS],
            &[B_LEFT, A_WORD_WRITTEN],
            &[B_LEFT, UPDATED],
        ],
        other: &[C_GOES_ON, C_GOES_ON, C_GETS_THE_UPDATE],
        ..OF_ONE_NUMBER
    },
];

/// Calls on an entry of four words, those on its loans among them.
pub(super) const ON_FOUR_WORDS: [Abandoned; 8] = [
    // Gets of four words, one of them met by an update: nothing of a get stays.
    Abandoned {
        call: FOUR_WORDS_GOT,
        after: &[&[GETTER_LEFT, NO_WORD]],
        ..OF_FOUR_WORDS
    },
    Abandoned {
        call: "
            begin b get h               | ok
            step b                      | read 1:0 1
            begin a update m q4:5,6,7,8 | ok
            step b                      | read 1:2 1
            step a                      | write 1:6 5
            step a                      | write 1:7 6
            step a                      | write 1:8 7
            step a                      | write 1:9 8
            step a                      | write 1:0 2 = ok
            step b                      | read 1:3 2
            step b                      | read 1:4 3
            step b                      | read 1:5 4
            step b                      | read 1:0 2
            step b                      | read 1:6 5
            step b                      | read 1:7 6
        ",
        after: &[
            &[GETTER_LEFT, NO_WORD],
            &[GETTER_LEFT, NO_WORD],
            &[GETTER_LEFT, NO_WORD],
            &[GETTER_LEFT, NO_WORD],
            &[GETTER_LEFT, ONE_WORD],
            &[GETTER_LEFT, TWO_WORDS],
            &[GETTER_LEFT, THREE_WORDS],
            &[GETTER_LEFT, ALL_WORDS],
            &[GETTER_LEFT, PUBLISHED],
        ],
        ..OF_FOUR_WORDS
    },
    // An update of four words: its value is published with the last step, and what it wrote before is not read.
    Abandoned {
        call: "begin a update m q4:5,6,7,8 | ok",
        steps: &[FOUR_WORDS_WRITTEN],
        after: WORD_BY_WORD,
        ..OF_FOUR_WORDS
    },
    // Loans: a word that was put stands, and the place of the writer is taken.
    Abandoned {
        call: "
            begin a loan l m | ok
            step a           | table = ok
        ",
        ..OF_FOUR_WORDS
    },
    Abandoned {
        opening: &[FOUR_WORDS, A_LOAN, THREE_WORDS_PUT, FOURTH_WORD_PUT],
        call: "
            begin a discard l m | ok
            step a              | table = ok
        ",
        after: &[&[A_LEFT, FOUR_WORDS_GOT, ALL_WORDS, STILL_HELD]],
        ..OF_FOUR_WORDS
    },
    Abandoned {
        opening: &[FOUR_WORDS, A_LOAN],
        call: "
            begin a put l 2 7 | ok
            step a            | write 1:8 7 = ok
        ",
        after: &[
            &[A_LEFT, FOUR_WORDS_GOT, NO_WORD, STILL_HELD],
            &[A_LEFT, FOUR_WORDS_GOT, THIRD_WORD, STILL_HELD],
        ],
        ..OF_FOUR_WORDS
    },
    Abandoned {
        opening: &[FOUR_WORDS, A_LOAN, THREE_WORDS_PUT, FOURTH_WORD_PUT],
        call: "
            begin a publish l m | ok
            step a              | write 1:0 2 = ok
        ",
        after: &[
            &[A_LEFT, FOUR_WORDS_GOT, ALL_WORDS, STILL_HELD],
            &[A_LEFT, OTHER_WORDS_GOT, PUBLISHED, STILL_HELD],
        ],
        ..OF_FOUR_WORDS
    },
    Abandoned {
        opening: &[FOUR_WORDS, A_LOAN],
        call: "begin a fill l m q4:5,6,7,8 | ok",
        steps: &[FOUR_WORDS_WRITTEN],
        after: WORD_BY_WORD,
        ..OF_FOUR_WORDS
    },
];

/// Calls on sets of ids.
pub(super) const ON_SETS: [Abandoned; 8] = [
    // The id is pending with the set, and signalled with the post.
    Abandoned {
        call: "
            begin n notify n 65 | ok
            step n              | listener bits:ev yes
            step n              | set bits:ev 65
            step n              | post bits:ev = ok
        ",
        after: &[
            &[N_LEFT, NOTHING_IS_FOUND, STILL_A_SET],
            &[N_LEFT, NOTHING_IS_FOUND, STILL_A_SET],
            &[N_LEFT, AN_ID_IS_FOUND, STILL_A_SET],
            &[N_LEFT, A_SIGNALLED_ID_IS_FOUND, STILL_A_SET],
        ],
        ..OF_A_SET
    },
    Abandoned {
        opening: &[A_SET_OF_128, ANOTHER_NOTIFIER, TWO_OF_THE_SET],
        call: "begin e wait e one try | ok",
        steps: &[TWO_SIGNALS, AN_ID_CLEARED],
        ..OF_A_SET
    },
    Abandoned {
        opening: &[A_SET_OF_128, ANOTHER_NOTIFIER, TWO_OF_THE_SET],
        call: "begin e wait e all try | ok",
        steps: &[
            TWO_SIGNALS,
            "
                step e | swap bits:ev 0 2
                step e | swap bits:ev 1 2 = ids 1 65
            ",
        ],
        ..OF_A_SET
    },
    // A timed wait that finds an id.
    Abandoned {
        opening: &[A_SET_OF_128, ANOTHER_NOTIFIER, TWO_OF_THE_SET],
        call: "begin e wait e one timed | ok",
        steps: &[TWO_SIGNALS, AN_ID_CLEARED],
        ..OF_A_SET
    },
    // A wait that finds nothing goes on and on: up to eight steps of each.
    Abandoned {
        call: "begin e wait e one timed | ok",
        steps: &[NOTHING_SCANNED, NO_SIGNAL],
        ..OF_A_SET
    },
    Abandoned {
        call: "begin e wait e one block | ok",
        steps: &[NOTHING_SCANNED, NO_SIGNAL],
        ..OF_A_SET
    },
    Abandoned {
        call: "begin e wait e all timed | ok",
        steps: &[NOTHING_SWAPPED, NO_SIGNAL],
        ..OF_A_SET
    },
    Abandoned {
        call: "begin e wait e all block | ok",
        steps: &[NOTHING_SWAPPED, NO_SIGNAL],
        ..OF_A_SET
    },
];

/// Calls on queues of ids.
pub(super) const ON_QUEUES: [Abandoned; 8] = [
    // The id is pending with the push.
    Abandoned {
        call: "
            begin n notify n 7 | ok
            step n             | push queue:q = ok
        ",
        after: &[
            &[
                N_LEFT,
                "
                    begin e wait e all try | ok
                    step e                 | pop queue:q none = none
                    step e                 | refused idle
                ",
                STILL_A_QUEUE,
            ],
            &[
                N_LEFT,
                "
                    begin e wait e all try | ok
                    step e                 | pop queue:q 7
                    step e                 | pop queue:q none = ids 7
                ",
                STILL_A_QUEUE,
            ],
        ],
        ..OF_A_QUEUE
    },
    Abandoned {
        opening: &[A_QUEUE, ANOTHER_OF_THE_QUEUE, TWO_OF_THE_QUEUE],
        call: "
            begin e wait e one try | ok
            step e                 | pop queue:q 7 = id 7
        ",
        ..OF_A_QUEUE
    },
    Abandoned {
        opening: &[A_QUEUE, ANOTHER_OF_THE_QUEUE, TWO_OF_THE_QUEUE],
        call: "
            begin e wait e one timed | ok
            step e                   | pop queue:q 7 = id 7
        ",
        ..OF_A_QUEUE
    },
    Abandoned {
        opening: &[A_QUEUE, ANOTHER_OF_THE_QUEUE, TWO_OF_THE_QUEUE],
        call: "
            begin e wait e all try | ok
            step e                 | pop queue:q 7
            step e                 | pop queue:q 8
            step e                 | pop queue:q none = ids 7 8
        ",
        ..OF_A_QUEUE
    },
    Abandoned {
        call: "begin e wait e one timed | ok",
        steps: &[NOTHING_POPPED, NOTHING_POPPED],
        ..OF_A_QUEUE
    },
    Abandoned {
        call: "begin e wait e one block | ok",
        steps: &[NOTHING_POPPED, NOTHING_POPPED],
        ..OF_A_QUEUE
    },
    Abandoned {
        call: "begin e wait e all timed | ok",
        steps: &[NOTHING_POPPED, NOTHING_POPPED],
        ..OF_A_QUEUE
    },
    Abandoned {
        call: "begin e wait e all block | ok",
        steps: &[NOTHING_POPPED, NOTHING_POPPED],
        ..OF_A_QUEUE
    },
];

/// Calls that make events, and their notifiers.
pub(super) const ON_EVENTS: [Abandoned; 4] = [
    // The event and its name stand with the step.
    Abandoned {
        call: "
            begin e listen e bits ev 127 | ok
            step e                       | table = ok
        ",
        after: &[
            &[
                E_LEFT,
                "
                    begin n notifier n bits ev   | ok
                    step n                       | table = NotifierCreateError::DoesNotExist
                    begin n notify n 65          | refused unknown
                    step n                       | refused idle
                    step n                       | refused idle
                    step n                       | refused idle
                    begin m listen y bits ev 127 | ok
                    step m                       | table = ok
                ",
            ],
            &[
                E_LEFT,
                "
                    begin n notifier n bits ev   | ok
                    step n                       | table = ok
                    begin n notify n 65          | ok
                    step n                       | listener bits:ev yes
                    step n                       | set bits:ev 65
                    step n                       | post bits:ev = ok
                    begin m listen y bits ev 127 | ok
                    step m                       | table = ListenerCreateError::AlreadyExists
                ",
            ],
        ],
        ..OF_NO_EVENT
    },
    Abandoned {
        call: "
            begin e listen e queue q | ok
            step e                   | table = ok
        ",
        after: &[
            &[
                E_LEFT,
                "
                    begin n notifier n queue q | ok
                    step n                     | table = NotifierCreateError::DoesNotExist
                    begin n notify n 7         | refused unknown
                    step n                     | refused idle
                    begin m listen y queue q   | ok
                    step m                     | table = ok
                ",
            ],
            &[
                E_LEFT,
                "
                    begin n notifier n queue q | ok
                    step n                     | table = ok
                    begin n notify n 7         | ok
                    step n                     | push queue:q = NotifierNotifyError::Disconnected
                    begin m listen y queue q   | ok
                    step m                     | table = ListenerCreateError::AlreadyExists
                ",
            ],
        ],
        ..OF_NO_EVENT
    },
    // The notifier holds the name of a set with the step, after its listener was dropped.
    Abandoned {
        opening: &[
            "
                begin e listen e bits ev 127 | ok
                step e                       | table = ok
            ",
        ],
        call: "
            begin n notifier n bits ev | ok
            step n                     | table = ok
        ",
        after: &[
            &[N_LEFT, THE_SET_IS_HELD, E_DROPS_IT, THE_SET_IS_FREE],
            &[N_LEFT, THE_SET_IS_HELD, E_DROPS_IT, THE_SET_IS_HELD],
        ],
        ..OF_NO_EVENT
    },
    // It never holds that of a queue.
    Abandoned {
        opening: &[
            "
                begin e listen e queue q | ok
                step e                   | table = ok
            ",
        ],
        call: "
            begin n notifier n queue q | ok
            step n                     | table = ok
        ",
        after: &[&[N_LEFT, THE_QUEUE_IS_HELD, E_DROPS_IT, THE_QUEUE_IS_FREE]],
        ..OF_NO_EVENT
    },
];
