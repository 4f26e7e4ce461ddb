//! Watchers that open, wait, get and report, and that end.
use crate::driven::{BOARD, Lines, ONE_ENTRY, Scene};
use crate::programs::Program;
use std::alloc::Global;
use std::process::Abort;
use std::test::Fail;

fn tells(rt: &impl Abort, alloc: Global, name: &'static str, scenes: &[Scene]) -> Result<(), Fail> {
    crate::driven::tells(rt, alloc, Program::Watchers, name, scenes)
}

/// b listens on a set of ids, and a notifies it.
pub(super) const BITS: Scene = &[
    "
        begin b listen e bits ev 63 | ok
        step b                      | table = ok
        begin a notifier n bits ev  | ok
        step a                      | table = ok
    ",
];

/// b listens on a queue of ids whose name is an equals sign, and a notifies it.
const QUEUE: Scene = &[
    "
        begin b listen e queue =   | ok
        step b                     | table = ok
        begin a notifier n queue = | ok
        step a                     | table = ok
    ",
];

// The entry that h reads has the id 0.
const WATCHED: Lines = "
    watch b e h | begin b id h | ok
                | step b       | table = id 0
                |              | watching b
";

const UPDATED: Lines = "
    begin a update m u64:9 | ok
    step a                 | write 1:3 9
    step a                 | write 1:0 2 = ok
";

const NOTIFIED: Lines = "
    begin a notify n 0 | ok
    step a             | listener bits:ev yes
    step a             | set bits:ev 0
    step a             | post bits:ev = ok
";

const TAKEN: Lines = "
    turn b | begin b wait e all try | ok
    turn b | step b                 | signal bits:ev yes
    turn b | step b                 | signal bits:ev no
    turn b | step b                 | swap bits:ev 0 1 = ids 0
";

// All of a get of the second value but its last step.
const READ: Lines = "
    turn b | begin b get h | ok
    turn b | step b        | read 1:0 2
    turn b | step b        | read 1:3 9
";

const SAID: Lines = "
    turn b | step b | read 1:0 2 = u64:9 gen 2
           |        | report b h u64:9 gen 2
";

/// A value that was notified is reported; notified anew it is not.
pub(super) const REPORTED: Scene = &[
    WATCHED,
    UPDATED,
    NOTIFIED,
    TAKEN,
    READ,
    SAID,
    NOTIFIED,
    TAKEN,
    READ,
    "turn b | step b | read 1:0 2 = u64:9 gen 2",
];

/// The same value published anew has a generation of its own, and is reported again.
const SAME_VALUE: Scene = &[
    "
        begin a update m u64:9 | ok
        step a                 | write 1:2 9
        step a                 | write 1:0 3 = ok
    ",
    NOTIFIED,
    TAKEN,
    "
        turn b | begin b get h | ok
        turn b | step b        | read 1:0 3
        turn b | step b        | read 1:2 9
        turn b | step b        | read 1:0 3 = u64:9 gen 3
               |               | report b h u64:9 gen 3
    ",
];

/// Lines of a watched party are held back; its abandonment ends its watcher.
const HELD_BACK: Scene = &[
    WATCHED,
    "
        step b                    |              | watched b
        begin b get h             |              | watched b
        drop b h                  |              | watched b
        expire b                  |              | watched b
        begin b listen x bits x 0 |              | watched b
        watch b e k               |              | watched b
        words 2                   | refused noboard
        step c                    | refused idle
        turn c                    |              | unwatched c
        abandon b                 | gone
        turn b                    |              | unwatched b
        abandon b                 | refused abandoned
        watch b e h               | begin b id h | refused abandoned
                                  |              | unwatched b
    ",
];

/// A watched party is left to its watcher until it is abandoned.
const ENDED: Scene = &[
    WATCHED,
    "
        step b    |  | watched b
        turn c    |  | unwatched c
        abandon b | gone
        turn b    |  | unwatched b
    ",
];

/// A watcher over a handle that isn't there doesn't begin.
const NO_HANDLE: Scene = &[
    "
        watch b e z | begin b id z | refused unknown
                    |              | unwatched b
    ",
];

/// A begin that is refused ends the opening.
const TURNED_DOWN: Scene = &[
    "
        watch b e h z k        | begin b id h | ok
                               | step b       | table = id 0
                               | begin b id z | refused unknown
                               |              | unwatched b
        step b                 | refused idle
        turn b                 |              | unwatched b
        begin a update m u64:9 | ok
        watch a e m            | begin a id m | refused busy
                               |              | unwatched a
        step a                 | write 1:3 9
    ",
];

/// A watcher is abandoned in the midst of a get.
const CUT: Scene = &[
    WATCHED,
    UPDATED,
    NOTIFIED,
    TAKEN,
    "
        turn b    | begin b get h | ok
        turn b    | step b        | read 1:0 2
        step b    |               | watched b
        abandon b | gone
        turn b    |               | unwatched b
        step b    | refused abandoned
    ",
];

/// A wait that takes no id is followed by the next one.
const NOTHING: Scene = &[
    WATCHED,
    "
        turn b | begin b wait e all try | ok
        turn b | step b                 | signal bits:ev no
        turn b | step b                 | swap bits:ev 0 0 = none
        turn b | begin b wait e all try | ok
    ",
];

/// A listener that is none is looked at in the first turn.
const NO_LISTENER: Scene = &[
    "
        watch b x h | begin b id h           | ok
                    | step b                 | table = id 0
                    |                        | watching b
        turn b      | begin b wait x all try | refused unknown
                    |                        | unwatched b
        turn b      |                        | unwatched b
    ",
];

/// Two handles, one named twice: each is got once, in the line's order, and an id of none is passed over.
const TWO_HANDLES: Scene = &[
    "
        watch b e h k h | begin b id h | ok
                        | step b       | table = id 0
                        | begin b id k | ok
                        | step b       | table = id 32
                        | begin b id h | ok
                        | step b       | table = id 0
                        |              | watching b
    ",
    UPDATED,
    "
        begin a notify n 32 | ok
        step a              | push queue:= = ok
        begin a notify n 7  | ok
        step a              | push queue:= = ok
        begin a notify n 0  | ok
        step a              | push queue:= = ok
        begin a notify n 32 | ok
        step a              | push queue:= = ok
        turn b              | begin b wait e all try | ok
        turn b              | step b                 | pop queue:= 32
        turn b              | step b                 | pop queue:= 7
        turn b              | step b                 | pop queue:= 0
        turn b              | step b                 | pop queue:= 32
        turn b              | step b                 | pop queue:= none = ids 32 7 0 32
    ",
    READ,
    SAID,
    "
        turn b             | begin b get k          | ok
        turn b             | step b                 | read 1:4 1
        turn b             | step b                 | read 1:6 8
        turn b             | step b                 | read 1:4 1 = u64:8 gen 1
                           |                        | report b k u64:8 gen 1
        begin a notify n 7 | ok
        step a             | push queue:= = ok
        turn b             | begin b wait e all try | ok
        turn b             | step b                 | pop queue:= 7
        turn b             | step b                 | pop queue:= none = ids 7
        turn b             | begin b wait e all try | ok
    ",
];

/// A reader has an id too, and a get through it is refused.
const A_READER: Scene = &[
    "
        watch b e r        | begin b id r           | ok
                           | step b                 | table = id 2
                           |                        | watching b
        begin a notify n 2 | ok
        step a             | push queue:= = ok
        turn b             | begin b wait e all try | ok
        turn b             | step b                 | pop queue:= 2
        turn b             | step b                 | pop queue:= none = ids 2
        turn b             | begin b get r          | refused unknown
                           |                        | unwatched b
    ",
];

#[test]
fn what_was_notified_is_reported(rt: HostRuntime) -> Result<(), Fail> {
    let alloc = rt.alloc();
    tells(&rt, alloc, "reported", &[BOARD, BITS, REPORTED])?;
    tells(&rt, alloc, "anew", &[BOARD, BITS, REPORTED, SAME_VALUE])?;
    tells(&rt, alloc, "nothing", &[BOARD, BITS, NOTHING])?;
    tells(&rt, alloc, "two handles", &[BOARD, QUEUE, TWO_HANDLES])
}

#[test]
fn one_entry_is_watched(rt: HostRuntime) -> Result<(), Fail> {
    let alloc = rt.alloc();
    tells(&rt, alloc, "one entry", &[ONE_ENTRY, BITS, REPORTED])?;
    tells(&rt, alloc, "ended", &[ONE_ENTRY, BITS, ENDED])?;
    tells(&rt, alloc, "no handle", &[ONE_ENTRY, BITS, NO_HANDLE])
}

#[test]
fn watchers_end(rt: HostRuntime) -> Result<(), Fail> {
    let alloc = rt.alloc();
    tells(&rt, alloc, "held back", &[BOARD, BITS, HELD_BACK])?;
    tells(
        &rt,
        alloc,
        "turned down",
        &[BOARD, BITS, NO_HANDLE, TURNED_DOWN],
    )?;
    tells(&rt, alloc, "cut", &[BOARD, BITS, CUT])?;
    tells(&rt, alloc, "no listener", &[BOARD, BITS, NO_LISTENER])?;
    tells(&rt, alloc, "a reader", &[BOARD, QUEUE, A_READER])
}
