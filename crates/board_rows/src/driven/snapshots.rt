//! Snapshots that are taken, lines that are held back, and turns that end a snapshot.
use crate::driven::{Scene, TWO_ENTRIES, tells};
use crate::programs::Program;
use std::test::Fail;

/// While b takes a snapshot, its own lines are held back, and others aren't. Once it has gone, it can't be abandoned anew.
const HELD_BACK: Scene = &[
    "
        turn b                      |               | unsnapped b
        snap b h k                  |               | snapping b
        snap b k                    |               | snapping b
        step b                      |               | snapping b
        begin b get h               |               | snapping b
        drop b h                    |               | snapping b
        begin b wait l one try      |               | snapping b
        begin b listen l bits ev 63 |               | snapping b
        expire b                    |               | snapping b
        words 2                     | refused noboard
        step c                      | refused idle
        turn b                      | begin b get h | ok
        snap b k                    |               | snapping b
        turn b                      | step b        | read 1:0 1
        step b                      |               | snapping b
        abandon b                   | gone
        turn b                      |               | unsnapped b
        snap b h                    |               | snapping b
        abandon b                   | refused abandoned
        turn b                      | begin b get h | refused abandoned
                                    |               | unsnapped b
        step b                      | refused abandoned
    ",
];

/// A turn that is refused ends a snapshot: nothing is held under the name, or something else, or a call runs.
const REFUSED: Scene = &[
    "
        snap a x      |               | snapping a
        turn a        | begin a get x | refused unknown
                      |               | unsnapped a
        step a        | refused idle
        snap a m      |               | snapping a
        turn a        | begin a get m | refused unknown
                      |               | unsnapped a
        begin b get k | ok
        snap b h      |               | snapping b
        turn b        | begin b get h | refused busy
                      |               | unsnapped b
        step b        | read 1:4 1
        turn b        |               | unsnapped b
    ",
];

/// Values of one word and of four; and a handle that is unknown ends a snapshot in the midst of its round.
const VALUES: Scene = &[
    "
        begin a create f b u64 add u64:1 bool:true add u64:2 q4:1,2,3,4 | ok
        step a                                                          | table = ok 1
        begin a reader r f                                              | ok
        step a                                                          | table = ok 1
        begin a entry snap r u64:1 bool                                 | ok
        step a                                                          | table = ok 0
        begin a entry q r u64:2 q4                                      | ok
        step a                                                          | table = ok 32
        snap a snap q x                                                 |                  | snapping a
        turn a                                                          | begin a get snap | ok
        turn a                                                          | step a           | read 1:0 1
        turn a                                                          | step a           | read 1:2 1
        turn a                                                          | step a           | read 1:0 1 = bool:true gen 1
        turn a                                                          | begin a get q    | ok
        turn a                                                          | step a           | read 1:4 1
        turn a                                                          | step a           | read 1:6 1
        turn a                                                          | step a           | read 1:7 2
        turn a                                                          | step a           | read 1:8 3
        turn a                                                          | step a           | read 1:9 4
        turn a                                                          | step a           | read 1:4 1 = q4:1,2,3,4 gen 1
        turn a                                                          | begin a get x    | refused unknown
                                                                        |                  | unsnapped a
        snap a snap                                                     |                  | snapping a
        turn a                                                          | begin a get snap | ok
        turn a                                                          | step a           | read 1:0 1
        turn a                                                          | step a           | read 1:2 1
        turn a                                                          | step a           | read 1:0 1 = bool:true gen 1
        turn a                                                          | begin a get snap | ok
        turn a                                                          | step a           | read 1:0 1
        turn a                                                          | step a           | read 1:2 1
        turn a                                                          | step a           | read 1:0 1 = bool:true gen 1
                                                                        |                  | snapshot a snap bool:true gen 1
    ",
];

#[test]
fn lines_are_held_back(rt: HostRuntime) -> Result<(), Fail> {
    let alloc = rt.alloc();
    tells(
        &rt,
        alloc,
        Program::Snapshots,
        "held back",
        &[TWO_ENTRIES, HELD_BACK],
    )?;
    tells(
        &rt,
        alloc,
        Program::Snapshots,
        "refused",
        &[TWO_ENTRIES, REFUSED],
    )?;
    tells(&rt, alloc, Program::Snapshots, "values", &[VALUES])
}
