//! A letter for each line that comes often, as the entries of 1 and 2 have a word each, in the cells from words 0 and 4 on.
use crate::driven::Lines;

/// The lines for which a letter stands: for a blank none.
///
/// `b` begins a get through h, whose steps are `c`, `w` and `e` at generation 1 and `C`, `W` and `E` at 2. Through k it is
/// `p`, then `q`, `r`, `s` or `Q`, `R`, `S`. Party a updates the entry of 1 by `u`, and that of 2 by `v`. By `x` it updates
/// the first with the value that it has, whose steps are `C`, `y` and `z` then.
pub(super) fn lines_of(letter: u8) -> Lines {
    match letter {
        b'b' => "turn b | begin b get h | ok",
        b'c' => "turn b | step b | read 1:0 1",
        b'w' => "turn b | step b | read 1:2 7",
        b'e' => "turn b | step b | read 1:0 1 = u64:7 gen 1",
        b'C' => "turn b | step b | read 1:0 2",
        b'W' => "turn b | step b | read 1:3 9",
        b'E' => "turn b | step b | read 1:0 2 = u64:9 gen 2",
        b'p' => "turn b | begin b get k | ok",
        b'q' => "turn b | step b | read 1:4 1",
        b'r' => "turn b | step b | read 1:6 8",
        b's' => "turn b | step b | read 1:4 1 = u64:8 gen 1",
        b'Q' => "turn b | step b | read 1:4 2",
        b'R' => "turn b | step b | read 1:7 9",
        b'S' => "turn b | step b | read 1:4 2 = u64:9 gen 2",
        b'u' => "
            begin a update m u64:9 | ok
            step a                 | write 1:3 9
            step a                 | write 1:0 2 = ok
        ",
        b'v' => "
            begin a update n u64:9 | ok
            step a                 | write 1:7 9
            step a                 | write 1:4 2 = ok
        ",
        b'x' => "
            begin a update m u64:7 | ok
            step a                 | write 1:3 7
            step a                 | write 1:0 2 = ok
        ",
        b'y' => "turn b | step b | read 1:3 7",
        b'z' => "turn b | step b | read 1:0 2 = u64:7 gen 2",
        _ => "",
    }
}
