//! What stands after calls on four words, and after those on loans of them.
use crate::row::Part;

/// `a` is abandoned.
pub(super) const A_LEFT: Part = "
    abandon a | gone
    step a    | refused abandoned
";

/// `b` gets what was written.
pub(super) const OTHER_WORDS_GOT: Part = "
    begin b get h | ok
    step b        | read 1:0 2
    step b        | read 1:6 5
    step b        | read 1:7 6
    step b        | read 1:8 7
    step b        | read 1:9 8
    step b        | read 1:0 2 = q4:5,6,7,8 gen 2
";

/// The place of the writer is taken.
pub(super) const STILL_HELD: Part = "
    begin b writer w f | ok
    step b             | table = WriterCreateError::ExceedsMaxSupportedWriters
";

/// What then stands in the board: the counter, a reserved word, the first value, and what was written of the second.
pub(super) const NO_WORD: Part = "words 1 | words 1 0 1 2 3 4 0 0 0 0";

pub(super) const THIRD_WORD: Part = "words 1 | words 1 0 1 2 3 4 0 0 7 0";

pub(super) const ONE_WORD: Part = "words 1 | words 1 0 1 2 3 4 5 0 0 0";

pub(super) const TWO_WORDS: Part = "words 1 | words 1 0 1 2 3 4 5 6 0 0";

pub(super) const THREE_WORDS: Part = "words 1 | words 1 0 1 2 3 4 5 6 7 0";

pub(super) const ALL_WORDS: Part = "words 1 | words 1 0 1 2 3 4 5 6 7 8";

pub(super) const PUBLISHED: Part = "words 1 | words 2 0 1 2 3 4 5 6 7 8";

/// `b` is abandoned in a get, and gets no more.
pub(super) const GETTER_LEFT: Part = "
    abandon b     | gone
    step b        | refused abandoned
    begin b get h | refused abandoned
";
