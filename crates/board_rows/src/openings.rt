//! Beginnings that several scripts share.
use crate::row::Part;

/// `a` makes a board of one number.
pub(crate) const ONE_NUMBER: Part = "
    begin a create f b u64 add u64:1 u64:7 | ok
    step a                                 | table = ok 1
";

/// `a` makes a board of two numbers.
pub(crate) const TWO_NUMBERS: Part = "
    begin a create f b u64 add u64:1 u64:7 add u64:2 u64:8 | ok
    step a                                                 | table = ok 1
";

/// `a` writes the first number through m, and `b` reads it through h.
pub(crate) const WRITTEN_AND_READ: Part = "
    begin a writer w f             | ok
    step a                         | table = ok 1
    begin a entrymut m w u64:1 u64 | ok
    step a                         | table = ok 0
    begin b open f b u64           | ok
    step b                         | table = ok 1
    begin b reader r f             | ok
    step b                         | table = ok 2
    begin b entry h r u64:1 u64    | ok
    step b                         | table = ok 0
";

/// `b` reads the second number through k.
pub(crate) const SECOND_READ: Part = "
    begin b entry k r u64:2 u64 | ok
    step b                      | table = ok 32
";

/// `a` writes it through n.
pub(crate) const SECOND_WRITTEN: Part = "
    begin a entrymut n w u64:2 u64 | ok
    step a                         | table = ok 32
";

/// `a` writes an entry of four words, and `b` reads it.
pub(crate) const FOUR_WORDS: Part = "
    begin a create f b u64 add u64:1 q4:1,2,3,4 | ok
    step a                                      | table = ok 1
    begin a writer w f                          | ok
    step a                                      | table = ok 1
    begin a entrymut m w u64:1 q4               | ok
    step a                                      | table = ok 0
    begin b open f b u64                        | ok
    step b                                      | table = ok 1
    begin b reader r f                          | ok
    step b                                      | table = ok 2
    begin b entry h r u64:1 q4                  | ok
    step b                                      | table = ok 0
";

/// `a` makes a board of one number, and `b` reads it. It keeps the first value as `v`.
pub(crate) const ONE_PARTY_READS: Part = "
    begin a create f b u64 add u64:1 u64:5 | ok
    step a                                 | table = ok 1
    begin b open f b u64                   | ok
    step b                                 | table = ok 1
    begin b reader r f                     | ok
    step b                                 | table = ok 1
    begin b entry h r u64:1 u64            | ok
    step b                                 | table = ok 0
    begin b get h v                        | ok
    step b                                 | read 1:0 1
    step b                                 | read 1:2 5
    step b                                 | read 1:0 1 = u64:5 gen 1
";

/// `b` takes the place of the board's writer.
pub(crate) const IT_IS_THE_WRITER: Part = "
    begin b writer w f | ok
    step b             | table = ok 2
";

/// `b` writes the number.
pub(crate) const IT_WRITES: Part = "
    begin b entrymut m w u64:1 u64 | ok
    step b                         | table = ok 0
";

/// `a` and `b` are both writers of a board of one number, which has two.
pub(crate) const TWO_WRITERS: Part = "
    begin a create f b u64 writers 2 add u64:1 u64:5 | ok
    step a                                           | table = ok 1
    begin a writer w f                               | ok
    step a                                           | table = ok 1
    begin b open f b u64                             | ok
    step b                                           | table = ok 1
    begin b writer w f                               | ok
    step b                                           | table = ok 2
";

/// `a` takes a loan.
pub(crate) const A_LOAN: Part = "
    begin a loan l m | ok
    step a           | table = ok
";

/// `a` puts three words of the loan.
pub(crate) const THREE_WORDS_PUT: Part = "
    begin a put l 0 5 | ok
    step a            | write 1:6 5 = ok
    begin a put l 1 6 | ok
    step a            | write 1:7 6 = ok
    begin a put l 2 7 | ok
    step a            | write 1:8 7 = ok
";

/// `a` puts the fourth word too.
pub(crate) const FOURTH_WORD_PUT: Part = "
    begin a put l 3 8 | ok
    step a            | write 1:9 8 = ok
";

/// The steps by which `a` writes and publishes four other words.
pub(crate) const FOUR_WORDS_WRITTEN: Part = "
    step a | write 1:6 5
    step a | write 1:7 6
    step a | write 1:8 7
    step a | write 1:9 8
    step a | write 1:0 2 = ok
";

/// `b` gets the four words.
pub(crate) const FOUR_WORDS_GOT: Part = "
    begin b get h | ok
    step b        | read 1:0 1
    step b        | read 1:2 1
    step b        | read 1:3 2
    step b        | read 1:4 3
    step b        | read 1:5 4
    step b        | read 1:0 1 = q4:1,2,3,4 gen 1
";

/// `e` listens on a set of 64 ids, and `n` notifies it.
pub(crate) const A_SET_OF_64: Part = "
    begin e listen e bits ev 63 | ok
    step e                      | table = ok
    begin n notifier n bits ev  | ok
    step n                      | table = ok
";

/// The same with a set of 128 ids, which takes two words.
pub(crate) const A_SET_OF_128: Part = "
    begin e listen e bits ev 127 | ok
    step e                       | table = ok
    begin n notifier n bits ev   | ok
    step n                       | table = ok
";

/// The same with a queue.
pub(crate) const A_QUEUE: Part = "
    begin e listen e queue q   | ok
    step e                     | table = ok
    begin n notifier n queue q | ok
    step n                     | table = ok
";
