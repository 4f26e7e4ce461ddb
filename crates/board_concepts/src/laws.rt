//! Laws of descriptions and their spelling.
ghost use Rattle.board_concepts.specs.DescriptionSpelling.{IsPrefixFree, ReadsBack, SpelledDescription};

/// No spelling of a description is a prefix of another's, and no two descriptions have one spelling.
pub fn no_spelling_begins_another()
    ensures { IsPrefixFree SpelledDescription }
{}

/// What is written of a description is read back as that description, want of memory aside.
pub fn what_is_written_reads_back()
    ensures { ReadsBack SpelledDescription }
{}
