//! What holds of the form of the command line.

ghost use Rattle.command_words.specs.Laws.{FormIsLine, FormIsLeast, LoadsAreSmall};

/// The words spell a request exactly where they are a valid line for it.
pub fn forms_are_lines()
    ensures { FormIsLine }
{}

/// Where the words spell no request, the number that is named is the least one such that no valid line begins with the
/// first so many words; and where all words begin a valid line, it is their count and one more.
pub fn forms_are_least()
    ensures { FormIsLeast }
{}

/// Where the words ask for a load, it is of a number from 1 to `MOST_LOAD`.
pub fn loads_are_small()
    ensures { LoadsAreSmall }
{}
