//! What holds of fields and of patterns, for a reader who asks whether the definitions say what the standard says.

ghost use Rattle.shell_words.specs.Laws.{RunCutsOnce, QuotedIsOneField, FieldsKeepBytes};
ghost use Rattle.shell_words.specs.Laws.{QuotedMatchesItself, PlainMatchesItself, StarMatchesAll};

/// A run of blanks cuts once, however long it is.
pub fn a_run_cuts_once()
    ensures { RunCutsOnce }
{}

/// Quoted pieces alone are one field, which has their bytes.
pub fn quoted_pieces_are_one_field()
    ensures { QuotedIsOneField }
{}

/// The fields have the bytes of the word, in order, but for its blanks.
pub fn fields_keep_bytes()
    ensures { FieldsKeepBytes }
{}

/// What is quoted, and what has no `*`, `?` or `[`, matches itself alone.
pub fn patterns_match_themselves()
    ensures quoted { QuotedMatchesItself }
    ensures plain { PlainMatchesItself }
{}

/// An unquoted `*` alone matches every string.
pub fn a_star_matches_all()
    ensures { StarMatchesAll }
{}
