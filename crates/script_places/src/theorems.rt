//! What holds of the words.

ghost use Rattle.script_places.specs.Laws.{ActWordsFit, BackWordsFit};

/// Each row that an act or what is put back can have has words, and those of what changes files tell of a failure
/// exactly where the row is one.
pub fn words_fit()
    ensures acts { ActWordsFit }
    ensures backs { BackWordsFit }
{}
