//! What holds of the texts that are printed and read.

ghost use Rattle.shown_texts.specs.Laws.{BytesReadBack, NumbersReadBack, LinesReadBack, PathsReadBack, SitesReadBack};
ghost use Rattle.shown_texts.specs.Laws.{MarksReadBack, ReasonsReadBack, SpellingsStayWhole, ShownApart};
ghost use Rattle.shown_texts.specs.Laws.{JoinedAreCut, CutsJoinAgain};

/// Reading inverts printing, and refuses exactly what no value prints.
pub fn texts_read_back()
    ensures bytes { BytesReadBack }
    ensures numbers { NumbersReadBack }
    ensures lines { LinesReadBack }
    ensures paths { PathsReadBack }
    ensures sites { SitesReadBack }
    ensures marks { MarksReadBack }
    ensures reasons { ReasonsReadBack }
{}

/// Where a text may be cut: never within a spelling of bytes; and joined parts are cut apart again.
pub fn texts_are_cut()
    ensures whole { SpellingsStayWhole }
    ensures cut { JoinedAreCut }
    ensures joined { CutsJoinAgain }
{}

/// Different byte strings are spelled differently.
pub fn shown_apart()
    ensures { ShownApart }
{}
