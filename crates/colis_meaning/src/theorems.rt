//! What holds of every program's runs, for the layers above.

ghost use Rattle.colis_meaning.specs.Decided.{RunsAreDecided};
ghost use Rattle.colis_meaning.specs.Laws.{RunsOnlyAdd, TurnsNeverRise, PremisesStay, MoreTurnsSameRun};
ghost use Rattle.colis_meaning.specs.Laws.{StatementsAreLawful};

/// A run of a program only adds to the trace; it has no more turns left than it began with; it leaves its premises as
/// they are; and one that is not bound is, with more turns, the same run but for the turns that are left. The same
/// holds of each statement.
pub fn runs_are_lawful()
    ensures trace { RunsOnlyAdd }
    ensures turns { TurnsNeverRise }
    ensures premises { PremisesStay }
    ensures more { MoreTurnsSameRun }
    ensures statements { StatementsAreLawful }
{}

/// The runs of a program in a step from a state of the shell are one decision, played from each tree: the end, the
/// state, the tree, the trace and the acts are those of the play. Each act of the decision can be done on every tree.
pub fn runs_are_decided()
    ensures { RunsAreDecided }
{}
