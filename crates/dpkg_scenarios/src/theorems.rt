//! What holds of the tables as a whole.

ghost use Rattle.dpkg_scenarios.specs.Laws.{GoesForward, TurnsAreFew, Succeeds, ReachesEach};

/// Every walk ends, since what follows a step is one of a later turn or the end, and there are no more turns than
/// steps. Where every step succeeds, the scenario is done. Every step is reached.
pub fn scenarios_end()
    ensures forward { GoesForward }
    ensures few { TurnsAreFew }
    ensures succeeds { Succeeds }
    ensures each { ReachesEach }
{}
