//! What holds of the runs of scenarios, for the layers above.

ghost use Rattle.scenario_runs.specs.Laws.{RunsAreDecided, DecisionsArePlayed, MoreTurns, MoreTurnsOfPlans};

use colis_meaning::theorems::runs_are_lawful;
use dpkg_scenarios::theorems::scenarios_end;

/// The runs of a job are one walk, walked from each tree: the ending, the calls of scripts, the tree that is left, the
/// trace and the deeds are those of the walk. Each act of the walk can be done on every tree, the path of what it puts
/// back has a name, and each run has an end. The walk that specs/Deciding.antt makes of a job is such a one.
pub fn scenario_runs_are_decided()
    ensures decided { RunsAreDecided }
    ensures played { DecisionsArePlayed }
{
    scenarios_end();
}

/// A run of a job that is not bound is, with more turns of loops, the same run in ending, trace, tree, calls and deeds.
/// So is the run of any plan whose scripts have this property themselves.
pub fn more_turns_change_nothing()
    ensures plans { MoreTurnsOfPlans }
    ensures jobs { MoreTurns }
{
    runs_are_lawful();
}
