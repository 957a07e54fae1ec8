//! What holds of the groups of outcomes.

ghost use Rattle.scenario_runs.specs.Runs.{scenario_run};
ghost use Rattle.start_trees.specs.Needs.{IsStart};
ghost use Rattle.outcome_groups.specs.Laws.{GroupsAreTold};

use scenario_runs::Job;
use script_names::List;
use start_trees::Need;

/// The groups of a part that is exact for the runs of a job from its start trees are told: a start tree meets what is
/// told of a group exactly where its outcome is in the group, where that is told exactly.
pub fn groups_are_told(job: &Job, needs: &List<Need>)
    ensures { GroupsAreTold (scenario_run job.now) (IsStart needs.now) }
{
    let _job = job;
    let _needs = needs;
}
