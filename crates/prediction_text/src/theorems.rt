//! What the picks of a report's clauses tell of the runs.

ghost use Rattle.scenario_runs.specs.Runs.{scenario_run};
ghost use Rattle.start_trees.specs.Needs.{IsStart};
ghost use Rattle.prediction_text.specs.Laws.{PredictionsTellRuns};

use scenario_runs::Job;
use script_names::List;
use start_trees::Need;

/// The pick for a start tree of a job, by the part of a report on it, is the outcome with which the run from that tree
/// ends; for any other tree there is none.
pub fn predictions_tell_runs(job: &Job, needs: &List<Need>)
    ensures { PredictionsTellRuns (scenario_run job.now) (IsStart needs.now) }
{
    let _job = job;
    let _needs = needs;
}
