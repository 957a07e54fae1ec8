ghost use Rattle.std.specs.Prelude.{◌≡◌, IfOk};
ghost use Rattle.scenario_runs.specs.Runs.{scenario_run};
ghost use Rattle.start_trees.specs.Needs.{IsStart};
ghost use Rattle.scenario_outcomes.specs.Outcomes.{Answers};
ghost use Rattle.scenario_outcomes.specs.Endings.{EndingsAnswer};
ghost use Rattle.scenario_outcomes.specs.OutcomeOf.{PathsAnswer, path_endings};

use crate::job_runs::JobRuns;
use crate::outcome::{Outcome, OutcomesFault, make_outcomes};
use case_paths::{Found, PathsFault, explore};
use dpkg_scenarios::Ending;
use scenario_runs::theorems::scenario_runs_are_decided;
use scenario_runs::{Job, ScriptCall};
use script_names::{List, Memory};
use start_trees::{Need, start_store};
use std::alloc::Global;

/// The paths of a job's scenario from all trees of files that have what is needed, by rising trace. `make_outcome`
/// makes the outcome of each. `NoStart` and `Over` come as for `outcomes`.
pub fn job_paths(
    alloc: Global,
    job: &Job,
    needs: &List<Need>,
    limit: u32,
) -> Result<List<Found<(Ending, List<ScriptCall>)>>, OutcomesFault>
    ensures { PathsAnswer (scenario_run job.now) (IsStart needs.now) limit result }
{
    scenario_runs_are_decided();
    let store = match start_store(alloc, needs)? {
        Some(store) => store,
        None => return Err(OutcomesFault::NoStart),
    };
    let runs = JobRuns::of(job);
    match explore(alloc, &runs, store, limit as usize) {
        Ok(paths) => Ok(paths),
        Err(PathsFault::Over) => Err(OutcomesFault::Over),
        Err(PathsFault::Memory) => Err(OutcomesFault::Memory),
    }
}

/// All outcomes of a job's scenario, over all trees of files that have what is needed (Debian Policy, 6.5 to 6.8), by
/// rising trace. `NoStart` exactly where there is no such tree, and `Over` exactly where the runs from them have more
/// than `limit` different traces.
pub fn outcomes(
    alloc: Global,
    job: &Job,
    needs: &List<Need>,
    limit: u32,
) -> Result<List<Outcome>, OutcomesFault>
    ensures { Answers (scenario_run job.now) (IsStart needs.now) limit result }
{
    match job_paths(alloc, job, needs, limit) {
        Ok(paths) => {
            let outcomes = make_outcomes(alloc, paths)?;
            Ok(outcomes)
        }
        Err(fault) => Err(fault),
    }
}

// The endings of paths, in their order.
fn take_endings(
    alloc: Global,
    paths: &[Found<(Ending, List<ScriptCall>)>],
) -> Result<List<Ending>, Memory>
    ensures { IfOk result (λ endings. endings ≡ path_endings paths.now) }
{
    let mut endings = List::new(alloc);
    for path in paths {
        endings.add(path.value.0)?;
    }
    Ok(endings)
}

/// The endings of the outcomes of a job's scenario, in the outcomes' order. No clause is written and no tree is grown
/// for them. `NoStart` and `Over` come as for `outcomes`.
pub fn endings(
    alloc: Global,
    job: &Job,
    needs: &List<Need>,
    limit: u32,
) -> Result<List<Ending>, OutcomesFault>
    ensures { EndingsAnswer (scenario_run job.now) (IsStart needs.now) limit result }
{
    match job_paths(alloc, job, needs, limit) {
        Ok(paths) => {
            let endings = take_endings(alloc, paths.as_slice())?;
            Ok(endings)
        }
        Err(fault) => Err(fault),
    }
}
